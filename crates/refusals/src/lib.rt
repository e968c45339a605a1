// The numbers by which calls refuse, as one enum: document 01's and document 02's, a variant for
// each (docs/REFUSALS.md has the table).
//
// Public calls: `u32::from` of a refusal, its number (`number_of` in specs/Numbers.antt). It asks
// nothing of its argument.
#![tactic(auto)]

ghost use Rattle.std.specs.Prelude.{◌≡◌};
ghost use Rattle.refusals.specs.Numbers.{number_of};

#[derive(Clone, Copy, Debug, PartialEq, Eq)]
pub enum Refusal {
    Control = 1, // the control is above 127
    Text = 2, // a text has too many elements
    Needle = 3, // a needle has too many
    List = 4, // a set or a list of bounds has more elements than an operand holds
    Odd = 5, // a list of bounds has an odd count
    Feed = 6, // an input has no line feed
    Input = 7, // an input is too long
    Width = 8, // a column is too narrow, or too wide
    Exhausted = 21, // the cursor's text is walked to its end (document 01: spent)
    Position = 22, // the cursor stands past its stop
    Compares = 23, // the cursor has too many compares behind it
    Buffer = 24, // a buffer is shorter than its column
    Stop = 31, // the cursor's stop lies past the text
    Count = 32, // a day has too many entries
    Entry = 33, // an entry has no minute of a day, or too long a name
    Number = 34, // an entry number stands twice
    Page = 35, // a page is shorter than its lines
    Sizes = 36, // there is no slowest search of these sizes
    Lengths = 37, // a buffer is not just as long as its size
}

// The number of document 01 or 02.
impl From<Refusal> for u32 {
    ghost from_gives = { λ refusal number. number ≡ number_of refusal };

    fn from(refusal: Refusal) -> u32 {
        refusal as u32
    }
}
