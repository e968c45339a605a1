// Leading runs, with the string compare unit, in bytes and in words (document 01, "Runs, order and
// columns").
//
// Public calls, of texts of bytes or of words:
// - `span` and `range_span` give back the longest front of a text whose elements all belong to a
//   set, or to one of some ranges;
// - `accept_span` and `accept_range_span` take the same arguments and tell what refuses the call,
//   if anything does.
#![tactic(auto)]

ghost use Rattle.std.specs.Prelude.{◌≡◌, ◌+◌, ◌≤◌, cond, length};
ghost use Rattle.blocks.specs.Blocks.{longest_text};
ghost use Rattle.spans.specs.Spans.{bounds_refusal, range_span, set_refusal, set_span, span_length};
ghost use Rattle.spans.specs.BlockFront.{belongs, front_index, span_control};

use blocks::Letter;
use refusals::Refusal;

// What belongs to a list: its elements, or what lies in the ranges of which it has the low and high
// bounds in pairs.
#[derive(Clone, Copy)]
enum Members {
    Listed,
    Bounded { signed: bool },
}

// The control by which the unit finds the first element that does not belong.
fn span_control<T: Letter>(members: Members) -> u8
    ensures { result ≡ span_control members + cond T.words 1 0 }
{
    let control = match members {
        Members::Listed => 0x10,
        Members::Bounded { signed: false } => 0x14,
        Members::Bounded { signed: true } => 0x16,
    };
    if T::COUNT == 8 { control + 1 } else { control }
}

// How many elements belong at the front of the block that begins at i: the first that does not is
// what the unit finds. `list` is the operand of a set or of bounds, and l its length: so the unit
// takes both (document 01, "Operands and lengths").
fn front<T: Letter>(list: [u8; 16], l: usize, text: &[T], i: usize, control: u8) -> usize
    requires { (i ≤ length text.now) × (length text.now ≤ longest_text) }
    ensures { result ≡ front_index T.words list l (T.numbers text.now) i control }
{
    let e = (i + T::COUNT).min(text.len());
    let block = blocks::padded(&text[i..e]);
    let answer = pcmpstr::pcmpestri_usize(list, l, block, e - i, control);
    answer.index as usize
}

// How long the run at the front of a text is. It goes by blocks, up to the first that does not
// belong as a whole.
fn length_of_span<T: Letter>(text: &[T], list: &[T], members: Members) -> usize
    requires { (length text.now ≤ longest_text) × (length list.now ≤ T.COUNT) }
    ensures { (result
        ≡ span_length (belongs T.words members (T.numbers list.now)) (T.numbers text.now))
        × (result ≤ length text.now) }
{
    let operand = blocks::padded(list);
    let control = span_control::<T>(members);
    for i in (0..text.len()).step_by(T::COUNT) {
        let belong = front(operand, list.len(), text, i, control);
        if belong < T::COUNT {
            return i + belong;
        }
    }
    text.len()
}

// What refuses `span` with these arguments.
pub fn accept_span<T: Letter>(text: &[T], set: &[T]) -> Result<(), Refusal>
    ensures { result ≡ set_refusal T.words (length text.now) (length set.now) }
{
    if text.len() > blocks::LONGEST_TEXT {
        return Err(Refusal::Text);
    }
    if set.len() > T::COUNT {
        return Err(Refusal::List);
    }
    Ok(())
}

// The longest front of a text whose elements are all in a set (document 01: the leading run). It is
// that part of the text itself: it begins where the text begins.
pub fn span<'a, T: Letter>(text: &'a [T], set: &[T]) -> &'a [T]
    ensures { (result.ref_ptr ≡ text.entry.ref_ptr)
        × (T.numbers result.now ≡ set_span T.words (T.numbers text.now) (T.numbers set.now)) }
{
    match accept_span(text, set) {
        Ok(()) => &text[..length_of_span(text, set, Members::Listed)],
        Err(_) => &text[..0],
    }
}

// What refuses `range_span` with these arguments.
pub fn accept_range_span<T: Letter>(text: &[T], bounds: &[T], _signed: bool) -> Result<(), Refusal>
    ensures { result ≡ bounds_refusal T.words (length text.now) (length bounds.now) }
{
    accept_span(text, bounds)?;
    if bounds.len() % 2 == 1 {
        return Err(Refusal::Odd);
    }
    Ok(())
}

// The longest front of a text whose elements each lie in one of some ranges, given as a list of low
// and high bounds in pairs.
pub fn range_span<'a, T: Letter>(text: &'a [T], bounds: &[T], signed: bool) -> &'a [T]
    ensures { (result.ref_ptr ≡ text.entry.ref_ptr)
        × (T.numbers result.now
        ≡ range_span T.words signed (T.numbers text.now) (T.numbers bounds.now)) }
{
    match accept_range_span(text, bounds, signed) {
        Ok(()) => &text[..length_of_span(text, bounds, Members::Bounded { signed })],
        Err(_) => &text[..0],
    }
}
