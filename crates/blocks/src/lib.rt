// A text as the unit takes it: how long it may be, and operands of sixteen bytes filled from its
// parts, zero past the part's end (document 01, "The walk").
//
// Public calls: `whole` and `padded` make the operand of a part; `differ_at` is a compare of two
// parts; `Letter` has what they need to know of a byte or a word. None asks anything of its
// arguments but `Letter::block` and `Letter::read`. `whole` and `padded` say the same: of a part
// that is too long the first sixteen bytes, or eight words, are taken. `whole` is the quick one
// where the part is a whole block, `padded` where it is shorter.
#![tactic(auto)]

mod bytes;
mod letter;
mod words;

ghost use Rattle.std.specs.Prelude.{◌≡◌};
ghost use Rattle.blocks.specs.Blocks.{compare_index, each_negated, operand_of};

pub use letter::Letter;

// The most elements of a text.
pub const LONGEST_TEXT: usize = 1048576;

// The operand of a part, by reads with no test for each element.
pub fn whole<T: Letter>(part: &[T]) -> [u8; 16]
    ensures { result ≡ operand_of T.words (T.numbers part.now) }
{
    if part.len() < T::COUNT {
        return padded(part);
    }
    T::block(part)
}

// The same operand, filled over zeros as far as the part goes.
pub fn padded<T: Letter>(part: &[T]) -> [u8; 16]
    ensures { result ≡ operand_of T.words (T.numbers part.now) }
{
    let mut operand = [0u8; 16];
    T::fill(&mut operand, part);
    operand
}

// The first place where two parts differ, or b, which is the unit's own index for none
// (`compare_index`), and so no Option. A part that ends before the other differs there. The two
// ways of filling stay apart for speed (docs/PERFORMANCE.md).
pub fn differ_at<T: Letter>(x: &[T], y: &[T]) -> u32
    ensures { result ≡ compare_index T.words each_negated (T.numbers x.now) (T.numbers y.now) }
{
    if x.len() != T::COUNT || y.len() != T::COUNT {
        return short_differ_at(x, y);
    }
    T::differ_index(whole(x), T::COUNT, whole(y), T::COUNT)
}

// The same for parts of which one is no whole block.
fn short_differ_at<T: Letter>(x: &[T], y: &[T]) -> u32
    ensures { result ≡ compare_index T.words each_negated (T.numbers x.now) (T.numbers y.now) }
{
    T::differ_index(padded(x), x.len(), padded(y), y.len())
}
