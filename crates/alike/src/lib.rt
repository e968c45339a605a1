// Compares of a whole block for equality: bit j of a result belongs to element j of a block of
// sixteen bytes or eight words.
//
// Public calls: `alike` compares two blocks, `same` a block with one element. None asks anything of
// its arguments.
#![tactic(auto)]

ghost use Rattle.std.specs.Prelude.{◌≡◌, ◌+◌, ◌*◌, ◌<◌, ◌≤◌, eqb, get_or};
ghost use Rattle.bits.specs.Bits.{eight_bits, number_of};

use unit::{Block, Element};

// Whether the elements at one place are equal.
fn equal_at<T: Element, const N: usize>(x: &[T; N], y: &[T; N], at: usize) -> bool
    requires { at < N }
    ensures { result
        ≡ eqb (get_or (T.numbers x.now) at 0) (get_or (T.numbers y.now) at 0) }
{
    x[at] == y[at]
}

// The bits above with those of eight places below them. It is one chain of uneven groups, for speed
// (docs/PERFORMANCE.md).
fn eight<T: Element, const N: usize>(above: u32, x: &[T; N], y: &[T; N], at: usize) -> u32
    requires { (above < 256) × (at + 8 ≤ N) }
    ensures { (result
        ≡ eight_bits
        (λ j. eqb (get_or (T.numbers x.now) (at + j) 0) (get_or (T.numbers y.now) (at + j) 0))
        + 256 * above)
        × (result < 256 * above + 256) }
{
    let a = equal_at(x, y, at + 6) as u32;
    let b = equal_at(x, y, at + 7) as u32;
    let high = above * 4 + (a + b * 2);
    let a = equal_at(x, y, at + 3) as u32;
    let b = equal_at(x, y, at + 4) as u32;
    let c = equal_at(x, y, at + 5) as u32;
    let middle = high * 8 + (a + b * 2 + c * 4);
    let a = equal_at(x, y, at) as u32;
    let b = equal_at(x, y, at + 1) as u32;
    let c = equal_at(x, y, at + 2) as u32;
    middle * 8 + (a + b * 2 + c * 4)
}

// Bit j: x[j] is y[j].
pub fn alike<T: Block<N>, const N: usize>(x: &[T; N], y: &[T; N]) -> u32
    ensures { result
        ≡ number_of N
        (λ j. eqb (get_or (T.numbers x.now) j 0) (get_or (T.numbers y.now) j 0)) }
{
    if N < 16 {
        return eight(0, x, y, 0);
    }
    eight(eight(0, x, y, 8), x, y, 0)
}

// Bit j: x[j] is y.
pub fn same<T: Block<N>, const N: usize>(x: &[T; N], y: T) -> u32
    ensures { result
        ≡ number_of N
        (λ j. eqb (get_or (T.numbers x.now) j 0) (T.number y)) }
{
    let all = [y; N];
    alike(x, &all)
}
