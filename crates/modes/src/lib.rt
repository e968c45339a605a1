// IntRes2 of two operands, in bytes and in words, with their effective lengths: the unit up to what
// its calls read off (crate `unit`, specs/Compare.antt).
//
// Public calls: `explicit`, `explicit_usize` and `implicit`, for every control; for searches, in
// the module of each width, the index of `pcmpestri` at one control: `bytes::index_0c` and
// `index_18`, `words::index_0d` and `index_19`; and `value`, what an element stands for. None asks
// anything of its arguments. `Mode` is what bytes and words differ in.
#![tactic(auto)]

pub mod bytes;
mod compare;
mod mode;
pub mod words;

ghost use Rattle.std.specs.Prelude.{◌≡◌, pos};
ghost use Rattle.unit.specs.Calls.{explicit, implicit};
ghost use Rattle.unit.specs.Readings.{compared_of};

use stages::operand;
use unit::{Compared, Control};

// What an explicit call compares: a length with a sign counts as the effective one that it gives.
pub fn explicit(
    operand1: [u8; 16],
    length1: i64,
    operand2: [u8; 16],
    length2: i64,
    k: Control,
) -> Compared
    ensures { result ≡ compared_of (explicit operand1 length1 operand2 length2 k) }
{
    let l1 = operand::explicit_length(k.words, length1);
    let l2 = operand::explicit_length(k.words, length2);
    explicit_usize(operand1, l1, operand2, l2, k)
}

// The same, for lengths that are not negative.
pub fn explicit_usize(
    operand1: [u8; 16],
    length1: usize,
    operand2: [u8; 16],
    length2: usize,
    k: Control,
) -> Compared
    ensures { result ≡ compared_of (explicit operand1 (pos length1) operand2 (pos length2) k) }
{
    if k.words {
        return words::explicit_usize(operand1, length1, operand2, length2, k);
    }
    compare::explicit_usize(&operand1, length1, &operand2, length2, k)
}

// What an implicit call compares. Without the hint it has a frame of its own, and the mask calls
// take more stack than they are given (docs/PERFORMANCE.md, "Stack").
#[inline(always)]
pub fn implicit(operand1: [u8; 16], operand2: [u8; 16], k: Control) -> Compared
    ensures { result ≡ compared_of (implicit operand1 operand2 k) }
{
    if k.words {
        return words::implicit(operand1, operand2, k);
    }
    bytes::implicit(operand1, operand2, k)
}
