// What operands of eight words have of their own: the number that a word stands for; equal ordered,
// which bytes and words do in different ways for speed (docs/PERFORMANCE.md); and the calls: a
// generic one, which is lent no array of elements, would have to ask that one fits in memory.
ghost use Rattle.std.specs.Prelude.{◌≡◌, ◌≤◌, ltb, pos};
ghost use Rattle.bits.specs.Bits.{number_of};
ghost use Rattle.unit.specs.Operand.{in_words, value_of};
ghost use Rattle.unit.specs.Calls.{explicit, implicit, PCMPESTRI};
ghost use Rattle.unit.specs.Modes.{ordered_of};
ghost use Rattle.unit.specs.Readings.{compared_of};
ghost use Rattle.modes.specs.Widths.{at_width};

use crate::compare;
use stages::operand;
use unit::{Compared, Control};

// The number that a word stands for, in two's complement where signed.
pub fn value(signed: bool, x: u16) -> i32
    ensures { result ≡ value_of in_words signed x }
{
    if signed {
        x.cast_signed() as i32
    } else {
        x as i32
    }
}

// Bit j: the valid elements of x1 stand in x2 from j on, as far as its eight go. After i of them
// bit j of `left` tells of j.
pub(crate) fn equal_ordered(x1: &[u16; 8], l1: usize, x2: &[u16; 8], l2: usize, valid: u32) -> u32
    requires { (l1 ≤ 8) × (l2 ≤ 8) × (valid ≡ number_of 16 (λ j. ltb j l2)) }
    ensures { result ≡ number_of 8 (ordered_of 8 x1.now l1 x2.now l2) }
{
    let mut left = 0xffu32;
    for i in 0..l1 {
        let found = (alike::same(x2, x1[i]) & valid) | 0xffffff00;
        left = left & (found >> (i as u32));
        // from the second element on, is nothing left? (docs/PERFORMANCE.md)
        if left < ((i + 15) / 16) as u32 {
            return 0;
        }
    }
    left
}

// What an explicit call compares, for lengths that are not negative.
#[inline(always)]
pub(crate) fn explicit_usize(
    operand1: [u8; 16],
    length1: usize,
    operand2: [u8; 16],
    length2: usize,
    k: Control,
) -> Compared
    ensures { result
        ≡ compared_of
        (explicit operand1 (pos length1) operand2 (pos length2) (at_width in_words k)) }
{
    let x1 = operand::words_of(operand1);
    let x2 = operand::words_of(operand2);
    compare::explicit_usize(&x1, length1, &x2, length2, k)
}

// What an implicit call compares. The hints here are for the stack of the mask calls
// (docs/PERFORMANCE.md, "Stack").
#[inline(never)]
pub(crate) fn implicit(operand1: [u8; 16], operand2: [u8; 16], k: Control) -> Compared
    ensures { result ≡ compared_of (implicit operand1 operand2 (at_width in_words k)) }
{
    let x1 = operand::words_of(operand1);
    let x2 = operand::words_of(operand2);
    compare::implicit(&x1, &x2, k)
}

// The index of `pcmpestri` at control 0Dh: where operand 1 first stands in operand 2.
pub fn index_0d(operand1: [u8; 16], length1: usize, operand2: [u8; 16], length2: usize) -> u32
    ensures { result ≡ (PCMPESTRI operand1 (pos length1) operand2 (pos length2) 0x0D).index }
{
    let x1 = operand::words_of(operand1);
    let x2 = operand::words_of(operand2);
    compare::ordered_index(&x1, length1, &x2, length2)
}

// The index of `pcmpestri` at control 19h: where the operands first differ.
pub fn index_19(operand1: [u8; 16], length1: usize, operand2: [u8; 16], length2: usize) -> u32
    ensures { result ≡ (PCMPESTRI operand1 (pos length1) operand2 (pos length2) 0x19).index }
{
    let x1 = operand::words_of(operand1);
    let x2 = operand::words_of(operand2);
    compare::differ_index(&x1, length1, &x2, length2)
}
