// What operands of sixteen bytes have of their own: the number that a byte stands for; equal
// ordered, which bytes and words do in different ways for speed (docs/PERFORMANCE.md); and the
// calls: a generic one, which is lent no array of elements, would have to ask that one fits in
// memory.
ghost use Rattle.std.specs.Prelude.{◌≡◌, ◌≤◌, ltb, pos};
ghost use Rattle.bits.specs.Bits.{number_of};
ghost use Rattle.unit.specs.Operand.{in_bytes, value_of};
ghost use Rattle.unit.specs.Calls.{implicit, PCMPESTRI};
ghost use Rattle.unit.specs.Readings.{compared_of};
ghost use Rattle.modes.specs.Widths.{at_width};
ghost use Rattle.unit.specs.Modes.{ordered_of};

use crate::compare;
use unit::{Compared, Control};

// The number that a byte stands for, in two's complement where signed.
pub fn value(signed: bool, x: u8) -> i32
    ensures { result ≡ value_of in_bytes signed x }
{
    if signed {
        x.cast_signed() as i32
    } else {
        x as i32
    }
}

// Bit j: the valid elements of x1 stand in x2 from j on, as far as its sixteen go. After i of them
// bit j + i of `left` tells of j, and `valid` has the bits of the valid elements of x2.
pub(crate) fn equal_ordered(x1: &[u8; 16], l1: usize, x2: &[u8; 16], l2: usize, valid: u32) -> u32
    requires { (l1 ≤ 16) × (l2 ≤ 16) × (valid ≡ number_of 16 (λ j. ltb j l2)) }
    ensures { result ≡ number_of 16 (ordered_of 16 x1.now l1 x2.now l2) }
{
    // bit 30 is a mark that keeps both tests from ending the first turn (docs/PERFORMANCE.md)
    let mut left = 0x4000ffffu32;
    for i in 0..l1 {
        // past the block nothing is compared: every bit from 16 on counts as equal
        left = (left & ((alike::same(x2, x1[i]) & valid) | 0xffff0000)) << 1;
        if left == 0 {
            return 0;
        }
        // what is left lies past the block, where it can no longer fall
        if left & 0x8000ffff == 0 {
            return (left >> (i as u32 + 1)) & 0xffff;
        }
    }
    (left >> (l1 as u32)) & 0xffff
}

// What an implicit call compares. The hint is for the stack of the mask calls (docs/PERFORMANCE.md,
// "Stack").
#[inline(never)]
pub(crate) fn implicit(operand1: [u8; 16], operand2: [u8; 16], k: Control) -> Compared
    ensures { result ≡ compared_of (implicit operand1 operand2 (at_width in_bytes k)) }
{
    compare::implicit(&operand1, &operand2, k)
}

// The index of `pcmpestri` at control 0Ch: where operand 1 first stands in operand 2.
pub fn index_0c(operand1: [u8; 16], length1: usize, operand2: [u8; 16], length2: usize) -> u32
    ensures { result ≡ (PCMPESTRI operand1 (pos length1) operand2 (pos length2) 0x0C).index }
{
    compare::ordered_index(&operand1, length1, &operand2, length2)
}

// The index of `pcmpestri` at control 18h: where the operands first differ.
pub fn index_18(operand1: [u8; 16], length1: usize, operand2: [u8; 16], length2: usize) -> u32
    ensures { result ≡ (PCMPESTRI operand1 (pos length1) operand2 (pos length2) 0x18).index }
{
    compare::differ_index(&operand1, length1, &operand2, length2)
}
