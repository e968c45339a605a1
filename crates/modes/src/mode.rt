// What the modes take of the width: bytes and words differ in these alone. `marked` is one of them
// since in bytes it has a hint.
ghost use Rattle.std.specs.Prelude.{◌≡◌, ◌-◌, ◌^◌, ◌≤◌, eqb, get_or, ltb};
ghost use Rattle.bits.specs.Bits.{number_of};
ghost use Rattle.unit.specs.Operand.{bits_of, value_of};
ghost use Rattle.unit.specs.Modes.{ordered_of};

use crate::{bytes, words};
use unit::Block;

pub trait Mode<const N: usize>: Block<N> {
    // Zero, and the element whose bits are all set.
    fn zero() -> Self
        ensures { Self.number result ≡ 0 };

    fn full() -> Self
        ensures { Self.number result ≡ 2 ^ bits_of Self.words - 1 };

    // The number that an element stands for, in two's complement where signed.
    fn value(self, signed: bool) -> i32
        ensures { result ≡ value_of Self.words signed (Self.number self) };

    // Bit j: every bit of element j is set.
    fn marked(row: &[Self; N]) -> u32
        ensures { result
            ≡ number_of N
            (λ j. eqb (get_or (Self.numbers row.now) j 0) (2 ^ bits_of Self.words - 1)) };

    // Bit j: the valid elements of x1 stand in x2 from j on, as far as the block goes. `valid` has
    // the bits of the valid elements of x2.
    fn equal_ordered(x1: &[Self; N], l1: usize, x2: &[Self; N], l2: usize, valid: u32) -> u32
        requires { (l1 ≤ N) × (l2 ≤ N) × (valid ≡ number_of 16 (λ j. ltb j l2)) }
        ensures { result
            ≡ number_of N (ordered_of N (Self.numbers x1.now) l1 (Self.numbers x2.now) l2) };
}

impl Mode<16> for u8 {
    fn zero() -> u8 {
        0
    }

    fn full() -> u8 {
        255
    }

    fn value(self, signed: bool) -> i32 {
        bytes::value(signed, self)
    }

    // The hint is for the stack of the mask calls (docs/PERFORMANCE.md, "Stack").
    #[inline(never)]
    fn marked(row: &[u8; 16]) -> u32 {
        alike::same(row, 255)
    }

    fn equal_ordered(x1: &[u8; 16], l1: usize, x2: &[u8; 16], l2: usize, valid: u32) -> u32 {
        bytes::equal_ordered(x1, l1, x2, l2, valid)
    }
}

impl Mode<8> for u16 {
    fn zero() -> u16 {
        0
    }

    fn full() -> u16 {
        65535
    }

    fn value(self, signed: bool) -> i32 {
        words::value(signed, self)
    }

    fn marked(row: &[u16; 8]) -> u32 {
        alike::same(row, 65535)
    }

    fn equal_ordered(x1: &[u16; 8], l1: usize, x2: &[u16; 8], l2: usize, valid: u32) -> u32 {
        words::equal_ordered(x1, l1, x2, l2, valid)
    }
}
