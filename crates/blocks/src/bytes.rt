// A text in bytes. `block` reads with no test between, which becomes one load (docs/PERFORMANCE.md,
// "Operands"). `fill` is a loop, as that of words is, since one law of stores is said of both.
ghost use Rattle.std.specs.Prelude.{◌≡◌};

use crate::Letter;

impl Letter for u8 {
    fn value(self, signed: bool) -> i32 {
        modes::bytes::value(signed, self)
    }

    fn read(operand: &[u8; 16], i: usize) -> u8 {
        operand[i]
    }

    fn block(part: &[u8]) -> [u8; 16] {
        [
            part[0], part[1], part[2], part[3], part[4], part[5], part[6], part[7], part[8],
            part[9], part[10], part[11], part[12], part[13], part[14], part[15],
        ]
    }

    fn fill(operand: &mut [u8; 16], part: &[u8]) {
        let n = part.len().min(16);
        for i in 0..n {
            operand[i] = part[i];
        }
    }

    fn ordered_index(
        operand1: [u8; 16],
        length1: usize,
        operand2: [u8; 16],
        length2: usize,
    ) -> u32 {
        pcmpstr::pcmpestri_0c(operand1, length1, operand2, length2)
    }

    fn differ_index(operand1: [u8; 16], length1: usize, operand2: [u8; 16], length2: usize) -> u32 {
        pcmpstr::pcmpestri_18(operand1, length1, operand2, length2)
    }
}
