// A text in words, the low byte of each first.
use crate::Letter;

impl Letter for u16 {
    fn value(self, signed: bool) -> i32 {
        modes::words::value(signed, self)
    }

    fn read(operand: &[u8; 16], i: usize) -> u16 {
        u16::from_le_bytes([operand[2 * i], operand[2 * i + 1]])
    }

    fn block(part: &[u16]) -> [u8; 16] {
        let [l0, h0] = part[0].to_le_bytes();
        let [l1, h1] = part[1].to_le_bytes();
        let [l2, h2] = part[2].to_le_bytes();
        let [l3, h3] = part[3].to_le_bytes();
        let [l4, h4] = part[4].to_le_bytes();
        let [l5, h5] = part[5].to_le_bytes();
        let [l6, h6] = part[6].to_le_bytes();
        let [l7, h7] = part[7].to_le_bytes();
        [
            l0, h0, l1, h1, l2, h2, l3, h3, l4, h4, l5, h5, l6, h6, l7, h7,
        ]
    }

    fn fill(operand: &mut [u8; 16], part: &[u16]) {
        let n = part.len().min(8);
        for i in 0..n {
            let at = 2 * i;
            let [low, high] = part[i].to_le_bytes();
            operand[at] = low;
            operand[at + 1] = high;
        }
    }

    fn ordered_index(
        operand1: [u8; 16],
        length1: usize,
        operand2: [u8; 16],
        length2: usize,
    ) -> u32 {
        pcmpstr::pcmpestri_0d(operand1, length1, operand2, length2)
    }

    fn differ_index(operand1: [u8; 16], length1: usize, operand2: [u8; 16], length2: usize) -> u32 {
        pcmpstr::pcmpestri_19(operand1, length1, operand2, length2)
    }
}
