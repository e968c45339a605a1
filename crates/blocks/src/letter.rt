// An element of a text, with what a search does with it.
ghost use Rattle.std.specs.Prelude.{◌≡◌, ◌≤◌, ◌<◌, get_or, length, min};
ghost use Rattle.unit.specs.Operand.{elements, value_of};
ghost use Rattle.blocks.specs.Blocks.{each_negated, fill_length, index_at, operand_byte, operand_of, ordered, stores};

use unit::Element;

pub trait Letter: Element {
    // What it stands for, in two's complement where signed.
    fn value(self, signed: bool) -> i32
        ensures { result ≡ value_of Self.words signed (Self.number self) };

    // One of the first four elements of an operand.
    fn read(operand: &[u8; 16], i: usize) -> Self
        requires { i < 4 }
        ensures { Self.number result ≡ get_or (elements Self.words operand.now) i 0 };

    // The operand of a part that is a whole block, or begins with one.
    fn block(part: &[Self]) -> [u8; 16]
        requires { Self.COUNT ≤ length part.now }
        ensures { result ≡ operand_of Self.words (Self.numbers part.now) };

    // Writes a part over the front of an operand, as far as both go. An operand that is filled
    // where it stands is not copied.
    fn fill(operand: &mut [u8; 16], part: &[Self])
        ensures { operand.new
            ≡ stores (operand_byte Self.words (Self.numbers part.now))
            (fill_length Self.words (length part.now)) operand.old };

    // The index of the unit's compare where operand 1 first stands in operand 2.
    fn ordered_index(operand1: [u8; 16], length1: usize, operand2: [u8; 16], length2: usize) -> u32
        ensures { result ≡ index_at Self.words ordered operand1 length1 operand2 length2 };

    // Its index where the operands first differ.
    fn differ_index(operand1: [u8; 16], length1: usize, operand2: [u8; 16], length2: usize) -> u32
        ensures { result ≡ index_at Self.words each_negated operand1 length1 operand2 length2 };
}
