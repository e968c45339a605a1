// An element of an operand or of a text, a byte or a word: what is said of both is said once, of a
// type with this trait.
ghost use Rattle.std.specs.Prelude.{◌≡◌, Bool, List, refl, eqb, ℕ};
ghost use Rattle.unit.specs.Operand.{count, in_bytes, in_words};
ghost use Rattle.unit.specs.Elements.{Reading, reading_itself};

pub trait Element: Copy + PartialEq {
    // The width, a list of elements as numbers, and one of them.
    ghost words: { Bool };

    ghost numbers: { List Self → List ℕ };

    ghost number: { Self → ℕ };

    ghost COUNT: { ℕ };

    // b: how many elements an operand has.
    const COUNT: usize;

    // The numbers of a part are that part of the numbers.
    ghost reads: { Reading numbers number };

    ghost counted: { COUNT ≡ count words };

    // Elements are equal where their numbers are.
    ghost alike: { (x y : Self) → Self.eq x y ≡ eqb (number x) (number y) };
}

impl Element for u8 {
    ghost words = { in_bytes };

    ghost numbers = { λ xs. xs };

    ghost number = { λ x. x };

    ghost COUNT = { 16 };

    const COUNT: usize = 16;

    ghost reads = { reading_itself };

    ghost counted = { refl };

    ghost alike = { λ x y. refl };
}

impl Element for u16 {
    ghost words = { in_words };

    ghost numbers = { λ xs. xs };

    ghost number = { λ x. x };

    ghost COUNT = { 8 };

    const COUNT: usize = 8;

    ghost reads = { reading_itself };

    ghost counted = { refl };

    ghost alike = { λ x y. refl };
}

// An element of which an operand has N.
pub trait Block<const N: usize>: Element {
    ghost sized: { N ≡ Self.COUNT };
}

impl Block<16> for u8 {
    ghost sized = { refl };
}

impl Block<8> for u16 {
    ghost sized = { refl };
}
