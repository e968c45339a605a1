// The string compare unit of SSE4.2 as a definition: its types here, what they mean in specs/
// (after the Intel SSE4 Programming Reference, section 5.3 and the four instruction pages), its
// laws in proofs/. There is no function here: `stages` and `modes` compute it and `pcmpstr` has the
// calls. `Element` is a byte or a word, `Block` one of which an operand has N.
#![tactic(auto)]

mod element;

pub use element::{Block, Element};

// How the comparisons of single elements are aggregated into IntRes1: control bits 3:2.
#[derive(Clone, Copy)]
pub enum Aggregation {
    EqualAny,
    Ranges,
    EqualEach,
    EqualOrdered,
}

// What becomes of IntRes1: control bits 5:4.
#[derive(Clone, Copy)]
pub enum Polarity {
    Positive,
    Negative,
    MaskedPositive,
    MaskedNegative,
}

// The control byte, taken apart. `high` is output selection, bit 6: the most significant index, or
// the byte/word mask.
#[derive(Clone, Copy)]
pub struct Control {
    pub words: bool,
    pub signed: bool,
    pub aggregation: Aggregation,
    pub polarity: Polarity,
    pub high: bool,
}

// CF, ZF, SF, OF, AF and PF.
#[derive(Clone, Copy)]
pub struct Flags {
    pub carry: bool,
    pub zero: bool,
    pub sign: bool,
    pub overflow: bool,
    pub auxiliary: bool,
    pub parity: bool,
}

// The answer of the index calls. Accepted, `refusal` is 0. Refused, it is the number, and every
// other field is zero or false: a field and no Result, since clauses and theorems read the other
// fields of an answer, as `index` of PCMPESTRI in the clause of `pcmpestri_0c`, and of a refused
// one too (`masks_hold`, specs/Specimens.antt). Two types and no generic one: these name the field
// by what it is, `index`, or `mask` as `masks_widen` does (specs/Selection.antt).
#[derive(Clone, Copy)]
pub struct IndexAnswer {
    pub refusal: u32,
    pub index: u32,
    pub flags: Flags,
}

// The answer of the mask calls, refused in the same way.
#[derive(Clone, Copy)]
pub struct MaskAnswer {
    pub refusal: u32,
    pub mask: [u8; 16],
    pub flags: Flags,
}

// IntRes2 as a number, bit j of it bit j of the number, and the effective lengths of the two
// operands.
#[derive(Clone, Copy)]
pub struct Compared {
    pub bits: u32,
    pub length1: usize,
    pub length2: usize,
}
