// What stands before and after the compare: the fields of the control byte, the elements and the
// effective length of an operand, what a polarity negates; and of IntRes2 the flags, the index and
// the mask (crate `unit`, specs/Readings.antt).
//
// Public calls, in the order in which data flows: `fields::decode`; `operand::count_of`,
// `explicit_length`, `words_of`; `negation::negated`; `index::answer`, `mask::answer`, and
// of a refused call `index::refused`, `mask::refused`. None asks anything of its arguments.
#![tactic(auto)]

pub mod fields;
pub mod index;
pub mod mask;
pub mod negation;
pub mod operand;
mod status;
