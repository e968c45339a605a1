// The string compare unit of SSE4.2: the instructions PCMPESTRI, PCMPESTRM, PCMPISTRI and PCMPISTRM
// as calls, proved equal to their definition (crate `unit`).
//
// Public calls: `pcmpestri`, `pcmpestrm`, `pcmpistri`, `pcmpistrm`, with the arguments of Intel's
// intrinsics in their order, but lengths of 64 bits: the explicit ones are the forms with REX.W.
// For callers whose lengths are never negative: `pcmpestri_usize`, the same as `pcmpestri`; and for
// searches `pcmpestri_0c`, `pcmpestri_0d`, `pcmpestri_18`, `pcmpestri_19`, its index at that
// control. Data flows through `stages::fields`, then `modes`, then `stages::index` or
// `stages::mask`.
//
// There is a call for each instruction, since each has its own definition and answer, and one for
// each of the four controls, since each has its name in C. README promises lengths with a sign, as
// the instruction has them, and `pcmpestri_usize` beside: so both of these stay.

#![tactic(auto)]

ghost use Rattle.std.specs.Prelude.{◌≡◌, pos};
ghost use Rattle.unit.specs.Calls.{PCMPESTRI, PCMPESTRM, PCMPISTRI, PCMPISTRM};

use modes::{bytes, words};
use stages::{fields, index, mask};
use unit::{IndexAnswer, MaskAnswer};

// The greatest control with a defined meaning: bit 7 of imm8 should be zero.
const GREATEST_CONTROL: u8 = 127;

// Packed compare of strings of explicit length, the answer an index.
pub fn pcmpestri(
    operand1: [u8; 16],
    length1: i64,
    operand2: [u8; 16],
    length2: i64,
    control: u8,
) -> IndexAnswer
    ensures { result ≡ PCMPESTRI operand1 length1 operand2 length2 control }
{
    if control > GREATEST_CONTROL {
        return index::refused();
    }
    let k = fields::decode(control);
    index::answer(k, modes::explicit(operand1, length1, operand2, length2, k))
}

// The same, for lengths that are not negative.
pub fn pcmpestri_usize(
    operand1: [u8; 16],
    length1: usize,
    operand2: [u8; 16],
    length2: usize,
    control: u8,
) -> IndexAnswer
    ensures { result ≡ PCMPESTRI operand1 (pos length1) operand2 (pos length2) control }
{
    if control > GREATEST_CONTROL {
        return index::refused();
    }
    let k = fields::decode(control);
    index::answer(
        k,
        modes::explicit_usize(operand1, length1, operand2, length2, k),
    )
}

// Packed compare of strings of explicit length, the answer a mask.
pub fn pcmpestrm(
    operand1: [u8; 16],
    length1: i64,
    operand2: [u8; 16],
    length2: i64,
    control: u8,
) -> MaskAnswer
    ensures { result ≡ PCMPESTRM operand1 length1 operand2 length2 control }
{
    if control > GREATEST_CONTROL {
        return mask::refused();
    }
    let k = fields::decode(control);
    mask::answer(k, modes::explicit(operand1, length1, operand2, length2, k))
}

// Packed compare of strings of implicit length, the answer an index.
pub fn pcmpistri(operand1: [u8; 16], operand2: [u8; 16], control: u8) -> IndexAnswer
    ensures { result ≡ PCMPISTRI operand1 operand2 control }
{
    if control > GREATEST_CONTROL {
        return index::refused();
    }
    let k = fields::decode(control);
    index::answer(k, modes::implicit(operand1, operand2, k))
}

// Packed compare of strings of implicit length, the answer a mask.
pub fn pcmpistrm(operand1: [u8; 16], operand2: [u8; 16], control: u8) -> MaskAnswer
    ensures { result ≡ PCMPISTRM operand1 operand2 control }
{
    if control > GREATEST_CONTROL {
        return mask::refused();
    }
    let k = fields::decode(control);
    mask::answer(k, modes::implicit(operand1, operand2, k))
}

// The index of `pcmpestri` at control 0Ch: where operand 1 first stands in operand 2, in unsigned
// bytes.
pub fn pcmpestri_0c(operand1: [u8; 16], length1: usize, operand2: [u8; 16], length2: usize) -> u32
    ensures { result ≡ (PCMPESTRI operand1 (pos length1) operand2 (pos length2) 0x0C).index }
{
    bytes::index_0c(operand1, length1, operand2, length2)
}

// The index of `pcmpestri` at control 18h: where the operands first differ, in unsigned bytes.
pub fn pcmpestri_18(operand1: [u8; 16], length1: usize, operand2: [u8; 16], length2: usize) -> u32
    ensures { result ≡ (PCMPESTRI operand1 (pos length1) operand2 (pos length2) 0x18).index }
{
    bytes::index_18(operand1, length1, operand2, length2)
}

// The index of `pcmpestri` at control 0Dh: where operand 1 first stands in operand 2, in unsigned
// words.
pub fn pcmpestri_0d(operand1: [u8; 16], length1: usize, operand2: [u8; 16], length2: usize) -> u32
    ensures { result ≡ (PCMPESTRI operand1 (pos length1) operand2 (pos length2) 0x0D).index }
{
    words::index_0d(operand1, length1, operand2, length2)
}

// The index of `pcmpestri` at control 19h: where the operands first differ, in unsigned words.
pub fn pcmpestri_19(operand1: [u8; 16], length1: usize, operand2: [u8; 16], length2: usize) -> u32
    ensures { result ≡ (PCMPESTRI operand1 (pos length1) operand2 (pos length2) 0x19).index }
{
    words::index_19(operand1, length1, operand2, length2)
}
