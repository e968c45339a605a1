// The string compare unit.
ghost use Rattle.std.specs.Prelude.{◌≡◌, pos};
ghost use Rattle.unit.specs.Calls.{PCMPESTRI, PCMPESTRM, PCMPISTRI, PCMPISTRM};
ghost use Rattle.capi.specs.Crossing.{eflags, IndexGiven, MaskGiven};

use crate::weighed;
use unit::{Flags, IndexAnswer, MaskAnswer};

// The bits of the flags in the register EFLAGS.
const CARRY: u32 = 0x001;

const PARITY: u32 = 0x004;

const AUXILIARY: u32 = 0x010;

const ZERO: u32 = 0x040;

const SIGN: u32 = 0x080;

const OVERFLOW: u32 = 0x800;

// The flags as one number. Neither type is of this crate, so it can't be a `From` (Rust's orphan
// rule), and in `unit` the register's bits would stand where there is no register.
#[tactic(auto, unfolding(crate::specs::Crossing::eflags))]
fn eflags(f: Flags) -> u32
    ensures { result ≡ eflags f }
{
    weighed(f.carry, CARRY)
        + weighed(f.parity, PARITY)
        + weighed(f.auxiliary, AUXILIARY)
        + weighed(f.zero, ZERO)
        + weighed(f.sign, SIGN)
        + weighed(f.overflow, OVERFLOW)
}

// Hands an index call's answer to the caller. The unit's definitions of the instructions have two
// answers, one with an index and one with a mask, so `give_mask` stands beside it.
fn give_index(answer: IndexAnswer, index: &mut u32, flags: &mut u32) -> u32
    ensures { IndexGiven answer index.old flags.old result
        index.new flags.new }
{
    if answer.refusal == 0 {
        *index = answer.index;
        *flags = eflags(answer.flags);
    }
    answer.refusal
}

// Hands a mask call's answer to the caller.
fn give_mask(masked: MaskAnswer, mask: &mut [u8; 16], flags: &mut u32) -> u32
    ensures { MaskGiven masked mask.old flags.old result mask.new
        flags.new }
{
    if masked.refusal == 0 {
        let made = masked.mask;
        *mask = made;
        *flags = eflags(masked.flags);
    }
    masked.refusal
}

// PCMPESTRI: explicit lengths, the answer an index.
#[unsafe(no_mangle)]
pub extern "C" fn hx_pcmpestri(
    operand1: &[u8; 16],
    length1: i64,
    operand2: &[u8; 16],
    length2: i64,
    control: u8,
    index: &mut u32,
    flags: &mut u32,
) -> u32
    ensures { IndexGiven
        (PCMPESTRI operand1.now length1 operand2.now length2 control)
        index.old flags.old result index.new flags.new }
{
    give_index(
        pcmpstr::pcmpestri(*operand1, length1, *operand2, length2, control),
        index,
        flags,
    )
}

// PCMPESTRM: explicit lengths, the answer a mask.
#[unsafe(no_mangle)]
pub extern "C" fn hx_pcmpestrm(
    operand1: &[u8; 16],
    length1: i64,
    operand2: &[u8; 16],
    length2: i64,
    control: u8,
    mask: &mut [u8; 16],
    flags: &mut u32,
) -> u32
    ensures { MaskGiven
        (PCMPESTRM operand1.now length1 operand2.now length2 control)
        mask.old flags.old result mask.new flags.new }
{
    give_mask(
        pcmpstr::pcmpestrm(*operand1, length1, *operand2, length2, control),
        mask,
        flags,
    )
}

// PCMPISTRI: implicit lengths, the answer an index.
#[unsafe(no_mangle)]
pub extern "C" fn hx_pcmpistri(
    operand1: &[u8; 16],
    operand2: &[u8; 16],
    control: u8,
    index: &mut u32,
    flags: &mut u32,
) -> u32
    ensures { IndexGiven (PCMPISTRI operand1.now operand2.now control)
        index.old flags.old result index.new flags.new }
{
    give_index(
        pcmpstr::pcmpistri(*operand1, *operand2, control),
        index,
        flags,
    )
}

// PCMPISTRM: implicit lengths, the answer a mask.
#[unsafe(no_mangle)]
pub extern "C" fn hx_pcmpistrm(
    operand1: &[u8; 16],
    operand2: &[u8; 16],
    control: u8,
    mask: &mut [u8; 16],
    flags: &mut u32,
) -> u32
    ensures { MaskGiven (PCMPISTRM operand1.now operand2.now control)
        mask.old flags.old result mask.new flags.new }
{
    give_mask(
        pcmpstr::pcmpistrm(*operand1, *operand2, control),
        mask,
        flags,
    )
}

// C has no generics, so 0Ch and 18h, in bytes, and 0Dh and 19h, in words, have each a name of its
// own.

// The index of PCMPESTRI at control 0Ch: equal ordered, unsigned bytes.
#[unsafe(no_mangle)]
pub extern "C" fn hx_pcmpestri_0c(
    operand1: &[u8; 16],
    length1: usize,
    operand2: &[u8; 16],
    length2: usize,
) -> u32
    ensures { result
        ≡ (PCMPESTRI operand1.now (pos length1) operand2.now (pos length2)
        0x0C).index }
{
    pcmpstr::pcmpestri_0c(*operand1, length1, *operand2, length2)
}

// The same at 0Dh: equal ordered, unsigned words.
#[unsafe(no_mangle)]
pub extern "C" fn hx_pcmpestri_0d(
    operand1: &[u8; 16],
    length1: usize,
    operand2: &[u8; 16],
    length2: usize,
) -> u32
    ensures { result
        ≡ (PCMPESTRI operand1.now (pos length1) operand2.now (pos length2)
        0x0D).index }
{
    pcmpstr::pcmpestri_0d(*operand1, length1, *operand2, length2)
}

// The same at 18h: equal each, negated, unsigned bytes.
#[unsafe(no_mangle)]
pub extern "C" fn hx_pcmpestri_18(
    operand1: &[u8; 16],
    length1: usize,
    operand2: &[u8; 16],
    length2: usize,
) -> u32
    ensures { result
        ≡ (PCMPESTRI operand1.now (pos length1) operand2.now (pos length2)
        0x18).index }
{
    pcmpstr::pcmpestri_18(*operand1, length1, *operand2, length2)
}

// The same at 19h: equal each, negated, unsigned words.
#[unsafe(no_mangle)]
pub extern "C" fn hx_pcmpestri_19(
    operand1: &[u8; 16],
    length1: usize,
    operand2: &[u8; 16],
    length2: usize,
) -> u32
    ensures { result
        ≡ (PCMPESTRI operand1.now (pos length1) operand2.now (pos length2)
        0x19).index }
{
    pcmpstr::pcmpestri_19(*operand1, length1, *operand2, length2)
}
