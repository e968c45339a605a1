// The slowest search of a size.
ghost use Rattle.unit.specs.Operand.{in_bytes, in_words};
ghost use Rattle.capi.specs.Crossing.{WorstGiven};

use crate::status;

// C has no generics, so the call stands once in bytes and once in words, under a name of its own.

// The text of n and the needle of m bytes on which a search takes the most compares.
#[unsafe(no_mangle)]
pub extern "C" fn hx_worst_case_in_bytes(
    n: usize,
    m: usize,
    text: &mut [u8],
    needle: &mut [u8],
) -> u32
    ensures { WorstGiven in_bytes n m text.old needle.old result
        text.new needle.new }
{
    status(worst_case::worst_case::<u8>(n, m, text, needle))
}

// The same in words.
#[unsafe(no_mangle)]
pub extern "C" fn hx_worst_case_in_words(
    n: usize,
    m: usize,
    text: &mut [u16],
    needle: &mut [u16],
) -> u32
    ensures { WorstGiven in_words n m text.old needle.old result
        text.new needle.new }
{
    status(worst_case::worst_case::<u16>(n, m, text, needle))
}
