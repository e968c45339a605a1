// The answer of the index calls.
ghost use Rattle.std.specs.Prelude.{◌≡◌, ◌≤◌};
ghost use Rattle.unit.specs.Operand.{count};
ghost use Rattle.unit.specs.Output.{refused_index};
ghost use Rattle.unit.specs.Readings.{flags_read, index_read};

use crate::{operand, status};
use refusals::Refusal;
use unit::{Compared, Control, IndexAnswer};

// The least or the greatest set bit, or b.
fn index_of(high: bool, b: usize, bits: u32) -> u32
    requires { b ≤ 16 }
    ensures { result ≡ index_read high b bits }
{
    if high {
        bits::greatest(bits).unwrap_or(b as u32)
    } else {
        bits::least(bits).unwrap_or(b as u32)
    }
}

// The answer of an accepted call.
pub fn answer(k: Control, t: Compared) -> IndexAnswer
    ensures { result ≡ record {
      refusal = 0;
      index = index_read k.high (count k.words) t.bits;
      flags = flags_read (count k.words) t;
    } }
{
    let b = operand::count_of(k.words);
    let index = index_of(k.high, b, t.bits);
    let flags = status::flags_of(b, t);
    IndexAnswer {
        refusal: 0,
        index: index,
        flags: flags,
    }
}

// The answer of a refused call.
pub fn refused() -> IndexAnswer
    ensures { result ≡ refused_index }
{
    let flags = status::none();
    IndexAnswer {
        refusal: u32::from(Refusal::Control),
        index: 0,
        flags: flags,
    }
}
