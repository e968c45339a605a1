// The flags, from IntRes2 and the effective lengths.
ghost use Rattle.std.specs.Prelude.{◌≡◌};
ghost use Rattle.unit.specs.Output.{no_flags};
ghost use Rattle.unit.specs.Readings.{flags_read};

use unit::{Compared, Flags};

// The flags of an accepted call, for operands of b elements.
pub fn flags_of(b: usize, t: Compared) -> Flags
    ensures { result ≡ flags_read b t }
{
    Flags {
        carry: t.bits != 0,
        zero: t.length2 < b,
        sign: t.length1 < b,
        overflow: t.bits % 2 == 1,
        auxiliary: false,
        parity: false,
    }
}

// The flags of a refused call.
pub fn none() -> Flags
    ensures { result ≡ no_flags }
{
    Flags {
        carry: false,
        zero: false,
        sign: false,
        overflow: false,
        auxiliary: false,
        parity: false,
    }
}
