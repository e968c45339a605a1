// The fields of the control byte. They are read by functions: their types belong to `unit`, which
// has no calls, so that no From can stand here; and two bits are always one of four, so that a
// TryFrom would never fail.
ghost use Rattle.std.specs.Prelude.{◌≡◌, ◌<◌};
ghost use Rattle.unit.specs.Control.{aggregation_of, polarity_of, control_of};

use unit::{Aggregation, Control, Polarity};

// Bits 3:2.
fn aggregation_of(n: u8) -> Aggregation
    requires { n < 4 }
    ensures { result ≡ aggregation_of n }
{
    match n {
        0 => Aggregation::EqualAny,
        1 => Aggregation::Ranges,
        2 => Aggregation::EqualEach,
        _ => Aggregation::EqualOrdered,
    }
}

// Bits 5:4.
fn polarity_of(n: u8) -> Polarity
    requires { n < 4 }
    ensures { result ≡ polarity_of n }
{
    match n {
        0 => Polarity::Positive,
        1 => Polarity::Negative,
        2 => Polarity::MaskedPositive,
        _ => Polarity::MaskedNegative,
    }
}

// All fields of the control byte.
#[tactic(auto, unfolding(unit::specs::Control::control_of))]
pub fn decode(control: u8) -> Control
    ensures { result ≡ control_of control }
{
    Control {
        words: control % 2 == 1,
        signed: control / 2 % 2 == 1,
        aggregation: aggregation_of(control / 4 % 4),
        polarity: polarity_of(control / 16 % 4),
        high: control / 64 % 2 == 1,
    }
}
