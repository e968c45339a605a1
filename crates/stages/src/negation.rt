// Polarity: which bits of IntRes1 are negated.
ghost use Rattle.std.specs.Prelude.{◌≡◌, false, ltb};
ghost use Rattle.bits.specs.Bits.{number_of};
ghost use Rattle.unit.specs.Operand.{count};
ghost use Rattle.unit.specs.Compare.{with_polarity};

use unit::{Element, Polarity};

// The bits of IntRes1 that the polarity negates: none, all b, or those of operand 2's valid
// elements.
pub fn negated<T: Element>(p: Polarity, l2: usize) -> u32
    ensures { result ≡ number_of (count T.words) (λ j. with_polarity p (ltb j l2) false) }
{
    match p {
        Polarity::Positive => 0,
        Polarity::Negative => bits::first(T::COUNT),
        Polarity::MaskedPositive => 0,
        Polarity::MaskedNegative => bits::first(T::COUNT.min(l2)),
    }
}
