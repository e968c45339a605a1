// Bits kept in one number: bit j of a number belongs to element j of a block.
//
// Public calls: `first` is the low n bits, `least` and `greatest` find a set bit. None asks
// anything of its arguments.
#![tactic(auto)]

ghost use Rattle.std.specs.Prelude.{◌≡◌, cond, ◌-◌, eqb, ltb, Some, None};
ghost use Rattle.std.specs.Int.Count.{count_leading_zeros, count_trailing_zeros};
ghost use Rattle.bits.specs.Bits.{number_of};

// The low n bits of sixteen.
pub fn first(n: usize) -> u32
    ensures { result ≡ number_of 16 (λ j. ltb j n) }
{
    if n < 16 {
        (1u32 << (n as u32)) - 1
    } else {
        65535
    }
}

// The least set bit of a number, if it has one.
pub fn least(number: u32) -> Option<u32>
    ensures { result ≡ cond (eqb number 0) None (Some (count_trailing_zeros 32 number)) }
{
    if number == 0 {
        None
    } else {
        Some(number.trailing_zeros())
    }
}

// The greatest set bit of a number, if it has one.
pub fn greatest(number: u32) -> Option<u32>
    ensures { result ≡ cond (eqb number 0) None (Some (31 - count_leading_zeros 32 number)) }
{
    if number == 0 {
        None
    } else {
        Some(31 - number.leading_zeros())
    }
}
