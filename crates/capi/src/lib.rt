// The C interface: the calls of `pcmpstr`, `search`, `worst_case`, `spans`, `orders`, `schedule`,
// `wall_page`, `decimal` and `report` under names that begin with `hx_`, for C and Rust to link
// (include/hirtxonda.h).
//
// A call that may be refused returns 0, or the number that refuses it. Next match returns 0 or 256,
// for absent; a fill 257 for full, 256, or the number that refused or stopped it, and never 0. The
// results are written through the caller's pointers, and a refused call writes nothing.
// Operands and masks are sixteen bytes behind a pointer, texts a pointer and a length, the entries
// of a day forty bytes each behind a pointer, and their count. What crosses is defined in
// specs/Crossing.antt. This file has what several calls share.
#![tactic(auto)]

mod columns;
mod day;
mod instructions;
mod order;
mod page;
mod span;
mod walk;
mod worst;

ghost use Rattle.std.specs.Prelude.{◌≡◌, cond, ◌≤◌};
ghost use Rattle.refusals.specs.Numbers.{status};
ghost use Rattle.capi.specs.Crossing.{Given, truth};

use refusals::Refusal;

// A truth value from C: 0 is false, and any other number is true.
fn truth(n: u32) -> bool
    ensures { result ≡ truth n }
{
    n != 0
}

// A bit of this weight, set or not. A choice and no product: `set as u32 * weight` says no more.
fn weighed(set: bool, weight: u32) -> u32
    ensures { (result ≡ cond set weight 0) × (result ≤ weight) }
{
    if set { weight } else { 0 }
}

// What a call returns: 0, or the number that refuses it.
fn status(answer: Result<(), Refusal>) -> u32
    ensures { result ≡ status answer }
{
    match answer {
        Ok(_) => 0,
        Err(refusal) => u32::from(refusal),
    }
}

// Hands an answer to the caller: it is written where the call is accepted.
fn give<T: Copy>(answer: Result<T, Refusal>, place: &mut T) -> u32
    ensures { Given answer place.old result place.new }
{
    match answer {
        Ok(told) => {
            *place = told;
            0
        }
        Err(refusal) => u32::from(refusal),
    }
}
