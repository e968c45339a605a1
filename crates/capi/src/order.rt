// The order of two texts. An exported call can't return a reference, so `hx_lesser_..` tells which
// of the two texts is the smaller.
ghost use Rattle.std.specs.Prelude.{◌≡◌, cond, length};
ghost use Rattle.std.specs.Ordering.{is_gt};
ghost use Rattle.unit.specs.Operand.{in_bytes, in_words};
ghost use Rattle.orders.specs.Orders.{is_second, order_answer, order_refusal, told};
ghost use Rattle.capi.specs.Crossing.{NumberGiven, OrderGiven, truth};

use crate::{give, truth};
use blocks::Letter;
use std::cmp::Ordering;

// An order as document 01's number. Neither type is of this crate, so it can't be a `From` (Rust's
// orphan rule).
fn order_number(order: Ordering) -> i32
    ensures { result ≡ told order }
{
    match order {
        Ordering::Less => -1,
        Ordering::Equal => 0,
        Ordering::Greater => 1,
    }
}

// Which of two texts of this order is the smaller: 0 the first, 1 the second.
fn smaller(order: Ordering) -> u32
    ensures { result ≡ cond (is_gt order) 1 0 }
{
    order.is_gt() as u32
}

// Hands the order of two texts to the caller.
fn give_order<T: Letter>(first: &[T], second: &[T], signed: bool, order: &mut i32) -> u32
    ensures { OrderGiven
        (order_answer T.words signed (T.numbers first.now) (T.numbers second.now))
        order.old result order.new }
{
    let answer = orders::compare(first, second, signed);
    give(answer.map(order_number), order)
}

// Hands to the caller which of two texts is the smaller, the first when they are equal.
fn give_lesser<T: Letter>(first: &[T], second: &[T], signed: bool, which: &mut u32) -> u32
    ensures { NumberGiven
        (order_refusal (length (T.numbers first.now)) (length (T.numbers second.now)))
        (cond (is_second T.words signed (T.numbers first.now) (T.numbers second.now)) 1 0)
        which.old result which.new }
{
    let answer = orders::compare(first, second, signed);
    give(answer.map(smaller), which)
}

// C has no generics, so each call stands once in bytes and once in words, under a name of its own.

// The order of two texts of bytes.
#[unsafe(no_mangle)]
pub extern "C" fn hx_compare_in_bytes(
    first: &[u8],
    second: &[u8],
    signed: u32,
    order: &mut i32,
) -> u32
    ensures { OrderGiven
        (order_answer in_bytes (truth signed) first.now second.now)
        order.old result order.new }
{
    give_order::<u8>(first, second, truth(signed), order)
}

// The same in words.
#[unsafe(no_mangle)]
pub extern "C" fn hx_compare_in_words(
    first: &[u16],
    second: &[u16],
    signed: u32,
    order: &mut i32,
) -> u32
    ensures { OrderGiven
        (order_answer in_words (truth signed) first.now second.now)
        order.old result order.new }
{
    give_order::<u16>(first, second, truth(signed), order)
}

// Which of two texts of bytes is the smaller, the first when they are equal.
#[unsafe(no_mangle)]
pub extern "C" fn hx_lesser_in_bytes(
    first: &[u8],
    second: &[u8],
    signed: u32,
    which: &mut u32,
) -> u32
    ensures { NumberGiven
        (order_refusal (length first.now) (length second.now))
        (cond (is_second in_bytes (truth signed) first.now second.now) 1 0)
        which.old result which.new }
{
    give_lesser::<u8>(first, second, truth(signed), which)
}

// The same in words.
#[unsafe(no_mangle)]
pub extern "C" fn hx_lesser_in_words(
    first: &[u16],
    second: &[u16],
    signed: u32,
    which: &mut u32,
) -> u32
    ensures { NumberGiven
        (order_refusal (length first.now) (length second.now))
        (cond (is_second in_words (truth signed) first.now second.now) 1 0)
        which.old result which.new }
{
    give_lesser::<u16>(first, second, truth(signed), which)
}
