// The order of two texts, with the string compare unit, in bytes and in words (document 01, "Runs,
// order and columns").
//
// Public calls, of texts of bytes or of words:
// - `compare` tells the order of two texts, and `lesser` gives back the smaller;
// - `accept_lesser` takes the arguments of `lesser` and tells what refuses it, if anything does.
#![tactic(auto)]

ghost use Rattle.std.specs.Prelude.{◌≡◌, ◌≤◌, cond, length, true};
ghost use Rattle.blocks.specs.Blocks.{longest_text};
ghost use Rattle.orders.specs.Orders.{difference, is_second, lesser_text, order, order_answer, order_refusal, ordering_of};

use blocks::Letter;
use refusals::Refusal;
use std::cmp::Ordering;

// What refuses two texts of n and m elements.
fn accept(n: usize, m: usize) -> Result<(), Refusal>
    ensures { result ≡ order_refusal n m }
{
    if n > blocks::LONGEST_TEXT || m > blocks::LONGEST_TEXT {
        return Err(Refusal::Text);
    }
    Ok(())
}

// Whether two texts differ in their first element.
fn fronts_differ<T: Letter>(first: &[T], second: &[T]) -> bool
    ensures { result ≡ true → difference (T.numbers first.now) (T.numbers second.now) ≡ 0 }
{
    if first.len().min(second.len()) == 0 {
        return false;
    }
    !(first[0] == second[0])
}

// The first place where two texts differ, or the end of the shorter. Equal stretches go by in
// blocks. Most texts differ in their first element, and then no block is compared, for speed
// (docs/PERFORMANCE.md).
fn difference<T: Letter>(first: &[T], second: &[T]) -> usize
    requires { (length first.now ≤ longest_text) × (length second.now ≤ longest_text) }
    ensures { result ≡ difference (T.numbers first.now) (T.numbers second.now) }
{
    let n = first.len().min(second.len());
    if fronts_differ(first, second) {
        return 0;
    }
    for i in (0..n).step_by(T::COUNT) {
        let e = (i + T::COUNT).min(n);
        let k = blocks::differ_at(&first[i..e], &second[i..e]) as usize;
        if k < T::COUNT {
            return i + k;
        }
    }
    n
}

// The order of two texts.
fn ordering<T: Letter>(first: &[T], second: &[T], signed: bool) -> Ordering
    requires { (length first.now ≤ longest_text) × (length second.now ≤ longest_text) }
    ensures { result
        ≡ ordering_of (order T.words signed (T.numbers first.now) (T.numbers second.now)) }
{
    let k = difference(first, second);
    if k < first.len().min(second.len()) {
        return first[k].value(signed).cmp(&second[k].value(signed));
    }
    first.len().cmp(&second.len())
}

// The order of two texts, or what refuses them.
pub fn compare<T: Letter>(first: &[T], second: &[T], signed: bool) -> Result<Ordering, Refusal>
    ensures { result
        ≡ order_answer T.words signed (T.numbers first.now) (T.numbers second.now) }
{
    accept(first.len(), second.len())?;
    Ok(ordering(first, second, signed))
}

// What refuses `lesser` with these arguments.
pub fn accept_lesser<T: Letter>(first: &[T], second: &[T], _signed: bool) -> Result<(), Refusal>
    ensures { result ≡ order_refusal (length first.now) (length second.now) }
{
    accept(first.len(), second.len())
}

// The smaller of two texts itself, the first when they are equal. Refused, the empty front of the
// first.
pub fn lesser<'a, T: Letter>(first: &'a [T], second: &'a [T], signed: bool) -> &'a [T]
    ensures { (result.ref_ptr
        ≡ cond (is_second T.words signed (T.numbers first.now) (T.numbers second.now))
        second.entry.ref_ptr first.entry.ref_ptr)
        × (T.numbers result.now
        ≡ lesser_text T.words signed (T.numbers first.now) (T.numbers second.now)) }
{
    match compare(first, second, signed) {
        Err(_) => &first[..0],
        Ok(Ordering::Greater) => second,
        Ok(_) => first,
    }
}
