// IntRes1 of two operands as a number, a mode at a time, then IntRes2 with the effective lengths;
// for bytes and for words. A control counts at the width of the operands, whatever its own is. An
// operand and its length are handed on apart: in a struct they take more stack than the mask calls
// are given, and a search is slower (docs/PERFORMANCE.md, "Stack").
ghost use Rattle.std.specs.Prelude.{◌≡◌, cond, not, ◌-◌, ◌^◌, ◌/◌, ◌≤◌, min, eqb, get_or};
ghost use Rattle.bits.specs.Bits.{least_below, number_of, tabulate};
ghost use Rattle.unit.specs.Operand.{bits_of, value_of};
ghost use Rattle.unit.specs.Compare.{operands, int_res1};
ghost use Rattle.unit.specs.Modes.{any_of, between, each_of, ordered_of, ranges_of};
ghost use Rattle.unit.specs.Readings.{compared_of};
ghost use Rattle.modes.specs.Widths.{at_width};

use crate::mode::Mode;
use stages::negation;
use unit::{Aggregation, Block, Compared, Control};

// The index of the first zero element, or N.
fn implicit_length<T: Mode<N>, const N: usize>(x: &[T; N]) -> usize
    ensures { result ≡ least_below N (λ j. eqb (get_or (T.numbers x.now) j 0) 0) }
{
    for i in 0..N {
        if x[i] == T::zero() {
            return i;
        }
    }
    N
}

// Bit j: x2[j] is valid and equals a valid element of x1. It stops once every valid element of x2
// has been found. The hint is for the stack of the mask calls on aarch64 (docs/PERFORMANCE.md).
#[inline(never)]
fn equal_any<T: Mode<N>, const N: usize>(x1: &[T; N], l1: usize, x2: &[T; N], l2: usize) -> u32
    requires { (l1 ≤ N) × (l2 ≤ N) }
    ensures { result
        ≡ number_of N (any_of (T.numbers x1.now) l1 (T.numbers x2.now) l2) }
{
    let valid = bits::first(l2);
    let mut found = 0u32;
    for i in 0..l1 {
        found = found | (alike::same(x2, x1[i]) & valid);
        if found == valid {
            return found;
        }
    }
    found
}

// Whether y lies from low to high.
fn lies<T: Mode<N>, const N: usize>(signed: bool, low: T, high: T, y: T) -> bool
    ensures { result
        ≡ between (value_of T.words signed) (T.number low) (T.number high) (T.number y) }
{
    let n = y.value(signed);
    (low.value(signed) <= n) & (n <= high.value(signed))
}

// Sets every bit of the row's marks where an element of x lies from low to high. The row is marked
// where it stands, for the stack of the mask calls (docs/PERFORMANCE.md, "Stack").
fn within<T: Mode<N>, const N: usize>(signed: bool, x: &[T; N], low: T, high: T, row: &mut [T; N])
    ensures { T.numbers row.new
        ≡ tabulate N
        (λ j. cond
        (between (value_of T.words signed) (T.number low) (T.number high)
        (get_or (T.numbers x.now) j 0))
        (2 ^ bits_of T.words - 1) (get_or (T.numbers row.old) j 0)) }
{
    for j in 0..N {
        let mark = if lies::<T, N>(signed, low, high, x[j]) {
            T::full()
        } else {
            row[j]
        };
        row[j] = mark;
    }
}

// Bit j: x2[j] is valid and lies in one of the first n ranges of x1, each a lower and an upper
// bound.
fn ranges<T: Mode<N>, const N: usize>(
    signed: bool,
    x1: &[T; N],
    n: usize,
    x2: &[T; N],
    l2: usize,
) -> u32
    requires { (n ≤ N / 2) × (l2 ≤ N) }
    ensures { result
        ≡ number_of N
        (ranges_of (value_of T.words signed) (T.numbers x1.now) n (T.numbers x2.now) l2) }
{
    let mut row = [T::zero(); N];
    for i in 0..n {
        let at = 2 * i;
        within(signed, x2, x1[at], x1[at + 1], &mut row);
    }
    T::marked(&row) & bits::first(l2)
}

// Bit j: the elements at j are equal, or both invalid.
fn equal_each<T: Block<N>, const N: usize>(x1: &[T; N], l1: usize, x2: &[T; N], l2: usize) -> u32
    requires { (l1 ≤ N) × (l2 ≤ N) }
    ensures { result
        ≡ number_of N (each_of (T.numbers x1.now) l1 (T.numbers x2.now) l2) }
{
    let v1 = bits::first(l1);
    let v2 = bits::first(l2);
    (alike::alike(x2, x1) & v1 & v2) | ((v1 | v2) ^ bits::first(N))
}

// Bit j: equal each, negated. Parts of one length, as a search compares them, differ at a valid
// element or nowhere. The operands are compared before the test, for speed.
fn differ<T: Block<N>, const N: usize>(x1: &[T; N], l1: usize, x2: &[T; N], l2: usize) -> u32
    requires { (l1 ≤ N) × (l2 ≤ N) }
    ensures { result
        ≡ number_of N
        (λ j. not (each_of (T.numbers x1.now) l1 (T.numbers x2.now) l2 j)) }
{
    let same = alike::alike(x2, x1);
    let all = bits::first(N);
    if l1 == l2 {
        return (same ^ all) & bits::first(l1);
    }
    let v1 = bits::first(l1);
    let v2 = bits::first(l2);
    ((same & v1 & v2) | ((v1 | v2) ^ all)) ^ all
}

// IntRes1.
fn aggregated<T: Mode<N>, const N: usize>(
    k: Control,
    x1: &[T; N],
    l1: usize,
    x2: &[T; N],
    l2: usize,
) -> u32
    requires { (l1 ≤ N) × (l2 ≤ N) }
    ensures { result
        ≡ number_of N
        (int_res1 (operands (at_width T.words k) (T.numbers x1.now) l1 (T.numbers x2.now) l2)) }
{
    match k.aggregation {
        Aggregation::EqualAny => equal_any(x1, l1, x2, l2),
        Aggregation::Ranges => ranges(k.signed, x1, l1 / 2, x2, l2),
        Aggregation::EqualEach => equal_each(x1, l1, x2, l2),
        Aggregation::EqualOrdered => T::equal_ordered(x1, l1, x2, l2, bits::first(l2)),
    }
}

// IntRes2. The hints here and below are for the stack of the mask calls (docs/PERFORMANCE.md,
// "Stack").
#[inline(never)]
fn int_res2<T: Mode<N>, const N: usize>(
    k: Control,
    x1: &[T; N],
    l1: usize,
    x2: &[T; N],
    l2: usize,
) -> u32
    requires { (l1 ≤ N) × (l2 ≤ N) }
    ensures { result
        ≡ (compared_of
        (operands (at_width T.words k) (T.numbers x1.now) l1 (T.numbers x2.now) l2)).bits }
{
    aggregated(k, x1, l1, x2, l2) ^ negation::negated::<T>(k.polarity, l2)
}

// The same, with the effective lengths.
#[inline(always)]
fn compared<T: Mode<N>, const N: usize>(
    k: Control,
    x1: &[T; N],
    l1: usize,
    x2: &[T; N],
    l2: usize,
) -> Compared
    requires { (l1 ≤ N) × (l2 ≤ N) }
    ensures { result
        ≡ compared_of (operands (at_width T.words k) (T.numbers x1.now) l1 (T.numbers x2.now) l2) }
{
    Compared {
        bits: int_res2(k, x1, l1, x2, l2),
        length1: l1,
        length2: l2,
    }
}

// What an explicit call compares, for lengths that are not negative.
pub fn explicit_usize<T: Mode<N>, const N: usize>(
    x1: &[T; N],
    length1: usize,
    x2: &[T; N],
    length2: usize,
    k: Control,
) -> Compared
    ensures { result
        ≡ compared_of
        (operands (at_width T.words k) (T.numbers x1.now) (min N length1) (T.numbers x2.now)
        (min N length2)) }
{
    compared(k, x1, N.min(length1), x2, N.min(length2))
}

// What an implicit call compares.
#[inline(always)]
pub fn implicit<T: Mode<N>, const N: usize>(x1: &[T; N], x2: &[T; N], k: Control) -> Compared
    ensures { result
        ≡ compared_of
        (operands (at_width T.words k) (T.numbers x1.now)
        (least_below N (λ j. eqb (get_or (T.numbers x1.now) j 0) 0))
        (T.numbers x2.now)
        (least_below N (λ j. eqb (get_or (T.numbers x2.now) j 0) 0))) }
{
    let l1 = implicit_length(x1);
    let l2 = implicit_length(x2);
    compared(k, x1, l1, x2, l2)
}

// Where operand 1 first stands in operand 2, or N.
pub fn ordered_index<T: Mode<N>, const N: usize>(
    x1: &[T; N],
    length1: usize,
    x2: &[T; N],
    length2: usize,
) -> u32
    ensures { result
        ≡ least_below N
        (ordered_of N (T.numbers x1.now) (min N length1) (T.numbers x2.now) (min N length2)) }
{
    let l1 = N.min(length1);
    let l2 = N.min(length2);
    let found = T::equal_ordered(x1, l1, x2, l2, bits::first(l2));
    bits::least(found).unwrap_or(N as u32)
}

// Where the operands first differ, or N.
pub fn differ_index<T: Mode<N>, const N: usize>(
    x1: &[T; N],
    length1: usize,
    x2: &[T; N],
    length2: usize,
) -> u32
    ensures { result
        ≡ least_below N
        (λ j. not
        (each_of (T.numbers x1.now) (min N length1) (T.numbers x2.now) (min N length2) j)) }
{
    let found = differ(x1, N.min(length1), x2, N.min(length2));
    bits::least(found).unwrap_or(N as u32)
}
