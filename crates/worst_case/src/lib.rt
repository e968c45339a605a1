// The slowest search, made to order (document 02 [7]): for a text of n and a needle of m elements,
// the two on which a search takes the most compares that there can be.
//
// Public call, for bytes and for words: `worst_case`, given the sizes and two lent buffers, writes
// the text and the needle, or tells what refuses them.
#![tactic(auto)]

ghost use Rattle.std.specs.Prelude.{◌≡◌, ◌<◌, ℕ, length};
ghost use Rattle.worst_case.specs.Cases.{WorstCase, case_refusal, worst};

use blocks::Letter;
use refusals::Refusal;

// An element that can be made from a byte, with the byte's number. A copy of it is a clone.
pub trait Writable: Letter + From<u8> {
    ghost same: { (byte : ℕ) (x : Self) → Self.from_gives byte x → Self.number x ≡ byte };

    ghost copied: { (x : Self) → Self.is_infallible x × ((y : Self) → Self.is_clone x y → y ≡ x) };
}

impl Writable for u8 {
    ghost same = { λ byte x h. h };

    ghost copied = { λ x. (tt, λ y h. h) };
}

impl Writable for u16 {
    ghost same = { λ byte x h. h };

    ghost copied = { λ x. (tt, λ y h. h) };
}

// What refuses a text of n and a needle of m elements, for buffers of t and l. The sizes are tested
// first.
fn accept<T: Letter>(n: usize, m: usize, t: usize, l: usize) -> Result<(), Refusal>
    ensures { result ≡ case_refusal T.words n m t l }
{
    if m < T::COUNT || n < m || n > blocks::LONGEST_TEXT || m > search::LONGEST_NEEDLE {
        return Err(Refusal::Sizes);
    }
    if t != n || l != m {
        return Err(Refusal::Lengths);
    }
    Ok(())
}

// Writes `A` to each place of a list but the last, and `B` there.
fn write_list<T: Writable>(list: &mut [T])
    requires { 0 < length list.old }
    ensures { T.numbers list.new ≡ worst (length list.old) }
{
    list.fill(T::from(b'A'));
    let last = list.len() - 1;
    list[last] = T::from(b'B');
}

// Writes the text of n elements and the needle of m on which a search takes the most compares.
// Refused, it writes nothing.
pub fn worst_case<T: Writable>(
    n: usize,
    m: usize,
    text: &mut [T],
    needle: &mut [T],
) -> Result<(), Refusal>
    ensures { WorstCase T.words n m (T.numbers text.old) (T.numbers needle.old)
        (T.numbers text.new) (T.numbers needle.new) result }
{
    accept::<T>(n, m, text.len(), needle.len())?;
    write_list(text);
    write_list(needle);
    Ok(())
}
