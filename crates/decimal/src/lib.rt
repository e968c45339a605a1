// The column writer: a number in decimal, right-justified with spaces in a width, at the front of
// the caller's buffer.
//
// Public call: `right_justified`. It asks nothing of its arguments.
#![tactic(auto)]

ghost use Rattle.std.specs.Prelude.{◌+◌, ◌-◌, ◌≤◌, ◌<◌, ◌≡◌, ◌++◌, length, take};
ghost use Rattle.decimal.specs.Decimal.{digits, refusal_for, RightJustified};

use refusals::Refusal;

// The widest column.
pub const WIDEST: usize = 20;

// The digits of the largest number, 18446744073709551615.
const MOST_DIGITS: usize = 20;

// How many digits a number has. Powers of ten are compared, so that only the writing divides. At
// the loop's test `power` is 10^count.
fn digit_count(number: u64) -> usize
    ensures { result ≡ length (digits number) }
{
    let mut power: u64 = 1;
    for count in 1..MOST_DIGITS {
        power *= 10;
        if number < power {
            return count;
        }
    }
    MOST_DIGITS
}

// A number of `count` digits is accepted, or refused: input before state.
fn accept(count: usize, width: usize, room: usize) -> Result<(), Refusal>
    requires { 0 < count }
    ensures { result ≡ refusal_for count width room }
{
    // too narrow, as 0 is for every number, or too wide
    if width < count || width > WIDEST {
        return Err(Refusal::Width);
    }
    if room < width {
        return Err(Refusal::Buffer);
    }
    Ok(())
}

// The digit of a number below ten, for `put_digits`.
fn digit(value: u64) -> u8
    requires { value < 10 }
    ensures { result ≡ 48 + value }
{
    b'0' + value as u8
}

// Writes the digits of a number at the end of its places, the last one first, and leaves the places
// before them. It does not ask how many digits there are, so that where the width is a constant the
// count is no more than one comparison. By hand, since of a `write!` into a slice the check learns
// only how much of it is left, and not the bytes.
fn put_digits(number: u64, places: &mut [u8])
    requires { length (digits number) ≤ length places.old }
    ensures { places.new
        ≡ take (length places.old - length (digits number)) places.old ++ digits number }
{
    let mut rest = number;
    for i in (0..places.len()).rev() {
        places[i] = digit(rest % 10);
        rest /= 10;
        if rest == 0 {
            break;
        }
    }
}

// Writes a number, right-justified with spaces, into the first `width` bytes of the buffer; the
// bytes after them stay. Refused, it writes nothing: for number 8 the width is 0 or above 20, or
// the number has more digits; for 24 the buffer is shorter than the width.
pub fn right_justified(number: u64, width: usize, buffer: &mut [u8]) -> Result<(), Refusal>
    ensures { RightJustified number width buffer.old buffer.new result }
{
    let count = digit_count(number);
    let room = buffer.len();
    accept(count, width, room)?;
    // all columns, for speed: where the width is a constant, so is what is filled
    buffer[..width].fill(b' ');
    put_digits(number, &mut buffer[..width]);
    Ok(())
}
