// The chapel's wall page (document 02 [6]): a line of 50 bytes for each entry, so that the columns
// line up whatever the names hold.
//
// Public call: `day_page` writes the lines of some entries at the front of a lent page.
#![tactic(auto)]

ghost use Rattle.std.specs.Prelude.{◌≡◌, cond, ◌++◌, ltb, take, drop};
ghost use Rattle.entries.specs.Entries.{longest_name};
ghost use Rattle.wall_page.specs.Pages.{name_column, printed_byte, time_of, DayPage};
ghost use Rattle.wall_page.specs.Writers.{HasLine, HasLines, NameFits, Printable, Room, TimeFits};

use entries::Entry;
use refusals::Refusal;

// The bytes of a line: the number's columns, the time, the name's columns, a space after each of
// the first two, and a line feed.
pub const DAY_LINE: usize = 50;

// The columns of a number, which has at most ten digits; where the time begins; where the name
// begins, and where it ends.
const NUMBER_WIDTH: usize = 10;

const TIME_AT: usize = 11;

const TIME_END: usize = 16;

const NAME_AT: usize = 17;

const NAME_END: usize = 49;

// A name byte as it is printed: `?` for one that has no sign of its own.
#[tactic(auto, unfolding(crate::specs::Pages::printed_byte))]
fn printed_byte(byte: u8) -> u8
    ensures { result ≡ printed_byte byte }
{
    if byte < 32 || byte > 126 { b'?' } else { byte }
}

// The byte in a column of the name: a space past the length.
fn name_byte(byte: u8, at: usize, length: usize) -> u8
    ensures { result ≡ cond (ltb at length) (printed_byte byte) 32 }
{
    if at < length {
        printed_byte(byte)
    } else {
        b' '
    }
}

// Writes a minute of the day as hours and minutes, of two digits each, at the front of the page.
// By hand, since of a `write!` into a slice the check learns only how much of it is left, and not
// the bytes.
fn put_time(minute: u16, page: &mut [u8])
    requires { TimeFits minute page.old }
    ensures { page.new ≡ time_of minute ++ drop 5 page.old }
{
    let hours = minute / 60;
    let minutes = minute % 60;
    page[0] = b'0' + (hours / 10) as u8;
    page[1] = b'0' + (hours % 10) as u8;
    page[2] = b':';
    page[3] = b'0' + (minutes / 10) as u8;
    page[4] = b'0' + (minutes % 10) as u8;
}

// Writes a name in its columns, with spaces after it, at the front of the page. It takes all bytes
// and the length, and no slice, for one loop of 32 turns whatever the length (docs/PERFORMANCE.md,
// "Pages").
fn put_name(name: [u8; entries::LONGEST_NAME], size: usize, page: &mut [u8])
    requires { NameFits size page.old }
    ensures { page.new
        ≡ name_column (take size name) ++ drop longest_name page.old }
{
    for i in 0..entries::LONGEST_NAME {
        page[i] = name_byte(name[i], i, size);
    }
}

// Writes the line of an entry at the front of the page.
fn put_line(e: Entry, page: &mut [u8])
    requires { Printable e page.old }
    ensures { HasLine e page.old page.new }
{
    decimal::right_justified(e.number as u64, NUMBER_WIDTH, page).unwrap();
    page[NUMBER_WIDTH] = b' ';
    put_time(e.minute, &mut page[TIME_AT..]);
    page[TIME_END] = b' ';
    put_name(e.name, e.length as usize, &mut page[NAME_AT..]);
    page[NAME_END] = b'\n';
}

// Writes the lines of some entries, each at its own byte of the page.
fn put_lines(entries: &[Entry], page: &mut [u8])
    requires { Room entries.now page.old }
    ensures { HasLines entries.now page.old page.new }
{
    for (r, e) in entries.iter().enumerate() {
        put_line(*e, &mut page[DAY_LINE * r..]);
    }
}

// Writes a line for each of the first `count` entries, in the order in which they stand, at the
// front of the page; the bytes after the last line stay. Refused, it writes nothing. Entries past
// the count are not looked at. README.md promises an array and a count.
#[tactic(auto, using(crate::proofs::Refused::bounds))]
pub fn day_page(
    entries: [Entry; entries::MOST_ENTRIES],
    count: usize,
    page: &mut [u8],
) -> Result<(), Refusal>
    ensures { DayPage entries count page.old page.new result }
{
    entries::accept_form(entries, count)?;
    if page.len() < DAY_LINE * count {
        return Err(Refusal::Page);
    }
    put_lines(&entries[..count], page);
    Ok(())
}
