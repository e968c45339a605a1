// What the program `hits` prints, as a function of the bytes that it read: document 01, "The
// program `hits`".
//
// Public calls: `report`, which writes a line for each match and a line of totals, and
// `refusal_line`, the one line that is printed where `report` refuses the input. Neither asks
// anything of its arguments. The needle is the input up to its first line feed, the text all after
// it.
#![tactic(auto)]

ghost use Rattle.std.specs.Prelude.{◌≡◌, ◌==◌, ◌++◌, ◌+◌, ◌≤◌, ◌<◌, length, drop, position};
ghost use Rattle.report.specs.Report.{listing, number_line, refusal_line, Reported, totals_line};
ghost use Rattle.report.specs.Writers.{Found, Listable, Put};

use refusals::Refusal;
use search::{Cursor, Next};

// The most bytes of an input.
pub const LONGEST_INPUT: usize = 65536;

// The longest report: a line of 9 bytes for each of 65,536 matches, and the totals. A page has this
// length, so that it is long enough for every input.
pub const LONGEST_REPORT: usize = 589843;

// The columns of a match and of the totals; and the bytes of a line with one number and of the line
// with the totals, each with its line feed.
const NUMBER_WIDTH: usize = 8;

const COMPARES_WIDTH: usize = 10;

pub const NUMBER_LINE: usize = 9;

const TOTALS_LINE: usize = 19;

// How many matches a list of calls found, and the compares that it took.
#[derive(Clone, Copy)]
struct Tally {
    matches: usize,
    compares: u64,
}

// Where the first line feed stands.
fn feed_at(input: &[u8]) -> Option<usize>
    ensures { result ≡ position (λ byte. byte == 10) input.now }
{
    input.iter().position(|byte| *byte == b'\n')
}

// Writes a number's line at the front of the page.
fn put_number(number: u64, page: &mut [u8])
    requires { (number < 100000000) × (9 ≤ length page.old) }
    ensures { page.new ≡ number_line number ++ drop 9 page.old }
{
    decimal::right_justified(number, NUMBER_WIDTH, page).unwrap();
    page[NUMBER_WIDTH] = b'\n';
}

// Writes the totals at the front of the page.
fn put_totals(matches: u64, compares: u64, page: &mut [u8])
    requires { (matches < 100000000) × (compares < 10000000000) × (19 ≤ length page.old) }
    ensures { page.new
        ≡ totals_line matches compares ++ drop 19 page.old }
{
    decimal::right_justified(matches, NUMBER_WIDTH, page).unwrap();
    decimal::right_justified(compares, COMPARES_WIDTH, &mut page[NUMBER_WIDTH..]).unwrap();
    page[NUMBER_WIDTH + COMPARES_WIDTH] = b'\n';
}

// Finds every match, and writes its line into the page. A text and a needle within their limits are
// never refused.
fn put_matches(text: &[u8], needle: &[u8], page: &mut [u8]) -> Tally
    requires { Listable text.now needle.now page.old }
    ensures { Found text.now needle.now page.old
        page.new result }
{
    let mut matches = 0;
    let mut answer = Cursor::fresh(text.len() as u64).next_match(text, needle);
    'calls: while let Next::Match(position, after) = answer {
        put_number(position, &mut page[matches * NUMBER_LINE..]);
        matches += 1;
        answer = after.next_match(text, needle);
    }
    let (Next::Match(_, last) | Next::Absent(last) | Next::Refused(_, last)) = answer;
    Tally {
        matches,
        compares: last.compares,
    }
}

// Writes the lines for a text and a needle, and answers how many bytes they are.
fn put_listing(text: &[u8], needle: &[u8], page: &mut [u8]) -> usize
    requires { Listable text.now needle.now page.old }
    ensures { Put (listing text.now needle.now) page.old
        page.new result }
{
    let tally = put_matches(text, needle, page);
    let at = tally.matches * NUMBER_LINE;
    put_totals(tally.matches as u64, tally.compares, &mut page[at..]);
    at + TOTALS_LINE
}

// Writes the lines that the program prints for an input at the front of the page, and answers how
// many bytes they are; the rest of the page stays as it was. Refused, the whole page does.
pub fn report(input: &[u8], page: &mut [u8; LONGEST_REPORT]) -> Result<usize, Refusal>
    ensures { Reported input.now page.old page.new result }
{
    if input.len() > LONGEST_INPUT {
        return Err(Refusal::Input);
    }
    let Some(at) = feed_at(input) else {
        return Err(Refusal::Feed);
    };
    if at > search::LONGEST_NEEDLE {
        return Err(Refusal::Needle);
    }
    Ok(put_listing(&input[at + 1..], &input[..at], page))
}

// The line that the program prints for an input that is refused by this number, which C hands on as
// a number. One of more than 8 digits, which no refusal has, leaves its columns blank.
pub fn refusal_line(number: u32) -> [u8; NUMBER_LINE]
    ensures { result ≡ refusal_line number }
{
    let mut line = [b' '; NUMBER_LINE];
    let _ = decimal::right_justified(number as u64, NUMBER_WIDTH, &mut line);
    line[NUMBER_WIDTH] = b'\n';
    line
}
