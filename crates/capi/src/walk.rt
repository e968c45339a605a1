// The cursor, next match and the fill.
ghost use Rattle.std.specs.Prelude.{◌≡◌, length};
ghost use Rattle.unit.specs.Operand.{in_bytes, in_words};
ghost use Rattle.search.specs.Cursors.{fresh_cursor, next_match};
ghost use Rattle.search.specs.Fills.{fill};
ghost use Rattle.capi.specs.Crossing.{cursor_of, FilledGiven, FillGiven, NextGiven, numbers_of};

use search::{Cursor, End, Filled, Next};

// What a search returns where there is no more match, and where a fill's list is full. They are
// above every refusal's number.
const ABSENT: u32 = 256;

const FULL: u32 = 257;

// The cursor that four numbers stand for. Neither type is of this crate, so it can't be a `From`
// (Rust's orphan rule), and in `search` C's numbers would stand where there is no C.
fn cursor_of(numbers: [u64; 4]) -> Cursor
    ensures { result ≡ cursor_of numbers }
{
    Cursor {
        position: numbers[0],
        compares: numbers[1],
        exhausted: numbers[2] != 0,
        stop: numbers[3],
    }
}

// A cursor as four numbers, for the same reason no `From`.
fn numbers_of(cursor: Cursor) -> [u64; 4]
    ensures { result ≡ numbers_of cursor }
{
    [
        cursor.position,
        cursor.compares,
        cursor.exhausted as u64,
        cursor.stop,
    ]
}

// Hands the answer of next match to the caller: the position first, for speed
// (docs/PERFORMANCE.md).
fn give_next(next: Next, cursor: &mut [u64; 4], position: &mut u64) -> u32
    ensures { NextGiven next cursor.old position.old result
        cursor.new position.new }
{
    match next {
        Next::Match(p, after) => {
            *position = p;
            *cursor = numbers_of(after);
            0
        }
        Next::Absent(after) => {
            *cursor = numbers_of(after);
            ABSENT
        }
        Next::Refused(refusal, _) => u32::from(refusal),
    }
}

// Hands the answer of a fill to the caller. A number before the first position is a refusal.
fn give_filled(filled: Filled, cursor: &mut [u64; 4], count: &mut usize) -> u32
    ensures { FilledGiven filled cursor.old count.old result
        cursor.new count.new }
{
    match filled.end {
        End::Full => {
            *cursor = numbers_of(filled.cursor);
            *count = filled.count;
            FULL
        }
        End::Absent => {
            *cursor = numbers_of(filled.cursor);
            *count = filled.count;
            ABSENT
        }
        End::Stopped(refusal) => {
            if filled.count > 0 {
                *cursor = numbers_of(filled.cursor);
                *count = filled.count;
            }
            u32::from(refusal)
        }
    }
}

// The cursor of a first call.
#[unsafe(no_mangle)]
pub extern "C" fn hx_cursor_fresh(cursor: &mut [u64; 4], stop: u64)
    ensures { cursor.new ≡ numbers_of (fresh_cursor stop) }
{
    *cursor = numbers_of(Cursor::fresh(stop));
}

// Next match and the fill are exported in bytes and in words, since C has no generics: each width
// has a name of its own.

// The next match of a needle of bytes.
#[unsafe(no_mangle)]
pub extern "C" fn hx_next_in_bytes(
    cursor: &mut [u64; 4],
    text: &[u8],
    needle: &[u8],
    position: &mut u64,
) -> u32
    ensures { NextGiven
        (next_match in_bytes text.now needle.now
        (cursor_of cursor.old))
        cursor.old position.old result cursor.new
        position.new }
{
    let next = cursor_of(*cursor).next_match::<u8>(text, needle);
    give_next(next, cursor, position)
}

// The next match of a needle of words.
#[unsafe(no_mangle)]
pub extern "C" fn hx_next_in_words(
    cursor: &mut [u64; 4],
    text: &[u16],
    needle: &[u16],
    position: &mut u64,
) -> u32
    ensures { NextGiven
        (next_match in_words text.now needle.now
        (cursor_of cursor.old))
        cursor.old position.old result cursor.new
        position.new }
{
    let next = cursor_of(*cursor).next_match::<u16>(text, needle);
    give_next(next, cursor, position)
}

// The next matches of a needle of bytes, as many as the list has places for.
#[unsafe(no_mangle)]
pub extern "C" fn hx_fill_in_bytes(
    cursor: &mut [u64; 4],
    text: &[u8],
    needle: &[u8],
    positions: &mut [u64],
    count: &mut usize,
) -> u32
    ensures { FillGiven
        (fill in_bytes text.now needle.now (length positions.old)
        (cursor_of cursor.old))
        cursor.old positions.old count.old result
        cursor.new positions.new count.new }
{
    let filled = cursor_of(*cursor).fill::<u8>(text, needle, positions);
    give_filled(filled, cursor, count)
}

// The next matches of a needle of words, as many as the list has places for.
#[unsafe(no_mangle)]
pub extern "C" fn hx_fill_in_words(
    cursor: &mut [u64; 4],
    text: &[u16],
    needle: &[u16],
    positions: &mut [u64],
    count: &mut usize,
) -> u32
    ensures { FillGiven
        (fill in_words text.now needle.now (length positions.old)
        (cursor_of cursor.old))
        cursor.old positions.old count.old result
        cursor.new positions.new count.new }
{
    let filled = cursor_of(*cursor).fill::<u16>(text, needle, positions);
    give_filled(filled, cursor, count)
}
