// The day of a list of entries.
ghost use Rattle.std.specs.Prelude.{◌≡◌, length};
ghost use Rattle.layout.specs.Layout.{entries_of};
ghost use Rattle.schedule.specs.Days.{day_answer};
ghost use Rattle.capi.specs.Crossing.{DayGiven};

use refusals::Refusal;
use schedule::Day;

// Hands a day to the caller.
fn give_day(
    answer: Result<Day, Refusal>,
    day: &mut [[u8; layout::ENTRY_BYTES]; entries::MOST_ENTRIES],
    count: &mut u64,
) -> u32
    ensures { DayGiven answer day.old count.old result day.new
        count.new }
{
    match answer {
        Ok(made) => {
            layout::write_entries(made.entries, day);
            *count = made.count as u64;
            0
        }
        Err(refusal) => u32::from(refusal),
    }
}

// The day of these entries, each in forty bytes. More than 200 are refused before one is read.
#[unsafe(no_mangle)]
pub extern "C" fn hx_day_of_parts(
    entries: &[[u8; layout::ENTRY_BYTES]],
    day: &mut [[u8; layout::ENTRY_BYTES]; entries::MOST_ENTRIES],
    count: &mut u64,
) -> u32
    ensures { DayGiven
        (day_answer (entries_of entries.now) (length entries.now))
        day.old count.old result day.new count.new }
{
    let n = entries.len();
    if n > entries::MOST_ENTRIES {
        return u32::from(Refusal::Count);
    }
    give_day(schedule::day_of(layout::entries_of(entries), n), day, count)
}
