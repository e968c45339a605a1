// The running order of a day's services (document 02 [5]): one list of entries, in whatever order
// it was entered, makes one day.
//
// Public calls: `day_of` makes a day of entries.
#![tactic(auto)]

ghost use Rattle.std.specs.Prelude.{◌≡◌, ◌≤◌};
ghost use Rattle.entries.specs.Entries.{filled, most_entries};
ghost use Rattle.schedule.specs.Days.{cleared_front, day_answer, day_refusal};

use entries::Entry;
use listed::Listed;
use refusals::Refusal;

mod listed;

// A day of document 02, held by value: the first `count` entries are those of the day, in their
// order; the other places are zero. The memory is fixed, as in C: there is no heap.
#[derive(Clone, Copy)]
pub struct Day {
    pub entries: [Entry; entries::MOST_ENTRIES],
    pub count: usize,
}

// Refuses entries one by one, or for a number that stands twice. It takes the array and the count
// as `day_of` has them, since the count may be above 200.
#[tactic(auto, using(crate::proofs::Refused::tests))]
fn accept(entries: &[Entry; entries::MOST_ENTRIES], count: usize) -> Result<(), Refusal>
    ensures { result ≡ day_refusal entries.now count }
{
    entries::accept_form(*entries, count)?;
    let listed = Listed {
        entries: &entries[..count],
    };
    if listed.number_twice() {
        return Err(Refusal::Number);
    }
    Ok(())
}

// Clears the entries within the count, and empties the places after them: so it takes the whole
// array, and the count beside it.
fn clear(entries: &mut [Entry; entries::MOST_ENTRIES], count: usize)
    requires { count ≤ most_entries }
    ensures { entries.new ≡ filled (cleared_front entries.old count) }
{
    for i in 0..count {
        entries[i] = entries[i].cleared();
    }
    entries[count..].fill(Entry::empty());
}

// The day of these entries. README.md promises an array and a count.
#[tactic(auto, using(crate::proofs::Refused::days))]
pub fn day_of(mut entries: [Entry; entries::MOST_ENTRIES], count: usize) -> Result<Day, Refusal>
    ensures { result ≡ day_answer entries count }
{
    accept(&entries, count)?;
    clear(&mut entries, count);
    let cleared = Listed {
        entries: &entries[..count],
    };
    Ok(cleared.gathered())
}
