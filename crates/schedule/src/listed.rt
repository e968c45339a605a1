// The entries of a day, accepted by their count: whether a number stands twice, and the order of
// the day.
ghost use Rattle.std.specs.Prelude.{◌≡◌, ◌≤◌, get_or, length, eqb, map, take};
ghost use Rattle.bits.specs.Bits.{any_below};
ghost use Rattle.entries.specs.Entries.{most_entries};
ghost use Rattle.schedule.specs.Days.{number_twice};
ghost use Rattle.schedule.specs.Places.{number_of, IsGathered, Placed, PutAt, Room};

use crate::Day;
use entries::Entry;

// The entries within the count, which are at most 200.
#[derive(Clone, Copy)]
pub(crate) struct Listed<'a> {
    pub(crate) entries: &'a [Entry],
    ghost within: { length entries.now ≤ most_entries },
}

// A number stands in a list. No early way out: the compiler then takes several at a time
// (docs/PERFORMANCE.md, "Days").
fn stands_in(list: &[u32], number: u32) -> bool
    ensures { result
        ≡ any_below (length list.now) (λ j. eqb (get_or list.now j 0) number) }
{
    let mut found = false;
    for other in list {
        found |= *other == number;
    }
    found
}

// Puts a place into a list of n places, at p; those from p on move up by one.
fn put(places: &mut [u8; entries::MOST_ENTRIES], p: usize, n: usize, place: u8)
    requires { Room places.old p n }
    ensures { PutAt places.old places.new p n place }
{
    places.copy_within(p..n, p + 1);
    places[p] = place;
}

impl Listed<'_> {
    // The entry numbers, and zeros after them. They stand side by side, so that `stands_in`
    // compares several at a time (docs/PERFORMANCE.md, "Days").
    fn numbers(self) -> [u32; entries::MOST_ENTRIES]
        ensures { take (length self.entry.entries.now) result
            ≡ map number_of self.entry.entries.now }
    {
        let mut numbers = [0; entries::MOST_ENTRIES];
        for (i, e) in self.entries.iter().enumerate() {
            numbers[i] = e.number;
        }
        numbers
    }

    // Some entry number stands twice.
    pub(crate) fn number_twice(self) -> bool
        ensures { result
            ≡ number_twice self.entry.entries.now (length self.entry.entries.now) }
    {
        let numbers = self.numbers();
        for i in 0..self.entries.len() {
            if stands_in(&numbers[..i], numbers[i]) {
                return true;
            }
        }
        false
    }

    // Writes the places of the entries, in the order of the day. An entry's place goes in where
    // halving finds that those before it end. It is halved by hand: `partition_point` asks for a
    // test that takes any byte for a place, also one past the entries, so that it is no plainer.
    fn places_of(self, places: &mut [u8; entries::MOST_ENTRIES])
        ensures { Placed self.entry.entries.now places.new (length self.entry.entries.now) }
    {
        for i in 0..self.entries.len() {
            let e = self.entries[i];
            let mut low = 0;
            let mut high = i;
            while low < high {
                let middle = low + (high - low) / 2;
                let x = self.entries[places[middle] as usize];
                if x.precedes(e) {
                    low = middle + 1;
                } else {
                    high = middle;
                }
            }
            put(places, low, i, i as u8);
        }
    }

    // The day of cleared entries. It is filled in place, and holds the places alone, for the stack
    // of a day (docs/PERFORMANCE.md, "Stack").
    pub(crate) fn gathered(self) -> Day
        ensures { IsGathered self.entry.entries.now result }
    {
        let mut places = [0; entries::MOST_ENTRIES];
        self.places_of(&mut places);
        let empty = [Entry::empty(); entries::MOST_ENTRIES];
        let mut day = Day {
            entries: empty,
            count: self.entries.len(),
        };
        for i in 0..self.entries.len() {
            day.entries[i] = self.entries[places[i] as usize];
        }
        day
    }
}
