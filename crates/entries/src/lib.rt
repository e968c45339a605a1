// An entry of a day's schedule (document 02 [5]): its limits, what refuses it, its name cleared
// past the length, and which of two entries comes first.
//
// Public calls: `Entry::empty`; `is_bad`, `cleared` and `precedes`, by value on an entry;
// `accept_form`, which tests entries one by one.
#![tactic(auto)]

ghost use Rattle.std.specs.Prelude.{◌≡◌, ◌≤◌, cond, length, ltb};
ghost use Rattle.std.specs.List.{list_any};
ghost use Rattle.unit.specs.Operand.{in_bytes};
ghost use Rattle.orders.specs.Orders.{order, ordering_of};
ghost use Rattle.entries.specs.Entries.{bad_entry, cleared_entry, cleared_name, empty_entry, form_refusal, longest_name, name_of, precedes, unsigned};

use refusals::Refusal;
use std::cmp::Ordering;

// The most entries of a day, the last minute of a day, and the most bytes of a name.
pub const MOST_ENTRIES: usize = 200;

pub const LAST_MINUTE: u16 = 1439;

pub const LONGEST_NAME: usize = 32;

// An entry of document 02, a service: its entry number, a minute of the day, and a name, which is
// the first `length` bytes of `name`: fixed memory, as C has it, since there is no heap. The fields
// can hold what is refused.
#[derive(Clone, Copy)]
pub struct Entry {
    pub number: u32,
    pub minute: u16,
    pub length: u16,
    pub name: [u8; LONGEST_NAME],
}

// A byte that stands at a place below the length, else zero.
fn kept(byte: u8, at: usize, length: usize) -> u8
    ensures { result ≡ cond (ltb at length) byte 0 }
{
    if at < length { byte } else { 0 }
}

// A name with zeros past its length, which may be above 32. A loop and no `copy_from_slice`: a copy
// of varying length is a call, and a day takes longer (docs/PERFORMANCE.md, "Days").
fn cleared_name(name: [u8; LONGEST_NAME], length: usize) -> [u8; LONGEST_NAME]
    ensures { result ≡ cleared_name name length }
{
    let mut cleared = [0u8; LONGEST_NAME];
    for i in 0..LONGEST_NAME {
        cleared[i] = kept(name[i], i, length);
    }
    cleared
}

impl Entry {
    // An entry of zeros.
    #[tactic(auto, unfolding(crate::specs::Entries::empty_entry))]
    pub fn empty() -> Entry
        ensures { result ≡ empty_entry }
    {
        Entry {
            number: 0,
            minute: 0,
            length: 0,
            name: [0; LONGEST_NAME],
        }
    }

    // No day has its minute, or its name is too long.
    #[tactic(auto, unfolding(crate::specs::Entries::bad_entry))]
    pub fn is_bad(self) -> bool
        ensures { result ≡ bad_entry self }
    {
        self.minute > LAST_MINUTE || self.length as usize > LONGEST_NAME
    }

    // The entry with its name bytes past the length zero. The hint is for the stack of a day:
    // inlined, one more array of entries is kept (docs/PERFORMANCE.md, "Stack").
    #[inline(never)]
    #[tactic(auto, unfolding(crate::specs::Entries::cleared_entry))]
    pub fn cleared(self) -> Entry
        ensures { result ≡ cleared_entry self }
    {
        let name = cleared_name(self.name, self.length as usize);
        Entry { name, ..self }
    }

    // The bytes of the name within its length.
    #[tactic(auto, unfolding(crate::specs::Entries::name_of))]
    fn name(&self) -> &[u8]
        ensures { (result.now ≡ name_of self.now) × (length result.now ≤ longest_name) }
    {
        let n = (self.length as usize).min(LONGEST_NAME);
        &self.name[..n]
    }

    // The order of the names of two entries.
    fn name_order(&self, other: &Entry) -> Ordering
        ensures { result
            ≡ ordering_of (order in_bytes unsigned (name_of self.now) (name_of other.now)) }
    {
        orders::compare(self.name(), other.name(), false).unwrap()
    }

    // This entry comes before another (document 02: sorted by minute, then name by the unsigned
    // order, then entry number).
    pub fn precedes(self, other: Entry) -> bool
        ensures { result ≡ precedes self other }
    {
        self.minute
            .cmp(&other.minute)
            .then_with(|| self.name_order(&other))
            .then_with(|| self.number.cmp(&other.number))
            .is_lt()
    }
}

// Some entry is bad.
fn some_bad(entries: &[Entry]) -> bool
    ensures { result ≡ list_any bad_entry entries.now }
{
    entries.iter().any(|e| e.is_bad())
}

// Refuses entries by their count or one by one. Entries past the count are not looked at. It takes
// the count beside the array, and no slice, since it refuses a count above 200 before it looks at
// an entry.
#[tactic(auto, using(crate::proofs::Tests::form_by_list))]
pub fn accept_form(entries: [Entry; MOST_ENTRIES], count: usize) -> Result<(), Refusal>
    ensures { result ≡ form_refusal entries count }
{
    if count > MOST_ENTRIES {
        return Err(Refusal::Count);
    }
    if some_bad(&entries[..count]) {
        return Err(Refusal::Entry);
    }
    Ok(())
}
