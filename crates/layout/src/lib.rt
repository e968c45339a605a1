// Entries and days as C has them in memory: an entry is forty bytes, its number in four, its minute
// in two, its name's length in two, each low byte first, and the name in thirty-two.
//
// Public calls: `entries_of` reads entries, `write_entries` writes those of a day.
#![tactic(auto)]

ghost use Rattle.std.specs.Prelude.{◌≡◌, map};
ghost use Rattle.layout.specs.Layout.{entries_of, entry_of, row_of};

use entries::Entry;

// The bytes of an entry.
pub const ENTRY_BYTES: usize = 40;

// The entry of forty bytes. Neither type is of this crate, so it can't be a `From` (Rust's orphan
// rule), and in `entries` C's layout would stand where there is no C.
fn entry_of(bytes: [u8; ENTRY_BYTES]) -> Entry
    ensures { result ≡ entry_of bytes }
{
    let [n0, n1, n2, n3, m0, m1, l0, l1, ..] = bytes;
    let mut name = [0; entries::LONGEST_NAME];
    name.copy_from_slice(&bytes[8..]);
    Entry {
        number: u32::from_le_bytes([n0, n1, n2, n3]),
        minute: u16::from_le_bytes([m0, m1]),
        length: u16::from_le_bytes([l0, l1]),
        name,
    }
}

// The first 200 entries, and empty ones after them.
pub fn entries_of(rows: &[[u8; ENTRY_BYTES]]) -> [Entry; entries::MOST_ENTRIES]
    ensures { result ≡ entries_of rows.now }
{
    let mut out = [Entry::empty(); entries::MOST_ENTRIES];
    for i in 0..rows.len().min(entries::MOST_ENTRIES) {
        out[i] = entry_of(rows[i]);
    }
    out
}

// The forty bytes of an entry, for the same reason no `From`.
fn row_of(e: Entry) -> [u8; ENTRY_BYTES]
    ensures { result ≡ row_of e }
{
    let mut bytes = [0; ENTRY_BYTES];
    bytes[..4].copy_from_slice(&e.number.to_le_bytes());
    bytes[4..6].copy_from_slice(&e.minute.to_le_bytes());
    bytes[6..8].copy_from_slice(&e.length.to_le_bytes());
    bytes[8..].copy_from_slice(&e.name);
    bytes
}

// Writes entries over rows of forty bytes.
pub fn write_entries(
    entries: [Entry; entries::MOST_ENTRIES],
    rows: &mut [[u8; ENTRY_BYTES]; entries::MOST_ENTRIES],
)
    ensures { rows.new ≡ map row_of entries }
{
    for i in 0..entries::MOST_ENTRIES {
        rows[i] = row_of(entries[i]);
    }
}
