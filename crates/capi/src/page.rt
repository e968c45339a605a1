// The wall page of a list of entries.
ghost use Rattle.std.specs.Prelude.{length};
ghost use Rattle.layout.specs.Layout.{entries_of};
ghost use Rattle.capi.specs.Crossing.{PageGiven};

use crate::status;
use refusals::Refusal;

// The wall page of these entries, each in forty bytes. More than 200 are refused before one is
// read.
#[unsafe(no_mangle)]
pub extern "C" fn hx_day_page(entries: &[[u8; layout::ENTRY_BYTES]], page: &mut [u8]) -> u32
    ensures { PageGiven (entries_of entries.now) (length entries.now)
        page.old result page.new }
{
    let n = entries.len();
    if n > entries::MOST_ENTRIES {
        return u32::from(Refusal::Count);
    }
    status(wall_page::day_page(layout::entries_of(entries), n, page))
}
