// The column writer, and what the program `hits` prints.
ghost use Rattle.std.specs.Prelude.{◌≡◌};
ghost use Rattle.report.specs.Report.{refusal_line};
ghost use Rattle.capi.specs.Crossing.{ColumnGiven, ReportGiven};

use crate::{give, status};

// A number in decimal, right-justified in a width, at the front of a buffer.
#[unsafe(no_mangle)]
pub extern "C" fn hx_right_justified(number: u64, width: usize, buffer: &mut [u8]) -> u32
    ensures { ColumnGiven number width buffer.old result buffer.new }
{
    status(decimal::right_justified(number, width, buffer))
}

// The lines that the program `hits` prints for an input, and how many bytes they are.
#[unsafe(no_mangle)]
pub extern "C" fn hx_report(
    input: &[u8],
    page: &mut [u8; report::LONGEST_REPORT],
    written: &mut usize,
) -> u32
    ensures { ReportGiven input.now page.old written.old result
        page.new written.new }
{
    give(report::report(input, page), written)
}

// The line that the program prints for an input that is refused by this number.
#[unsafe(no_mangle)]
pub extern "C" fn hx_refusal_line(number: u32, line: &mut [u8; report::NUMBER_LINE])
    ensures { line.new ≡ refusal_line number }
{
    *line = report::refusal_line(number);
}
