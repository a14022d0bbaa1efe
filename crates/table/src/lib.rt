// Reading a job text into a table of ranges, settling, reporting and writing over one: thin functions above those on two lists of numbers.
#![tactic(auto)]

ghost use Rattle.std.specs.Prelude.{◌≡◌, ◌≤◌, min, length};
ghost use Rattle.model.specs.Shares.{most_units};
ghost use Rattle.job.specs.Reading.{ReadInto};
ghost use Rattle.report.specs.Calls.{reported, report_text};
ghost use Rattle.works.specs.Calls.{settlement, settle_text};
ghost use Rattle.writer.specs.Calls.{written_text, write_text};
ghost use Rattle.table.specs.Tables.{lows_in, highs_in};
ghost use Rattle.table.specs.Inner.Tables.{bounds_of, over, ranges, after_settling, after_reporting, buffer_after, after_reading, after_writing};

use job::Counts;
use model::{MOST_UNITS, Refusal};
use report::Written;
use works::Unsettled;

// The range of a unit.
#[repr(C)]
#[derive(Clone, Copy)]
pub struct Range {
    pub low: u64,
    pub high: u64,
}

// The lows and the highs of a table's first entries, and how many they are.
#[derive(Clone, Copy)]
struct Bounds {
    lows: [u64; MOST_UNITS],
    highs: [u64; MOST_UNITS],
    count: usize,
}

// The bounds of a table; a job has at most 256 units, so no more entries are looked at.
fn take_bounds(table: &[Range]) -> Bounds
    ensures { result ≡ bounds_of table.now }
{
    let mut lows = [0u64; MOST_UNITS];
    let mut highs = [0u64; MOST_UNITS];
    let count = table.len().min(MOST_UNITS);
    for (i, entry) in table[..count].iter().enumerate() {
        lows[i] = entry.low;
        highs[i] = entry.high;
    }
    Bounds { lows, highs, count }
}

// The table with these bounds; entries past the count keep their values.
// It goes by index: it reads two lists and writes a third.
fn put_bounds(table: &mut [Range], bounds: Bounds)
    requires { bounds.count ≤ min (length table.old) most_units }
    ensures { table.new ≡ over bounds.count (ranges bounds.lows bounds.highs) table.old }
{
    for i in 0..bounds.count {
        table[i] = Range {
            low: bounds.lows[i],
            high: bounds.highs[i],
        };
    }
}

// Settles a job text over bounds: hands back the bounds after it, and its answer.
fn settle_bounds(
    text: &[u8],
    bounds: Bounds,
    scratch: &mut [u64],
) -> (Bounds, Result<u64, Unsettled>)
    requires { bounds.count ≤ most_units }
    ensures { result ≡ after_settling text.now bounds (length scratch.old) }
{
    let mut lows = bounds.lows;
    let mut highs = bounds.highs;
    let count = bounds.count;
    let answer = settling::calls::settle(text, &mut lows[..count], &mut highs[..count], scratch);
    let after = Bounds { lows, highs, count };
    (after, answer)
}

// Settles a job text over a table, as settling::calls::settle does over its lows and highs.
pub fn settle(text: &[u8], table: &mut [Range], scratch: &mut [u64]) -> Result<u64, Unsettled>
    ensures { settlement result (lows_in table.new) (highs_in table.new) ≡ settle_text text.now (lows_in table.old) (highs_in table.old) (length scratch.old) }
{
    let (bounds, answer) = settle_bounds(text, take_bounds(table), scratch);
    put_bounds(table, bounds);
    answer
}

// Settles a job text over bounds and writes the report at the start of the buffer: hands back the bounds after it, and its answer.
fn report_bounds(
    text: &[u8],
    bounds: Bounds,
    scratch: &mut [u64],
    buffer: &mut [u8],
) -> (Bounds, Result<Written, Unsettled>)
    requires { bounds.count ≤ most_units }
    ensures { (result ≡ after_reporting text.now bounds (length scratch.old) buffer.old) × (buffer.new ≡ buffer_after text.now bounds (length scratch.old) buffer.old) }
{
    let mut lows = bounds.lows;
    let mut highs = bounds.highs;
    let count = bounds.count;
    let answer = reporting::calls::report(
        text,
        &mut lows[..count],
        &mut highs[..count],
        scratch,
        buffer,
    );
    let left = Bounds { lows, highs, count };
    (left, answer)
}

// Settles a job text over a table and writes its report, as reporting::calls::report does over its lows and highs.
pub fn report(
    text: &[u8],
    table: &mut [Range],
    scratch: &mut [u64],
    buffer: &mut [u8],
) -> Result<Written, Unsettled>
    ensures { reported result (lows_in table.new) (highs_in table.new) buffer.new ≡ report_text text.now (lows_in table.old) (highs_in table.old) (length scratch.old) buffer.old }
{
    let (bounds, answer) = report_bounds(text, take_bounds(table), scratch, buffer);
    put_bounds(table, bounds);
    answer
}

// Reads a job text into bounds: hands back the bounds after it, and its answer.
fn read_bounds(text: &[u8], bounds: Bounds) -> (Bounds, Result<Counts, Refusal>)
    requires { bounds.count ≤ most_units }
    ensures { result ≡ after_reading text.now bounds }
{
    let mut lows = bounds.lows;
    let mut highs = bounds.highs;
    let count = bounds.count;
    let answer = job::read(text, &mut lows[..count], &mut highs[..count]);
    let after = Bounds { lows, highs, count };
    (after, answer)
}

// Reads a job text into a table, as job::read does into its lows and highs.
pub fn read(text: &[u8], table: &mut [Range]) -> Result<Counts, Refusal>
    ensures { ReadInto text.now (lows_in table.old) (highs_in table.old) (lows_in table.new) (highs_in table.new) result }
{
    let (bounds, answer) = read_bounds(text, take_bounds(table));
    put_bounds(table, bounds);
    answer
}

// Writes a job with bounds as a job text at the start of the buffer.
fn write_bounds(text: &[u8], bounds: Bounds, buffer: &mut [u8]) -> Result<usize, Refusal>
    requires { bounds.count ≤ most_units }
    ensures { written_text result buffer.new ≡ after_writing text.now bounds buffer.old }
{
    let count = bounds.count;
    writer::calls::write(text, &bounds.lows[..count], &bounds.highs[..count], buffer)
}

// Writes a job with a table as a job text, as writer::calls::write does with its lows and highs; the table is only read.
pub fn write(text: &[u8], table: &[Range], buffer: &mut [u8]) -> Result<usize, Refusal>
    ensures { written_text result buffer.new ≡ write_text text.now (lows_in table.now) (highs_in table.now) buffer.old }
{
    write_bounds(text, take_bounds(table), buffer)
}
