// What a settling answers, written into a buffer: the report of its table, or nothing; and what the program prints of that.
ghost use Rattle.std.specs.Prelude.{◌≤◌, ◌++◌, ◌≡◌, length, drop};
ghost use Rattle.groups.specs.Inner.Flat.{groups_in, marks_in};
ghost use Rattle.form.specs.Form.{most_bytes};
ghost use Rattle.report.specs.Calls.{reported, report_by};
ghost use Rattle.report.specs.Reportable.{Reportable};
ghost use Rattle.report.specs.Inner.Asked.{Answerable, HoldsJob};
ghost use Rattle.report.specs.Inner.Printed.{size_printed, buffer_printed};
ghost use Rattle.report.specs.Reports.{report_of};
ghost use Rattle.member_ranges.specs.Tables.{table_of};

use crate::Written;
use crate::group_lines::put_group_lines;
use crate::lines::{put_settled_line, put_unit_lines, refusal_line};
use job::Counts;
use print::Page;
use works::Unsettled;

// Writes the report of a settled table at the start of a buffer, and hands back its length.
fn put_report(
    buffer: &mut [u8],
    passes: u64,
    flat: &[u64],
    groups: u64,
    lows: &[u64],
    highs: &[u64],
) -> usize
    requires reportable { Reportable (marks_in (length lows.now) flat.now) (groups_in groups flat.now) (table_of lows.now highs.now) passes }
    requires holds_job { HoldsJob flat.now groups (length lows.now) }
    requires most_bytes_in_bounds { most_bytes ≤ length buffer.old }
    ensures value { result ≡ length (report_of (marks_in (length lows.now) flat.now) (groups_in groups flat.now) (table_of lows.now highs.now) passes) }
    ensures buffer_after { buffer.new ≡ report_of (marks_in (length lows.now) flat.now) (groups_in groups flat.now) (table_of lows.now highs.now) passes ++ drop result buffer.old }
{
    let mut page = Page {
        bytes: buffer,
        at: 0,
    };
    put_settled_line(&mut page, passes);
    put_unit_lines(&mut page, lows, highs);
    put_group_lines(&mut page, flat, groups, lows, highs);
    page.at
}

// Writes the report of a settling over the first units of a table, and answers; on a refusal the buffer keeps its bytes.
pub fn put_answer(
    buffer: &mut [u8],
    answer: Result<u64, Unsettled>,
    flat: &[u64],
    counts: Counts,
    lows: &[u64],
    highs: &[u64],
) -> Result<Written, Unsettled>
    requires answerable { Answerable (marks_in counts.units flat.now) (groups_in counts.groups flat.now) counts.units answer lows.now highs.now }
    requires holds_job { HoldsJob flat.now counts.groups counts.units }
    requires most_bytes_in_bounds { most_bytes ≤ length buffer.old }
    ensures { reported result lows.now highs.now buffer.new ≡ report_by (marks_in counts.units flat.now) (groups_in counts.groups flat.now) counts.units answer lows.now highs.now buffer.old }
{
    let passes = answer?;
    let units = counts.units;
    let length = put_report(
        buffer,
        passes,
        flat,
        counts.groups as u64,
        &lows[..units],
        &highs[..units],
    );
    Ok(Written { length, passes })
}

// Writes the line of a refusal at the start of a buffer that no report was written in, and hands back the length of what is printed.
pub fn print_answer(answer: Result<Written, Unsettled>, buffer: &mut [u8]) -> usize
    requires { 64 ≤ length buffer.old }
    ensures value { result ≡ size_printed answer }
    ensures buffer_after { buffer.new ≡ buffer_printed answer buffer.old }
{
    match answer {
        Ok(written) => written.length,
        Err(Unsettled::NoPlan { number, place, .. }) => refusal_line(number, place, buffer),
        Err(Unsettled::Refused(refusal)) => refusal_line(refusal.number, refusal.place, buffer),
    }
}
