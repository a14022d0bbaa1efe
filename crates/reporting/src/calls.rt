// Settling a job text over a table and reporting what it leaves.
ghost use Rattle.std.specs.Prelude.{◌≤◌, ◌≡◌, length};
ghost use Rattle.groups.specs.Inner.Flat.{most_flat, groups_in, marks_in};
ghost use Rattle.form.specs.Form.{most_bytes};
ghost use Rattle.report.specs.Calls.{reported, report_settled, report_text};
ghost use Rattle.report.specs.Inner.Asked.{WithinLimits};
ghost use Rattle.works.specs.Calls.{settle_job};
ghost use Rattle.works.specs.Inner.Asked.{Prepared};

use groups::MOST_FLAT;
use job::{Counts, MOST_BYTES, scan_groups};
use model::Refusal;
use report::Written;
use report::answers::put_answer;
use settling::calls::settle_job;
use works::Unsettled;

// Settles the groups of a flat list over the first units of a table, and reports the answer.
fn report_job(
    flat: &[u64],
    counts: Counts,
    lows: &mut [u64],
    highs: &mut [u64],
    scratch: &mut [u64],
    buffer: &mut [u8],
) -> Result<Written, Unsettled>
    requires prepared { Prepared flat.now counts.groups counts.units }
    requires within_limits { WithinLimits flat.now counts.groups counts.units }
    requires most_bytes_in_bounds { most_bytes ≤ length buffer.old }
    ensures { reported result lows.new highs.new buffer.new ≡ report_settled (marks_in counts.units flat.now) (groups_in counts.groups flat.now) counts.units (settle_job (marks_in counts.units flat.now) (groups_in counts.groups flat.now) counts.units lows.old highs.old (length scratch.old)) buffer.old }
{
    let answer = settle_job(
        flat,
        counts.groups as u64,
        counts.units,
        lows,
        highs,
        scratch,
    );
    put_answer(buffer, answer, flat, counts, lows, highs)
}

// Reports a job text into a buffer that holds every report, by way of a list that holds the groups of every job.
fn report_by(
    text: &[u8],
    lows: &mut [u64],
    highs: &mut [u64],
    scratch: &mut [u64],
    buffer: &mut [u8],
    flat: &mut [u64],
) -> Result<Written, Unsettled>
    requires most_flat_in_bounds { most_flat ≤ length flat.old }
    requires most_bytes_in_bounds { most_bytes ≤ length buffer.old }
    ensures { reported result lows.new highs.new buffer.new ≡ report_text text.now lows.old highs.old (length scratch.old) buffer.old }
{
    let counts = scan_groups(text, flat)?;
    report_job(flat, counts, lows, highs, scratch, buffer)
}

// Settles a job text over a table and writes the report at the start of the buffer: answers its length and the passes, or a refusal.
pub fn report(
    text: &[u8],
    lows: &mut [u64],
    highs: &mut [u64],
    scratch: &mut [u64],
    buffer: &mut [u8],
) -> Result<Written, Unsettled>
    ensures { reported result lows.new highs.new buffer.new ≡ report_text text.now lows.old highs.old (length scratch.old) buffer.old }
{
    if buffer.len() < MOST_BYTES {
        return Err(Unsettled::Refused(Refusal {
            number: 1,
            place: 0,
        }));
    }
    let mut flat = [0u64; MOST_FLAT];
    report_by(text, lows, highs, scratch, buffer, &mut flat)
}
