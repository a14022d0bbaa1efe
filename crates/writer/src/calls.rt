// Writing the job of a text with the ranges of a table.
ghost use Rattle.std.specs.Prelude.{◌≤◌, ◌++◌, ◌≡◌, length, drop};
ghost use Rattle.groups.specs.Inner.Flat.{groups_in, marks_in, Holds};
ghost use Rattle.job.specs.Sound.{SoundJob};
ghost use Rattle.writer.specs.Calls.{written_text, write_job, write_over, write_text};
ghost use Rattle.writer.specs.Inner.Asked.{job_held, HeldGroups};
ghost use Rattle.job_lines.specs.Texts.{job_text, most_written};

use groups::{MARKS, flat_room};
use job::scan_groups;
use job_lines::{put_member_lines, put_range_lines};
use model::Refusal;
use print::Page;
use works::checks::check_table;

// The most bytes of a job's text: 256 unit lines of 23, 64 group lines of 91 and 4,096 members of 4.
pub const MOST_WRITTEN: usize = 28_096;

// Writes a job's text at the start of a buffer that holds every job's, and hands back its length.
fn put_job(buffer: &mut [u8], flat: &[u64], groups: u64, lows: &[u64], highs: &[u64]) -> usize
    requires holds { Holds groups flat.now }
    requires sound_job { SoundJob (job_held flat.now groups lows.now highs.now) }
    requires most_written_in_bounds { most_written ≤ length buffer.old }
    ensures value { result ≡ length (job_text (job_held flat.now groups lows.now highs.now)) }
    ensures buffer_after { buffer.new ≡ job_text (job_held flat.now groups lows.now highs.now) ++ drop result buffer.old }
{
    let end = MARKS + lows.len();
    let mut page = Page {
        bytes: buffer,
        at: 0,
    };
    put_range_lines(&mut page, &flat[MARKS..end], lows, highs);
    put_member_lines(&mut page, flat, groups);
    page.at
}

// Writes a job's text at the start of a buffer where it fits, by way of a page that holds every job's.
fn write_by(
    page: &mut [u8],
    flat: &[u64],
    groups: u64,
    lows: &[u64],
    highs: &[u64],
    buffer: &mut [u8],
) -> Result<usize, Refusal>
    requires holds { Holds groups flat.now }
    requires sound_job { SoundJob (job_held flat.now groups lows.now highs.now) }
    requires most_written_in_bounds { most_written ≤ length page.old }
    ensures { written_text result buffer.new ≡ write_job (job_held flat.now groups lows.now highs.now) buffer.old }
{
    let length = put_job(page, flat, groups, lows, highs);
    if buffer.len() < length {
        return Err(Refusal {
            number: 1,
            place: 0,
        });
    }
    buffer[..length].copy_from_slice(&page[..length]);
    Ok(length)
}

// Writes a job's text at the start of a buffer where it fits.
fn write_job(
    flat: &[u64],
    groups: u64,
    lows: &[u64],
    highs: &[u64],
    buffer: &mut [u8],
) -> Result<usize, Refusal>
    requires holds { Holds groups flat.now }
    requires sound_job { SoundJob (job_held flat.now groups lows.now highs.now) }
    ensures { written_text result buffer.new ≡ write_job (job_held flat.now groups lows.now highs.now) buffer.old }
{
    let mut page = [0u8; MOST_WRITTEN];
    write_by(&mut page, flat, groups, lows, highs, buffer)
}

// Writes the groups of a flat list over the first units of a table, whose ranges are checked first.
fn write_over(
    flat: &[u64],
    groups: u64,
    units: usize,
    lows: &[u64],
    highs: &[u64],
    buffer: &mut [u8],
) -> Result<usize, Refusal>
    requires { HeldGroups flat.now groups units }
    ensures { written_text result buffer.new ≡ write_over (marks_in units flat.now) (groups_in groups flat.now) units lows.now highs.now buffer.old }
{
    let end = MARKS + units;
    check_table(&flat[MARKS..end], units, lows, highs, 8 * units)?;
    write_job(flat, groups, &lows[..units], &highs[..units], buffer)
}

// Writes the job of a text with the ranges of a table, as a job text at the start of the buffer: answers its length, or a refusal.
pub fn write(text: &[u8], lows: &[u64], highs: &[u64], buffer: &mut [u8]) -> Result<usize, Refusal>
    ensures { written_text result buffer.new ≡ write_text text.now lows.now highs.now buffer.old }
{
    let mut flat = flat_room();
    let counts = scan_groups(text, &mut flat)?;
    write_over(
        &flat,
        counts.groups as u64,
        counts.units,
        lows,
        highs,
        buffer,
    )
}
