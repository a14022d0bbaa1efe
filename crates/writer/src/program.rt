// What the program hand_on writes of a job text: the settled job as a job text, or one line for a refusal. MOST_BYTES, the room that it
// reserves for that, is handed on to it.
ghost use Rattle.std.specs.Prelude.{Ok, ◌++◌, ◌≡◌, ◌≤◌, length, drop};
ghost use Rattle.form.specs.Form.{most_bytes};
ghost use Rattle.report.specs.Inner.Printed.{JobRoom, Opened};
ghost use Rattle.writer.specs.Calls.{written_text, write_text};
ghost use Rattle.writer.specs.Handing.{handed_on};
ghost use Rattle.writer.specs.Inner.Asked.{LetThrough, SettledFrom};

use crate::calls::write;
pub use job::MOST_BYTES;
use job::read;
use model::MOST_UNITS;
use report::lines::refusal_line;
use settling::calls::settle;
use works::Unsettled;

// Hands on what settling a job leaves: the job with the settled ranges, or the line of the refusal. Hands back the length of what is written.
fn hand_answer(
    text: &[u8],
    answer: Result<u64, Unsettled>,
    lows: &[u64],
    highs: &[u64],
    buffer: &mut [u8],
) -> usize
    requires settled_from { SettledFrom text.now answer lows.now highs.now }
    requires most_bytes_in_bounds { most_bytes ≤ length buffer.old }
    ensures value { result ≡ length (handed_on text.now) }
    ensures buffer_after { buffer.new ≡ handed_on text.now ++ drop result buffer.old }
{
    match answer {
        // What settling left passes the checks, and the text fits.
        Ok(_) => write(text, lows, highs, buffer).unwrap(),
        Err(Unsettled::NoPlan { number, place, .. }) => refusal_line(number, place, buffer),
        // Does not come: the ranges of the unit lines pass the checks.
        Err(Unsettled::Refused(refusal)) => refusal_line(refusal.number, refusal.place, buffer),
    }
}

// Settles a job over the table that its unit lines have filled, and hands it on.
fn hand_settled(
    text: &[u8],
    lows: &mut [u64],
    highs: &mut [u64],
    scratch: &mut [u64],
    buffer: &mut [u8],
) -> usize
    requires opened { Opened text.now lows.old highs.old (length scratch.old) }
    requires most_bytes_in_bounds { most_bytes ≤ length buffer.old }
    ensures value { result ≡ length (handed_on text.now) }
    ensures buffer_after { buffer.new ≡ handed_on text.now ++ drop result buffer.old }
{
    let answer = settle(text, lows, highs, scratch);
    hand_answer(text, answer, lows, highs, buffer)
}

// Fills a table from a job's unit lines, settles it and hands it on, by way of lists that hold every job.
// print_by in reporting has another answer alone; one function for both would take a closure and its clauses.
fn hand_on_by(
    text: &[u8],
    lows: &mut [u64],
    highs: &mut [u64],
    scratch: &mut [u64],
    buffer: &mut [u8],
) -> usize
    requires { JobRoom lows.old highs.old scratch.old buffer.old }
    ensures value { result ≡ length (handed_on text.now) }
    ensures buffer_after { buffer.new ≡ handed_on text.now ++ drop result buffer.old }
{
    match read(text, lows, highs) {
        Ok(_) => hand_settled(text, lows, highs, scratch, buffer),
        Err(refusal) => refusal_line(refusal.number, refusal.place, buffer),
    }
}

// Writes what is handed on of a job text at the start of a buffer, and hands back its length.
pub fn hand_on(text: &[u8], buffer: &mut [u8; MOST_BYTES]) -> usize
    ensures value { result ≡ length (handed_on text.now) }
    ensures buffer_after { buffer.new ≡ handed_on text.now ++ drop result buffer.old }
{
    let mut lows = [0u64; MOST_UNITS];
    let mut highs = [0u64; MOST_UNITS];
    let mut scratch = [0u64; 8 * MOST_UNITS];
    hand_on_by(text, &mut lows, &mut highs, &mut scratch, buffer)
}
