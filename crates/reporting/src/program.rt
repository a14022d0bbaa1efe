// What the program prints of a job text: the report, or one line for a refusal. MOST_BYTES, the room that it reserves for that, is handed on to it.
ghost use Rattle.std.specs.Prelude.{◌++◌, ◌≡◌, length, drop};
ghost use Rattle.report.specs.Inner.Printed.{JobRoom};
ghost use Rattle.report.specs.Program.{printed_of};

use crate::calls::report;
pub use job::MOST_BYTES;
use job::read;
use model::MOST_UNITS;
use report::answers::print_answer;
use report::lines::refusal_line;

// Fills a table from a job's unit lines and reports it, by way of lists that hold every job.
// hand_on_by in writer has another answer alone; one function for both would take a closure and its clauses.
fn print_by(
    text: &[u8],
    lows: &mut [u64],
    highs: &mut [u64],
    scratch: &mut [u64],
    buffer: &mut [u8],
) -> usize
    requires { JobRoom lows.old highs.old scratch.old buffer.old }
    ensures value { result ≡ length (printed_of text.now) }
    ensures buffer_after { buffer.new ≡ printed_of text.now ++ drop result buffer.old }
{
    match read(text, lows, highs) {
        Ok(_) => {
            let answer = report(text, lows, highs, scratch, buffer);
            print_answer(answer, buffer)
        }
        Err(refusal) => refusal_line(refusal.number, refusal.place, buffer),
    }
}

// Writes what the program prints of a job text at the start of a buffer, and hands back its length.
pub fn print_job(text: &[u8], buffer: &mut [u8; MOST_BYTES]) -> usize
    ensures value { result ≡ length (printed_of text.now) }
    ensures buffer_after { buffer.new ≡ printed_of text.now ++ drop result buffer.old }
{
    let mut lows = [0u64; MOST_UNITS];
    let mut highs = [0u64; MOST_UNITS];
    let mut scratch = [0u64; 8 * MOST_UNITS];
    print_by(text, &mut lows, &mut highs, &mut scratch, buffer)
}
