// Reads a job from standard input, and writes its report or the refusal's line to standard output. Where a read or the write
// fails, it writes one line to standard error.
#![tactic(auto)]

use console::{job_text, read_input, write_output};
use reporting::program::{MOST_BYTES, print_job};

// The main of hand_on is alike but for the call and the words: a shared one would be no plainer.
fn main(rt: HostRuntime) {
    let mut errors = rt.stderr();
    let mut text = job_text();
    let read = read_input(
        &mut rt.stdin(),
        &mut errors,
        &mut text,
        b"settle: standard input",
    );
    let Some(count) = read else {
        return;
    };
    let mut buffer = [0u8; MOST_BYTES];
    let length = print_job(&text[..count], &mut buffer);
    write_output(
        &mut rt.stdout(),
        &mut errors,
        &buffer[..length],
        b"settle: standard output",
    );
}
