// Standard input and output for the programs: a job text is read whole, and what fails is said on standard error.
#![tactic(auto)]

ghost use Rattle.std.specs.Prelude.{◌≤◌, ◌≡◌, length};
ghost use Rattle.console.specs.Inner.Inputs.{bytes_read, IsRead};

use std::io;
use std::io::{Read, Write};

// One byte more than a job text may have, so that a longer one is refused.
// The number is written out, as this crate depends on no other.
pub fn job_text() -> [u8; 65537]
    ensures { 65537 ≡ length result }
{
    [0; 65537]
}

// The system's words for why a call failed, at the start of 256 bytes, and how many they are: its number, which follows
// them in a bracket, is left out.
fn reason(error: &io::Error, words: &mut [u8; 256]) -> usize
    ensures { result ≤ length words.new }
{
    let mut rest = &mut words[..];
    let _ = write!(rest, "{error}");
    let number = words
        .windows(11)
        .position(|part| *part == *b" (os error ".as_slice());
    let end = words.iter().position(|byte| *byte == 0);
    number.or(end).unwrap_or(words.len())
}

// Says what failed, as the caller names it, and why.
fn fail<E: Write>(errors: &mut E, what: &[u8], error: &io::Error) -> io::Result<()> {
    let mut words = [0u8; 256];
    let length = reason(error, &mut words);
    errors.write_all(what)?;
    errors.write_all(b": ")?;
    errors.write_all(&words[..length])?;
    errors.write_all(b"\n")
}

// Reads an input to its end, or until the list is full, and hands back the count of its bytes. A read that fails after
// others fails them all: a job cut short at a line's end would pass for a whole one. It is said on standard error, with
// what the caller names, and None is handed back.
pub fn read_input<R: Read, E: Write>(
    input: &mut R,
    errors: &mut E,
    text: &mut [u8],
    what: &[u8],
) -> Option<usize>
    ensures within { bytes_read result ≤ length text.new }
    ensures whole { IsRead (R.remaining input.old) (R.remaining input.new) result text.new }
{
    let mut count: usize = 0;
    while count < text.len() {
        match input.read(&mut text[count..]) {
            Ok(0) => return Some(count),
            Ok(more) => count += more,
            Err(error) => {
                let _ = fail(errors, what, &error);
                return None;
            }
        }
    }
    Some(count)
}

// Writes bytes to an output; a write that fails is said on standard error, with what the caller names.
pub fn write_output<W: Write, E: Write>(output: &mut W, errors: &mut E, bytes: &[u8], what: &[u8]) {
    if let Err(error) = output.write_all(bytes) {
        let _ = fail(errors, what, &error);
    }
}
