// What ails a line that is not in the form: 13 to 15, or else 3.
ghost use Rattle.std.specs.Prelude.{◌≡◌, drop};
ghost use Rattle.text.specs.Ailments.{front_line, ailment_of, ended, paired, is_run, letter_next, is_name, is_named};

use crate::{Kind, Spot, kind_of, rest_from};

// Whether the line at a place has its byte 10.
fn is_ended(text: &[u8], from: usize) -> bool
    ensures { result ≡ ended (drop from text.now) }
{
    rest_from(text, from).contains(&10)
}

// Whether closing brackets are nowhere on the line more than opening ones, and at its end as many.
fn is_paired(text: &[u8], from: usize) -> bool
    ensures { result ≡ paired 0 0 (front_line (drop from text.now)) }
{
    let mut opened: usize = 0;
    let mut closed: usize = 0;
    for byte in rest_from(text, from) {
        if *byte == 10 {
            break;
        }
        match kind_of(*byte) {
            Kind::Opening => opened += 1,
            Kind::Closing => closed += 1,
            _ => {}
        }
        if opened < closed {
            return false;
        }
    }
    opened == closed
}

// Whether a letter comes here.
fn letter_at(text: &[u8], at: usize) -> bool
    ensures { result ≡ letter_next (drop at text.now) }
{
    let Some(byte) = text.get(at) else {
        return false;
    };
    kind_of(*byte) == Kind::Letter
}

// Whether a word comes here, and no letter after it.
fn is_run(text: &[u8], at: usize, word: &[u8]) -> bool
    ensures { result ≡ is_run word.now (drop at text.now) }
{
    let Some(next) = (Spot { at }).word(text, word) else {
        return false;
    };
    !letter_at(text, next.at)
}

// Whether the name of a line comes here.
fn is_name(text: &[u8], at: usize) -> bool
    ensures { result ≡ is_name (drop at text.now) }
{
    is_run(text, at, b"unit") || is_run(text, at, b"group") || is_run(text, at, b"shut")
}

// Whether the line begins with an opening bracket and a name.
fn is_named(text: &[u8], at: usize) -> bool
    ensures { result ≡ is_named (drop at text.now) }
{
    let Some(byte) = text.get(at) else {
        return false;
    };
    kind_of(*byte) == Kind::Opening && is_name(text, at + 1)
}

// What ails the line at a spot, where it is not in the form.
pub fn ailment(text: &[u8], spot: Spot) -> u64
    ensures { result ≡ ailment_of (front_line (drop spot.at text.now)) }
{
    let at = spot.at;
    if !is_ended(text, at) {
        return 13;
    }
    if !is_paired(text, at) {
        return 14;
    }
    if !is_named(text, at) {
        return 15;
    }
    3
}
