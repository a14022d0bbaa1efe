// Reading bytes: the kind of a byte, and a spot in a text.
#![tactic(auto)]

ghost use Rattle.std.specs.Prelude.{◌≡◌, ◌+◌, ◌*◌, ◌≤◌, ◌<◌, length, drop, Some};
ghost use Rattle.text.specs.Kinds.{kind_of};
ghost use Rattle.text.specs.Parsed.{word, mapped};
ghost use Rattle.text.specs.Numbers.{number, number_after};
ghost use Rattle.text.specs.Inner.Numbers.{held, most};
ghost use Rattle.text.specs.Inner.Spots.{stepped, counted, first_digit, digits_held};

pub mod ailments;

// The kinds of bytes.
#[derive(Clone, Copy, PartialEq, Eq)]
pub enum Kind {
    Opening,
    Closing,
    Space,
    Digit,
    Letter,
    Foreign,
}

// The kind of a byte, by its number.
pub fn kind_of(byte: u8) -> Kind
    ensures { result ≡ kind_of byte }
{
    match byte {
        40 => Kind::Opening,
        41 => Kind::Closing,
        32 => Kind::Space,
        48..=57 => Kind::Digit,
        97..=122 => Kind::Letter,
        _ => Kind::Foreign,
    }
}

// A spot in a text: the number of bytes before it.
#[derive(Clone, Copy)]
pub struct Spot {
    pub at: usize,
}

// The greatest value that is told apart: it is above every limit of a job.
pub const MOST: u64 = 1_000_000_000_000_000_000;

// The text from a place on: nothing past its end.
fn rest_from(text: &[u8], at: usize) -> &[u8]
    ensures { result.now ≡ drop at text.now }
{
    text.get(at..).unwrap_or_default()
}

// The value of the digit at a place, where one is there.
fn digit_at(text: &[u8], at: usize) -> Option<u64>
    ensures { result ≡ first_digit (drop at text.now) }
{
    let byte = *text.get(at)?;
    if kind_of(byte) != Kind::Digit {
        return None;
    }
    Some(byte as u64 - 48)
}

// The value with one digit more.
fn grown(value: u64, digit: u64) -> u64
    requires { (value ≤ most) × (digit < 10) }
    ensures { result ≡ held (value * 10 + digit) }
{
    (value * 10 + digit).min(MOST)
}

// Reads the digits that go on a number whose first ones have the value first.
fn digits_from(text: &[u8], from: usize, first: u64) -> (u64, Spot)
    requires { first ≤ most }
    ensures { counted text.now (Some result) ≡ digits_held first (drop from text.now) }
{
    let mut at = from;
    let mut value = first;
    while let Some(digit) = digit_at(text, at) {
        value = grown(value, digit);
        at += 1;
    }
    (value, Spot { at })
}

impl Spot {
    // Reads a number, and gives the spot after it; a value above MOST reads as MOST.
    pub fn number(self, text: &[u8]) -> Option<(u64, Spot)>
        ensures { counted text.now result ≡ mapped held (number (drop self.at text.now)) }
    {
        let first = digit_at(text, self.at)?;
        let next = self.at + 1;
        if first == 0 {
            return Some((0, Spot { at: next }));
        }
        Some(digits_from(text, next, first))
    }

    // Reads a word, given by its bytes, and gives the spot after it. It is compiled into its callers, which know the word.
    #[inline(always)]
    pub fn word(self, text: &[u8], bytes: &[u8]) -> Option<Spot>
        ensures { stepped text.now result ≡ word bytes.now (drop self.at text.now) }
    {
        if !rest_from(text, self.at).starts_with(bytes) {
            return None;
        }
        Some(Spot {
            at: self.at + bytes.len(),
        })
    }

    // Reads a word, and a number after it.
    pub fn number_after(self, text: &[u8], bytes: &[u8]) -> Option<(u64, Spot)>
        ensures { counted text.now result ≡ mapped held (number_after bytes.now (drop self.at text.now)) }
    {
        self.word(text, bytes)?.number(text)
    }
}
