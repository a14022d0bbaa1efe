// The reader: it carries the job text with the spot it has reached, and reads the text line by line.
ghost use Rattle.std.specs.Prelude.{◌≡◌, ◌≤◌, length, leb};
ghost use Rattle.groups.specs.Inner.Flat.{most_flat};
ghost use Rattle.form.specs.Form.{most_bytes};
ghost use Rattle.job.specs.Inner.Steps.{Bounded, LineTaken};
ghost use Rattle.job.specs.Inner.Reading.{Scanned, counts_of};
ghost use Rattle.model.specs.Shares.{most_units};

use crate::steps::{Progress, take_line};
use crate::{Counts, refused};
use model::Refusal;
use text::Spot;

// The job text, with the spot that reading has reached.
#[derive(Clone, Copy)]
pub struct Reader<'a> {
    text: &'a [u8],
    at: usize,
}

impl<'a> Reader<'a> {
    // At the start of a text.
    fn new(text: &'a [u8]) -> Reader<'a>
        ensures { result ≡ record { text = text.entry; at = 0 } }
    {
        Reader { text, at: 0 }
    }

    // Whether the whole text has been read.
    fn at_end(self) -> bool
        ensures { result ≡ leb (length self.entry.text.now) self.entry.at }
    {
        self.text.len() <= self.at
    }

    // Takes the line at the spot: what it adds to the lists, or its refusal.
    fn take_line(
        self,
        progress: Progress,
        lows: &mut [u64],
        highs: &mut [u64],
        flat: &mut [u64],
    ) -> Result<(Progress, Spot), Refusal>
        requires { Bounded progress × (length self.text.now ≤ most_bytes) × (most_units ≤ length lows.old) × (most_units ≤ length highs.old) × (most_flat ≤ length flat.old) }
        ensures { LineTaken self.entry.text.now progress self.entry.at lows.old highs.old flat.old lows.new highs.new flat.new result }
    {
        let spot = Spot { at: self.at };
        take_line(self.text, spot, progress, lows, highs, flat)
    }

    // The reader, moved to a spot.
    fn moved(self, spot: Spot) -> Reader<'a>
        ensures { result ≡ record { text = self.entry.text; at = spot.at } }
    {
        Reader {
            text: self.text,
            at: spot.at,
        }
    }
}

// What the lines of a text come to: the counts, or 10 where there is no unit line.
#[tactic(auto, unfolding(crate::specs::Inner::Reading::counts_of))]
fn counted(progress: Progress) -> Result<Counts, Refusal>
    ensures { result ≡ counts_of progress }
{
    if progress.units == 0 {
        return refused(10);
    }
    Ok(Counts {
        units: progress.units,
        groups: progress.groups,
    })
}

// Reads a text that is not too long, line by line.
pub fn scan_lines(
    text: &[u8],
    lows: &mut [u64],
    highs: &mut [u64],
    flat: &mut [u64],
) -> Result<Counts, Refusal>
    requires { (length text.now ≤ most_bytes) × (most_units ≤ length lows.old) × (most_units ≤ length highs.old) × (most_flat ≤ length flat.old) }
    ensures { Scanned text.now lows.old highs.old flat.old lows.new highs.new flat.new result }
{
    let mut reader = Reader::new(text);
    let mut progress = Progress {
        units: 0,
        groups: 0,
        memberships: 0,
    };
    while !reader.at_end() {
        let (more, next) = reader.take_line(progress, lows, highs, flat)?;
        progress = more;
        reader = reader.moved(next);
    }
    counted(progress)
}
