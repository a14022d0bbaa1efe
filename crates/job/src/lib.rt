// Reading a job text: the ranges of its units into a table, its groups and the marks of its units into one flat list.
#![tactic(auto)]

ghost use Rattle.std.specs.Prelude.{◌≡◌, ◌≤◌, ◌++◌, length, take, drop};
ghost use Rattle.groups.specs.Inner.Flat.{most_flat};
ghost use Rattle.model.specs.Shares.{most_units};
ghost use Rattle.job.specs.Inner.Reading.{GroupsScanned, Scanned, FilledBy};
ghost use Rattle.job.specs.Reading.{ReadInto};

use groups::MOST_FLAT;
use model::lists::room;
use model::{MOST_UNITS, Refusal};
use reader::scan_lines;

pub mod reader;
pub mod steps;

// How many units and groups a job has.
#[derive(Clone, Copy)]
pub struct Counts {
    pub units: usize,
    pub groups: usize,
}

// A job text has at most so many bytes.
pub const MOST_BYTES: usize = 65_536;

// A refusal that no line causes.
fn refused(number: u64) -> Result<Counts, Refusal>
    ensures { result ≡ Err (record { number = number; place = 0 }) }
{
    Err(Refusal { number, place: 0 })
}

// Reads a whole text: its ranges to the front of lows and highs, its groups to the front of the flat list, its marks behind the room for groups.
#[tactic(auto, using(crate::proofs::Laws::Scanning::too_long, crate::proofs::Laws::Scanning::scanned_refused))]
fn scan(
    text: &[u8],
    lows: &mut [u64],
    highs: &mut [u64],
    flat: &mut [u64],
) -> Result<Counts, Refusal>
    requires { (most_units ≤ length lows.old) × (most_units ≤ length highs.old) × (most_flat ≤ length flat.old) }
    ensures { Scanned text.now lows.old highs.old flat.old lows.new highs.new flat.new result }
{
    if MOST_BYTES < text.len() {
        return refused(2);
    }
    scan_lines(text, lows, highs, flat)
}

// Reads a whole text for its groups and marks alone, into the flat list; its ranges are left aside.
pub fn scan_groups(text: &[u8], flat: &mut [u64]) -> Result<Counts, Refusal>
    requires { most_flat ≤ length flat.old }
    ensures { GroupsScanned text.now flat.old flat.new result }
{
    let mut lows = room();
    let mut highs = room();
    scan(text, &mut lows, &mut highs, flat)
}

// Fills a table that is long enough from the front of lists that hold a job's units.
#[tactic(auto, using(crate::proofs::Laws::Reading::filled_refused, crate::proofs::Laws::Reading::table_short, crate::proofs::Laws::Reading::table_short_highs))]
fn fill(
    least: &[u64],
    greatest: &[u64],
    lows: &mut [u64],
    highs: &mut [u64],
    counts: Counts,
) -> Result<Counts, Refusal>
    requires { (counts.units ≤ length least.now) × (counts.units ≤ length greatest.now) }
    ensures { FilledBy least.now greatest.now counts.units counts.groups lows.old highs.old lows.new highs.new result }
{
    let units = counts.units;
    if lows.len() < units || highs.len() < units {
        return refused(1);
    }
    lows[..units].copy_from_slice(&least[..units]);
    highs[..units].copy_from_slice(&greatest[..units]);
    Ok(counts)
}

// Reads a text into a table, by way of lists that hold every job.
fn read_by(
    text: &[u8],
    lows: &mut [u64],
    highs: &mut [u64],
    least: &mut [u64],
    greatest: &mut [u64],
    flat: &mut [u64],
) -> Result<Counts, Refusal>
    requires { (most_units ≤ length least.old) × (most_units ≤ length greatest.old) × (most_flat ≤ length flat.old) }
    ensures { ReadInto text.now lows.old highs.old lows.new highs.new result }
{
    let counts = scan(text, least, greatest, flat)?;
    fill(least, greatest, lows, highs, counts)
}

// Reads a job text: fills the table from its unit lines, and answers the counts of units and groups, or a refusal.
pub fn read(text: &[u8], lows: &mut [u64], highs: &mut [u64]) -> Result<Counts, Refusal>
    ensures { ReadInto text.now lows.old highs.old lows.new highs.new result }
{
    let mut least = [0u64; MOST_UNITS];
    let mut greatest = [0u64; MOST_UNITS];
    let mut flat = [0u64; MOST_FLAT];
    read_by(text, lows, highs, &mut least, &mut greatest, &mut flat)
}
