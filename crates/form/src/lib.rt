// Reading the lines of a job text.
#![tactic(auto)]

ghost use Rattle.std.specs.Prelude.{◌≡◌, ◌≤◌, ◌&&◌, length, drop, set};
ghost use Rattle.text.specs.Parsed.{mapped};
ghost use Rattle.form.specs.Form.{most_bytes};
ghost use Rattle.form.specs.Named.{named, member_of};
ghost use Rattle.form.specs.Inner.Tally.{kept_head, tallied, group_tally};
ghost use Rattle.text.specs.Inner.Numbers.{held};
ghost use Rattle.form.specs.Form.{range_as, unit_as, limit_as, pairs_as, head_as, members_as, group_as};
ghost use Rattle.form.specs.Inner.LinesRead.{kept_unit, unit_seen, limit_seen, pairs_seen, head_seen, members_seen, group_seen};

use model::{Limit, Limits, RUNNING, SHUT};
use text::Spot;

// A unit line: its low, its high and its mark, 0 running, 1 shut.
#[derive(Clone, Copy)]
pub struct Unit {
    pub low: u64,
    pub high: u64,
    pub mark: u64,
}

// A group line up to its members: its total and limits, and whether a pairs limit is there.
#[derive(Clone, Copy)]
pub struct Head {
    pub total: u64,
    pub limits: Limits,
    pub pairs_there: bool,
}

// The members of a group line: how many, whether all are unit numbers, and the spot after them.
#[derive(Clone, Copy)]
pub struct Members {
    pub count: usize,
    pub within: bool,
    pub next: Spot,
}

// Reads a unit line with its low and high, and gives the spot after it.
fn range_line(text: &[u8], spot: Spot) -> Option<(Unit, Spot)>
    ensures { unit_seen text.now result ≡ mapped kept_unit (range_as held (drop spot.at text.now)) }
{
    let (low, spot) = spot.number_after(text, b"(unit ")?;
    let (high, spot) = spot.number_after(text, b" ")?;
    let spot = spot.word(text, b")\n")?;
    let unit = Unit {
        low,
        high,
        mark: RUNNING,
    };
    Some((unit, spot))
}

// Reads a unit line: one that says shut, or one with its low and high. Gives the spot after it.
pub fn unit_line(text: &[u8], spot: Spot) -> Option<(Unit, Spot)>
    ensures { unit_seen text.now result ≡ mapped kept_unit (unit_as held (drop spot.at text.now)) }
{
    let Some(next) = spot.word(text, b"(shut)\n") else {
        return range_line(text, spot);
    };
    let unit = Unit {
        low: 0,
        high: 0,
        mark: SHUT,
    };
    Some((unit, next))
}

// Reads a word and a limit after it, and gives the spot after the limit.
fn limit_after(text: &[u8], spot: Spot, bytes: &[u8]) -> Option<(Limit, Spot)>
    ensures { limit_seen text.now result ≡ limit_as held bytes.now (drop spot.at text.now) }
{
    let spot = spot.word(text, bytes)?;
    if let Some(next) = spot.word(text, b"any") {
        return Some((Limit::Any, next));
    }
    let (most, next) = spot.number(text)?;
    Some((Limit::AtMost(most), next))
}

// Reads a pairs limit, where it is there, and gives the spot after it.
fn pairs_after(text: &[u8], spot: Spot) -> (Option<Limit>, Spot)
    ensures { pairs_seen text.now result ≡ pairs_as held (drop spot.at text.now) }
{
    let Some((limit, next)) = limit_after(text, spot, b") (pairs ") else {
        return (None, spot);
    };
    (Some(limit), next)
}

// Reads a group line up to its members, and gives the spot ahead of them.
fn head_line(text: &[u8], spot: Spot) -> Option<(Head, Spot)>
    ensures { head_seen text.now result ≡ mapped kept_head (head_as held (drop spot.at text.now)) }
{
    let (total, spot) = spot.number_after(text, b"(group ")?;
    let (deviation, spot) = limit_after(text, spot, b" (dev ")?;
    let (spread, spot) = limit_after(text, spot, b") (spread ")?;
    let (pairs, spot) = pairs_after(text, spot);
    let spot = spot.word(text, b") (of")?;
    let limits = Limits {
        deviation,
        spread,
        pairs: pairs.unwrap_or(Limit::Any),
    };
    let head = Head {
        total,
        limits,
        pairs_there: pairs.is_some(),
    };
    Some((head, spot))
}

// Whether all were unit numbers so far, and this is one too.
fn still_within(within: bool, units: usize, number: u64) -> bool
    ensures { result ≡ within && named units number }
{
    within && (1..=units as u64).contains(&number)
}

// Stores a unit's number less 1, where there is room.
fn put_member(flat: &mut [u64], at: usize, number: u64)
    ensures { flat.new ≡ set flat.old at (member_of number) }
{
    // By index, as no contract says what get_mut leaves in a slice.
    if at < flat.len() {
        flat[at] = number.saturating_sub(1);
    }
}

// Reads as many members as there are, and stores them from a place on.
fn read_members(text: &[u8], spot: Spot, flat: &mut [u64], from: usize, units: usize) -> Members
    requires { (length text.now ≤ most_bytes) × (from ≤ most_bytes) }
    ensures { members_seen text.now flat.new result ≡ mapped (tallied units from flat.old) (members_as held (length (drop spot.at text.now)) (drop spot.at text.now)) }
{
    let mut next = spot;
    let mut count = 0;
    let mut within = true;
    while let Some((number, after)) = next.number_after(text, b" ") {
        within = still_within(within, units, number);
        put_member(flat, from + count, number);
        count += 1;
        next = after;
    }
    Members {
        count,
        within,
        next,
    }
}

// Reads a group line, stores its members from a place on, and gives them with the spot after the line.
pub fn group_line(
    text: &[u8],
    spot: Spot,
    flat: &mut [u64],
    from: usize,
    units: usize,
) -> Option<(Head, Members)>
    requires { (length text.now ≤ most_bytes) × (from ≤ most_bytes) }
    ensures { group_seen text.now flat.new result ≡ mapped (group_tally units from flat.old) (group_as held (drop spot.at text.now)) }
{
    let (head, spot) = head_line(text, spot)?;
    let members = read_members(text, spot, flat, from, units);
    let next = members.next.word(text, b"))\n")?;
    if members.count == 0 {
        return None;
    }
    Some((head, Members { next, ..members }))
}
