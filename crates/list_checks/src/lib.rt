// The checks on the lists of one group, in the order of the specification.
#![tactic(auto)]

ghost use Rattle.std.specs.Prelude.{◌≡◌, ℕ, Bool, true, length};
ghost use Rattle.list_checks.specs.Checks.{are_shares, unit_within, unit_ordered, first_failing, sized, amounts_within, refuse_if, check_lists};
ghost use Rattle.list_checks.specs.Inner.Units.{unit_sound, all_sound, place_found, Tells};

use model::{
    GREATEST_DEVIATION, GREATEST_PAIRS, GREATEST_SPREAD, GREATEST_TOTAL, Limits, MOST_UNITS,
    RUNNING, Refusal, SHUT, Share,
};

// Whether both ends of a range are shares.
fn are_shares(low: u64, high: u64) -> bool
    ensures { result ≡ are_shares low high }
{
    Share::new(low).is_some() && Share::new(high).is_some()
}

// Whether a unit's numbers are in their ranges: both ends are shares, and the mark is 0 or 1.
fn is_within(low: u64, high: u64, mark: u64) -> bool
    ensures { result ≡ unit_within low high mark }
{
    are_shares(low, high) && mark <= SHUT
}

// Whether a unit's low is at most its high, and a shut unit's range is 0 to 0.
fn is_ordered(low: u64, high: u64, mark: u64) -> bool
    ensures { result ≡ unit_ordered low high mark }
{
    if mark == RUNNING {
        return low <= high;
    }
    low == 0 && high == 0
}

// Whether a unit's numbers are in their ranges and in order. A low that is at most a share is a share too.
fn is_sound(low: u64, high: u64, mark: u64) -> bool
    ensures { result ≡ unit_sound low high mark }
{
    if mark == RUNNING {
        return Share::new(high).is_some() && low <= high;
    }
    mark == SHUT && is_ordered(low, high, mark)
}

// The place of the first unit that fails a test, from 1; none where every unit passes.
fn first_failing<F: Fn(u64, u64, u64) -> bool>(
    lows: &[u64],
    highs: &[u64],
    marks: &[u64],
    passes: F,
) -> Option<u64>
    requires callable { F.IsAlwaysCallable passes }
    requires as_many { (length highs.now ≡ length lows.now) × (length marks.now ≡ length lows.now) }
    ensures { (test : ℕ → ℕ → ℕ → Bool) → Tells (F.post passes) test → result ≡ place_found (first_failing test 1 lows.now highs.now marks.now) }
{
    // Highs and marks by index: a `zip` asks each list for its end, and makes a refused call slower.
    for (i, low) in lows.iter().enumerate() {
        if !passes(*low, highs[i], marks[i]) {
            return Some(i as u64 + 1);
        }
    }
    None
}

// Whether every unit is sound: one walk, after which units that are need no other.
fn are_sound(lows: &[u64], highs: &[u64], marks: &[u64]) -> bool
    requires { (length highs.now ≡ length lows.now) × (length marks.now ≡ length lows.now) }
    ensures { result ≡ all_sound lows.now highs.now marks.now }
{
    first_failing(lows, highs, marks, is_sound).is_none()
}

// Whether lists of these lengths are those of a group, with room for its shares.
fn is_sized(count: usize, other: usize, marked: usize, room: usize) -> bool
    ensures { result ≡ sized count other marked room }
{
    1 <= count && count == other && count == marked && count <= MOST_UNITS && count <= room
}

// Whether total and limits are in their ranges.
pub fn amounts_within(total: u64, limits: Limits) -> bool
    ensures { result ≡ amounts_within total limits }
{
    total <= GREATEST_TOTAL
        && limits.deviation.within(GREATEST_DEVIATION)
        && limits.spread.within(GREATEST_SPREAD)
        && limits.pairs.within(GREATEST_PAIRS)
}

// A refusal by number and place.
fn refused(number: u64, place: u64) -> Result<(), Refusal>
    ensures { result ≡ refuse_if true number place (Ok tt) }
{
    Err(Refusal { number, place })
}

// The first refusal of a group's lists, up to 7; amounts says whether total and limits are in their ranges.
pub fn check_lists(
    lows: &[u64],
    highs: &[u64],
    marks: &[u64],
    room: usize,
    amounts: bool,
) -> Result<(), Refusal>
    ensures { result ≡ check_lists lows.now highs.now marks.now room amounts }
{
    if !is_sized(lows.len(), highs.len(), marks.len(), room) {
        return refused(1, 0);
    }
    if are_sound(lows, highs, marks) {
        if amounts {
            return Ok(());
        }
        return refused(4, 0);
    }
    if let Some(place) = first_failing(lows, highs, marks, is_within) {
        return refused(4, place);
    }
    if !amounts {
        return refused(4, 0);
    }
    if let Some(place) = first_failing(lows, highs, marks, is_ordered) {
        return refused(7, place);
    }
    Ok(())
}
