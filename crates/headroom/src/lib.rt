// Who gets the copies left over: the members with the most headroom, told by a bar. The level is the same for all, so that a higher
// high is more headroom.
#![tactic(auto)]

ghost use Rattle.std.specs.Prelude.{◌≡◌, ◌+◌, ◌≤◌, ◌<◌, length};
ghost use Rattle.model.specs.Levels.{roomier};
ghost use Rattle.model.specs.Inner.Headroom.{is_ahead, Bar, copy_at};
ghost use Rattle.model.specs.Sound.{SoundRanges};
ghost use Rattle.headroom.specs.Inner.Takers.{HasTakers};

use model::Share;
use model::levels::{extra, growth};
use sorting::guess_place;

// Copies go to the members with a high above the bar, and the rest to the first with just that high.
#[derive(Clone, Copy)]
pub struct HeadroomBar {
    pub high: u64,
    pub rest: u64,
}

// Whether a member can take one copy more and has a high above another: 1 or 0.
pub fn one_above(low: u64, high: u64, v: u64, other: u64) -> u64
    requires { v ≤ other }
    ensures { result ≡ is_ahead low high v other }
{
    u64::from(low <= v && other < high)
}

// How many members can take one copy more and have a high above another.
fn count_above(lows: &[u64], highs: &[u64], v: u64, other: u64) -> u64
    requires sound_ranges { SoundRanges lows.now highs.now }
    requires v_le_other { v ≤ other }
    ensures { result ≡ roomier lows.now highs.now v other }
{
    let mut count: u64 = 0;
    for (low, high) in lows.iter().zip(highs) {
        count += one_above(*low, *high, v, other);
    }
    count
}

// Moves the highs of the members that can take one copy more to the front of a list, and says how many they are.
fn gather_growing(lows: &[u64], highs: &[u64], v: u64, out: &mut [u64]) -> usize
    requires sound_ranges { SoundRanges lows.now highs.now }
    requires out_len { length out.old ≡ length lows.now }
    ensures value { result ≡ roomier lows.now highs.now v v }
    ensures upper_bound { result ≤ length lows.now }
{
    let mut count: usize = 0;
    // The highs by index: a `zip` of both lists makes this loop slower by a quarter.
    for (i, low) in lows.iter().enumerate() {
        out[count] = highs[i];
        count += growth(*low, highs[i], v) as usize;
    }
    count
}

// A guess at the bar, of which nothing is promised: the high of the last member to get a copy, by splitting. The list is room to
// work in.
fn guess_bar(lows: &[u64], highs: &[u64], v: u64, left: u64, numbers: &mut [u64]) -> u64
    requires has_takers { HasTakers lows.now highs.now v left }
    requires left_nonzero { 0 < left }
    requires numbers_len { length numbers.old ≡ length lows.now }
{
    let count = gather_growing(lows, highs, v, numbers);
    let place = count - left as usize;
    guess_place(&mut numbers[..count], place)
}

// A number strictly between two others: just below the guess or the guess, where it is one, else halfway.
fn next_between(under: u64, bar: u64, guess: u64) -> u64
    requires { under + 1 < bar }
    ensures { (under < result) × (result < bar) }
{
    if under + 1 < guess && guess <= bar {
        return guess - 1;
    }
    if under < guess && guess < bar {
        return guess;
    }
    under + (bar - under) / 2
}

// The bar for so many copies: at least as many members can take one above the number under it, at most as many above the bar.
fn find_bar(lows: &[u64], highs: &[u64], v: u64, left: u64, guess: u64) -> HeadroomBar
    requires { HasTakers lows.now highs.now v left }
    ensures bar { Bar lows.now highs.now v left result.high result.rest }
    ensures v_le_high { v ≤ result.high }
{
    let mut under = v;
    let mut bar = Share::GREATEST;
    let mut above: u64 = 0;
    while under + 1 < bar {
        let next = next_between(under, bar, guess);
        let count = count_above(lows, highs, v, next);
        if count == left {
            return HeadroomBar {
                high: next,
                rest: 0,
            };
        }
        if left < count {
            under = next;
        } else {
            bar = next;
            above = count;
        }
    }
    HeadroomBar {
        high: bar,
        rest: left - above,
    }
}

// The bar for so many copies, no walk where there are none. The list is room to work in.
pub fn bar_for(lows: &[u64], highs: &[u64], v: u64, left: u64, numbers: &mut [u64]) -> HeadroomBar
    requires has_takers { HasTakers lows.now highs.now v left }
    requires numbers_len { length numbers.old ≡ length lows.now }
    ensures bar { Bar lows.now highs.now v left result.high result.rest }
    ensures v_le_high { v ≤ result.high }
{
    if left == 0 {
        return HeadroomBar {
            high: Share::GREATEST,
            rest: 0,
        };
    }
    let guess = guess_bar(lows, highs, v, left, numbers);
    find_bar(lows, highs, v, left, guess)
}

// The copy that a member with the bar's high takes, as long as copies rest: one, or none.
pub fn one_at(low: u64, high: u64, v: u64, bar: u64, rest: u64) -> u64
    ensures { result ≡ copy_at low high v bar rest }
{
    if high == bar {
        return extra(low, high, v, rest);
    }
    0
}
