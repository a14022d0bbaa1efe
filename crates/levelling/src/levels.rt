// The search for a group's level, from its ranges alone: no list is written, and every addition of T(v) is counted.
ghost use Rattle.std.specs.Prelude.{◌≡◌, suc, ◌+◌, ◌-◌, ◌^◌, ◌≤◌, ◌<◌, leb};
ghost use Rattle.model.specs.Levels.{total_at, level, remainder};
ghost use Rattle.levelling.specs.Additions.{most_additions, ByHalving};
ghost use Rattle.model.specs.Sound.{SoundRanges, HasShares};
ghost use Rattle.levelling.specs.Inner.Searching.{LevelBetween};

use model::Share;
use model::levels::clamp;

// The level, and the copies left over there.
#[derive(Clone, Copy)]
pub struct FoundLevel {
    pub level: u64,
    pub left: u64,
}

// T(v), the sum of the shares at a level: one addition more.
fn total_at(lows: &[u64], highs: &[u64], v: u64, additions: &mut u64) -> u64
    requires sound_ranges { SoundRanges lows.now highs.now }
    requires additions_bound { suc additions.old < 2 ^ 64 }
    ensures additions_after { additions.new ≡ suc additions.old }
    ensures value { result ≡ total_at lows.now highs.now v }
{
    *additions += 1;
    let mut total: u64 = 0;
    // The highs by index: a `zip` of both lists asks each for its end, and makes levelling two members slower by a sixth and more.
    for (i, low) in lows.iter().enumerate() {
        total += clamp(*low, highs[i], v);
    }
    total
}

// Whether T(v) is at most the total: one addition more.
fn holds_at(lows: &[u64], highs: &[u64], total: u64, v: u64, additions: &mut u64) -> bool
    requires sound_ranges { SoundRanges lows.now highs.now }
    requires additions_bound { suc additions.old < 2 ^ 64 }
    ensures additions_after { additions.new ≡ suc additions.old }
    ensures value { result ≡ leb (total_at lows.now highs.now v) total }
{
    total_at(lows, highs, v, additions) <= total
}

// The level, by bisection between a share that has T(v) at most the total and one above it that has not, or that is no share.
fn level_between(
    lows: &[u64],
    highs: &[u64],
    total: u64,
    first: u64,
    past: u64,
    additions: &mut u64,
) -> u64
    requires level_between { LevelBetween lows.now highs.now total first past }
    requires most_additions_bound { additions.old + most_additions < 2 ^ 64 }
    ensures value { result ≡ level lows.now highs.now total }
    ensures by_halving { ByHalving (past - first) additions.old additions.new }
{
    let mut v = first;
    let mut top = past;
    while 1 < top - v {
        let middle = v + (top - v) / 2;
        if holds_at(lows, highs, total, middle, additions) {
            v = middle;
        } else {
            top = middle;
        }
    }
    v
}

// The level of a group that has shares, and the copies left over.
pub fn find_level(lows: &[u64], highs: &[u64], total: u64, additions: &mut u64) -> FoundLevel
    requires has_shares { HasShares lows.now highs.now total }
    requires most_additions_bound { additions.old + most_additions < 2 ^ 64 }
    ensures level_value { result.level ≡ level lows.now highs.now total }
    ensures left_value { result.left ≡ remainder lows.now highs.now total }
    ensures additions_bound { additions.new ≤ additions.old + most_additions }
{
    let past = Share::GREATEST + 1;
    let level = level_between(lows, highs, total, Share::LEAST, past, additions);
    let left = total - total_at(lows, highs, level, additions);
    FoundLevel { level, left }
}
