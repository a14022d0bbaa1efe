// The shares of a group at its level.
ghost use Rattle.std.specs.Prelude.{◌≡◌, ◌≤◌, ◌++◌, length, drop};
ghost use Rattle.model.specs.Levels.{by_headroom};
ghost use Rattle.levelling.specs.Additions.{KnownLevel};
ghost use Rattle.headroom.specs.Inner.Takers.{HasTakers};

use headroom::{bar_for, one_above, one_at};
use model::levels::clamp;

// Writes the shares at the level, which has to be known, with the copies left over handed out by headroom, over the first
// numbers of a plan.
pub fn fill_plan(lows: &[u64], highs: &[u64], v: u64, left: u64, plan: &mut [u64])
    requires has_takers { HasTakers lows.now highs.now v left }
    requires lows_in_bounds { length lows.now ≤ length plan.old }
    requires known_level { KnownLevel lows.now highs.now v left }
    ensures { plan.new ≡ by_headroom lows.now highs.now v left ++ drop (length lows.now) plan.old }
{
    let count = lows.len();
    // What the plan holds is room to work in until the shares are written.
    let found = bar_for(lows, highs, v, left, &mut plan[..count]);
    let bar = found.high;
    let mut rest = found.rest;
    for (i, low) in lows.iter().enumerate() {
        let high = highs[i];
        let at = one_at(*low, high, v, bar, rest);
        let more = one_above(*low, high, v, bar) + at;
        plan[i] = clamp(*low, high, v) + more;
        rest -= at;
    }
}
