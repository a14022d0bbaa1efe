// Half of a pinned group's deviation: its part above the mean, which is as much as its part below. Where the level is above the
// mean, what lies below are members at their highs; elsewhere, what lies above are members at their lows, and those with one of the copies left over.
ghost use Rattle.std.specs.Prelude.{◌≤◌};
ghost use Rattle.model.specs.Shares.{greatest_total, most_units};
ghost use Rattle.breakpoints.specs.Inner.Tables.{SoundWithTotal};
ghost use Rattle.probe.specs.Inner.Sides.{BothSides, Halved, Halving};

use crate::pinned::{Reach, Trial};
use crate::terms::Terms;

// The sum of n × low − S over the members where that is positive, and of S − n × high likewise.
#[derive(Clone, Copy)]
pub struct Sides {
    pub above: u64,
    pub below: u64,
}

// Both sums of a group.
pub fn both_sides(lows: &[u64], highs: &[u64], total: u64) -> Sides
    requires { SoundWithTotal lows.now highs.now total }
    ensures { BothSides lows.now highs.now total result }
{
    let count = lows.len() as u64;
    let mut above: u64 = 0;
    let mut below: u64 = 0;
    for (low, high) in lows.iter().zip(highs) {
        above += (count * low).saturating_sub(total);
        below += total.saturating_sub(count * high);
    }
    Sides { above, below }
}

// Half of the deviation of the pinned group's shares at the level reached.
pub fn pinned_half(terms: Terms, trial: Trial, reach: Reach) -> u64
    requires count_le_most_units { terms.count ≤ most_units }
    requires total_le_greatest_total { terms.total ≤ greatest_total }
    requires halving { Halving terms trial reach }
    ensures { Halved terms trial reach result }
{
    let count = terms.count;
    let total = terms.total;
    let value = count * trial.value;
    if total <= count * reach.level {
        let with_value = terms.below + total.saturating_sub(value);
        return with_value - total.saturating_sub(count * trial.high);
    }
    let with_value = terms.above + value.saturating_sub(total);
    let kept = with_value - (count * trial.low).saturating_sub(total);
    let next = (count * (reach.level + 1)).saturating_sub(total);
    kept + reach.over * next
}
