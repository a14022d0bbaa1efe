// The pair differences of a pinned group at the level that its total reaches.
ghost use Rattle.std.specs.Prelude.{◌≤◌};
ghost use Rattle.model.specs.Shares.{greatest_share};
ghost use Rattle.breakpoints.specs.Inner.Distances.{DistancesAt, MarksKept};
ghost use Rattle.probe.specs.Inner.Lookups.{PairLookable};
ghost use Rattle.probe.specs.Inner.Pairs.{WithValue, WithOver, OverGiven, Spotted, PinnedPairs};
ghost use Rattle.probe.specs.Inner.Verdicts.{Asked};

use crate::lookups::{distances_on, far_from};
use crate::newton::turns;
use crate::pinned::Trial;
use crate::terms::{MOST_PAIRS, Terms};
use breakpoints::distances::{Distances, row_of};
use breakpoints::rows::read_row;
use model::MOST_UNITS;
use model::levels::growth;

// A level with copies left over, and the row below it.
#[derive(Clone, Copy)]
pub struct LevelSpot {
    pub row: usize,
    pub level: u64,
    pub over: u64,
}

// The pair differences at a level with a value in place of a member's own share: the one's distances come, the other's go.
fn with_value(
    lows: &[u64],
    highs: &[u64],
    table: &[u64],
    terms: Terms,
    here: Distances,
    trial: Trial,
) -> u64
    requires pair_lookable { PairLookable lows.now highs.now table.now terms }
    requires distances_at { DistancesAt lows.now highs.now here.level here }
    requires level_le_greatest_share { here.level ≤ greatest_share }
    requires asked { Asked lows.now highs.now trial.low trial.high trial.value }
    ensures { WithValue lows.now highs.now trial.low trial.high trial.value here.level result }
{
    let own = here.level.clamp(trial.low, trial.high);
    let near = far_from(lows, highs, table, terms, here, own);
    let far = far_from(lows, highs, table, terms, here, trial.value);
    here.pairs + far - near - own.abs_diff(trial.value)
}

// The pair differences with the copies left over given out: each takes a share further from those at the level and below,
// and nearer to those above.
fn with_over(count: u64, lows: u64, trial: Trial, spot: LevelSpot, pairs: u64) -> u64
    requires { OverGiven count lows trial.low trial.high trial.value spot.level spot.over pairs }
    ensures { WithOver count lows trial.low trial.high trial.value spot.level spot.over pairs result }
{
    let own = spot.level.clamp(trial.low, trial.high);
    let passed = lows + u64::from(spot.level < own);
    let above = count + u64::from(spot.level < trial.value) - passed;
    pairs + spot.over * count - spot.over * (spot.over + 2 * above)
}

// The pair differences of the group with the value in place of the member's own share, at the level reached.
pub fn pinned_pairs(
    lows: &[u64],
    highs: &[u64],
    table: &[u64],
    terms: Terms,
    trial: Trial,
    spot: LevelSpot,
) -> u64
    requires pair_lookable { PairLookable lows.now highs.now table.now terms }
    requires spotted { Spotted lows.now highs.now table.now terms trial.low trial.high trial.value spot }
    ensures { PinnedPairs lows.now highs.now trial.low trial.high trial.value spot.level spot.over result }
{
    let here = distances_on(lows, highs, table, terms, spot.row, spot.level);
    let pairs = with_value(lows, highs, table, terms, here, trial);
    if spot.over == 0 {
        return pairs;
    }
    let row = read_row(table, spot.row);
    with_over(terms.count, row.lows, trial, spot, pairs)
}

// How far inward of a value whose pairs are over by so much the first one within the limit can lie. A value nearer takes 2 off, and 2 more
// for each other member strictly between it and the member that gets the copy or gives one. Those at their lows or highs stay where they are;
// those that grow come between one by one, in turns. It is tried there next, so that this matters to the time alone.
pub fn pair_step(table: &[u64], last: usize, trial: Trial, spot: LevelSpot, much: u64) -> u64
    requires marks_kept { MarksKept table.now last }
    requires row_le_last { spot.row ≤ last }
{
    let row = read_row(table, spot.row);
    let beside = row_of(table, last, trial.value);
    let there = read_row(table, beside);
    let moving = row.lows.saturating_sub(row.highs);
    let own = growth(trial.low, trial.high, row.mark);
    let growing = moving.saturating_sub(own).clamp(1, MOST_UNITS as u64);
    let over = spot.over.min(growing);
    let most = much.min(MOST_PAIRS);
    if spot.level < trial.value {
        let passed = there.lows.saturating_sub(row.lows);
        let own_low = u64::from(spot.level < trial.low);
        let between = passed.saturating_sub(own_low).min(MOST_UNITS as u64);
        return turns(2 * between + 1, growing, over, most);
    }
    let passed = row.highs.saturating_sub(there.highs);
    let own_high = u64::from(trial.value < trial.high && trial.high <= spot.level);
    let between = passed.saturating_sub(own_high).min(MOST_UNITS as u64);
    turns(2 * between + 1, growing, (growing - over) % growing, most)
}
