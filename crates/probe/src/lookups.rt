// Distances looked up in a table by a turn's terms.
ghost use Rattle.std.specs.Prelude.{◌≡◌, ◌≤◌};
ghost use Rattle.model.specs.Shares.{sum_of, greatest_share};
ghost use Rattle.model.specs.Figures.{apart};
ghost use Rattle.model.specs.Levels.{clamped};
ghost use Rattle.breakpoints.specs.Inner.Distances.{DistancesAt, MarkedBelow};
ghost use Rattle.probe.specs.Inner.Lookups.{PairLookable};

use crate::terms::Terms;
use breakpoints::distances::{Distances, distances_at, row_of};
use breakpoints::rows::{read_pair_row, read_row};

// The distances at a level, from the row below it.
pub fn distances_on(
    lows: &[u64],
    highs: &[u64],
    table: &[u64],
    terms: Terms,
    k: usize,
    level: u64,
) -> Distances
    requires pair_lookable { PairLookable lows.now highs.now table.now terms }
    requires marked_below { MarkedBelow table.now terms.last level k }
    requires level_le_greatest_share { level ≤ greatest_share }
    ensures { DistancesAt lows.now highs.now level result }
{
    let row = read_row(table, k);
    let here = read_pair_row(table, k);
    distances_at(terms.count, row, here, level)
}

// How far a value is in all from the shares at a level: as far as from those at its own, and what T moves from there.
pub fn far_from(
    lows: &[u64],
    highs: &[u64],
    table: &[u64],
    terms: Terms,
    here: Distances,
    value: u64,
) -> u64
    requires pair_lookable { PairLookable lows.now highs.now table.now terms }
    requires distances_at { DistancesAt lows.now highs.now here.level here }
    requires level_le_greatest_share { (here.level ≤ greatest_share) × (value ≤ greatest_share) }
    ensures { result ≡ sum_of (apart value) (clamped lows.now highs.now here.level) }
{
    if value == here.level {
        return here.far;
    }
    let k = row_of(table, terms.last, value);
    let there = distances_on(lows, highs, table, terms, k, value);
    there.far + there.total.abs_diff(here.total)
}
