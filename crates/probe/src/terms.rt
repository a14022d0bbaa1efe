// What the trials of a turn compare with: the numbers of a group, and its limits as numbers.
ghost use Rattle.std.specs.Prelude.{true, false, ◌≡◌, ◌≤◌, length};
ghost use Rattle.model.specs.Figures.{allows};
ghost use Rattle.model.specs.Shares.{greatest_total, most_units};
ghost use Rattle.breakpoints.specs.Inner.Tables.{SoundWithTotal};
ghost use Rattle.probe.specs.Inner.Terms.{HalfAllowed, SquaresAllowed, PairsAllowed, Termed};
ghost use Rattle.breakpoints.specs.Inner.Distances.{most_pairs};

use crate::sides::both_sides;
use breakpoints::rows::last_row;
use model::{Limit, Question};

// How many members a group has, the last row of its table and its total; the most that may lie above the mean, the greatest sum
// of squares and the greatest pair differences that the limits allow; and the sums over its bounds that the part above the mean comes of.
#[derive(Clone, Copy)]
pub struct Terms {
    pub count: u64,
    pub last: usize,
    pub total: u64,
    pub half: u64,
    pub squares: u64,
    pub pairs: u64,
    pub above: u64,
    pub below: u64,
}

// More than any figure: in the place of the word any.
const UNLIMITED: u64 = u64::MAX;

// No pair differences of a group's shares are greater: 256 members, and a total of 256,000,000.
pub const MOST_PAIRS: u64 = 65_536_000_000;

// A spread limit past this one allows every spread.
const MOST_SPREAD: u64 = 1_000_000_000_000_000_000;

// The most that may lie above the mean, of which the deviation is twice as much.
fn half_of(limit: Limit) -> u64
    ensures { HalfAllowed limit result }
{
    let Limit::AtMost(most) = limit else {
        return UNLIMITED;
    };
    most / 2
}

// The greatest sum of squares with a spread that the limit allows. Without members there is one spread, 0.
fn squares_of(limit: Limit, count: u64, total: u64) -> u64
    requires count_le_most_units { count ≤ most_units }
    requires total_le_greatest_total { total ≤ greatest_total }
    ensures { SquaresAllowed limit count total result }
{
    let Limit::AtMost(most) = limit else {
        return UNLIMITED;
    };
    if count == 0 || MOST_SPREAD < most {
        return UNLIMITED;
    }
    (most + total * total) / count
}

// The greatest pair differences that the limit allows.
fn pairs_of(limit: Limit) -> u64
    ensures { PairsAllowed limit result }
{
    let Limit::AtMost(most) = limit else {
        return MOST_PAIRS;
    };
    most
}

// Whether the limit rules out any pair differences that a group's shares can have.
pub fn limits_pairs(limit: Limit) -> bool
    ensures { result ≡ false → allows limit most_pairs ≡ true }
{
    pairs_of(limit) < MOST_PAIRS
}

// The terms of a group's turn.
pub fn terms_of(lows: &[u64], highs: &[u64], table: &[u64], question: Question) -> Terms
    requires sound_with_total { SoundWithTotal lows.now highs.now question.total }
    requires in_bounds { 7 ≤ length table.now }
    ensures { Termed lows.now highs.now table.now question.total question.limits result }
{
    let count = lows.len() as u64;
    let total = question.total;
    let limits = question.limits;
    let sides = both_sides(lows, highs, total);
    Terms {
        count,
        last: last_row(table),
        total,
        half: half_of(limits.deviation),
        squares: squares_of(limits.spread, count, total),
        pairs: pairs_of(limits.pairs),
        above: sides.above,
        below: sides.below,
    }
}
