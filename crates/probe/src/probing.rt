// Probes of pinned values on the breakpoint table of a group.
ghost use Rattle.std.specs.Prelude.{◌≡◌, ◌<◌};
ghost use Rattle.probe.specs.Inner.Probes.{LastWithin};
ghost use Rattle.breakpoints.specs.Inner.Distances.{most_pairs};
ghost use Rattle.probe.specs.Inner.Pairs.{SpotBelow};
ghost use Rattle.probe.specs.Inner.Verdicts.{Lookable, Triable, PinnedFigures, within_terms, Judged, DecidesFor, LevelledOn};

use crate::figures::pinned_squares;
use crate::newton::newton_step;
use crate::pairs::{LevelSpot, pair_step, pinned_pairs};
use crate::pinned::{Trial, last_within, pinned_total, reach_from};
use crate::sides::pinned_half;
use crate::terms::{MOST_PAIRS, Terms};
use breakpoints::rows::read_row;
use model::numbers::apart;
use model::{Question, Share};

// What a look at a pinned group finds: half of the deviation and the sum of squares of its levelled shares, and the level
// of the others there with the copies left over.
#[derive(Clone, Copy)]
struct Pinned {
    half: u64,
    squares: u64,
    level: u64,
    over: u64,
}

// Looks a pinned group up in the table, at the row below its level. The row is searched for ahead of this: what is left is
// small enough to be compiled into each caller.
fn look(lows: &[u64], highs: &[u64], table: &[u64], terms: Terms, trial: Trial, k: usize) -> Pinned
    requires lookable { Lookable lows.now highs.now table.now terms trial.low trial.high trial.value }
    requires last_within { LastWithin table.now terms.last trial.low trial.high trial.value terms.total k }
    ensures pinned_figures { PinnedFigures lows.now highs.now terms trial.low trial.high trial.value result }
    ensures spot_below { SpotBelow table.now terms.last k result.level result.over }
{
    let row = read_row(table, k);
    let copies = terms.total - pinned_total(row, trial.low, trial.high, trial.value);
    let reach = reach_from(row, trial.low, trial.high, copies);
    let own = row.mark.clamp(trial.low, trial.high);
    let squares = pinned_squares(row, own, trial.value, reach);
    let half = pinned_half(terms, trial, reach);
    Pinned {
        half,
        squares,
        level: reach.level,
        over: reach.over,
    }
}

// Whether the limits of deviation and spread allow what was found.
fn within(terms: Terms, pinned: Pinned) -> bool
    ensures { result ≡ within_terms terms pinned }
{
    pinned.half <= terms.half && pinned.squares <= terms.squares
}

// What a trial tells: whether the group with the member pinned to the value has a plan, how far inward of the last value
// without one to look next, and the row found.
#[derive(Clone, Copy)]
pub struct Tried {
    pub taken: bool,
    pub inward: u64,
    pub row: usize,
}

// How far inward of a value beyond the limits of deviation and spread to look next.
fn step_inward(terms: Terms, trial: Trial, pinned: Pinned) -> u64 {
    let squares = pinned.squares.saturating_sub(terms.squares);
    let half = pinned.half.saturating_sub(terms.half);
    let distance = apart(trial.value, pinned.level);
    newton_step(squares, half, distance, terms.count)
}

// Tries a value under the limits of deviation and spread. Newton's steps do not pass the last value that is taken, so that after a
// value with a plan the one next to it comes: as far inward as can be. The question is there for the contract: the terms are of it.
pub fn try_value(
    lows: &[u64],
    highs: &[u64],
    table: &[u64],
    question: Question,
    terms: Terms,
    trial: Trial,
) -> Tried
    requires { Triable lows.now highs.now table.now question.total question.limits terms trial.low trial.high trial.value }
    ensures judged { Judged lows.now highs.now question.total question.limits terms trial.low trial.high trial.value result.taken }
    ensures last_within { LastWithin table.now terms.last trial.low trial.high trial.value question.total result.row }
{
    let row = last_within(table, terms.last, trial, terms.total);
    let pinned = look(lows, highs, table, terms, trial, row);
    let taken = within(terms, pinned);
    let inward = if taken {
        Share::GREATEST
    } else {
        step_inward(terms, trial, pinned)
    };
    Tried { taken, inward, row }
}

// Tries a value under all three limits, pairs last.
pub fn try_paired(lows: &[u64], highs: &[u64], table: &[u64], terms: Terms, trial: Trial) -> Tried
    requires lookable { Lookable lows.now highs.now table.now terms trial.low trial.high trial.value }
    requires pairs_lt_most_pairs { terms.pairs < most_pairs }
    ensures decides_for { DecidesFor lows.now highs.now terms trial.low trial.high trial.value result.taken }
    ensures last_within { LastWithin table.now terms.last trial.low trial.high trial.value terms.total result.row }
{
    let row = last_within(table, terms.last, trial, terms.total);
    let found = look(lows, highs, table, terms, trial, row);
    if !within(terms, found) {
        let inward = step_inward(terms, trial, found);
        return Tried {
            taken: false,
            inward,
            row,
        };
    }
    let spot = LevelSpot {
        row,
        level: found.level,
        over: found.over,
    };
    let pairs = pinned_pairs(lows, highs, table, terms, trial, spot);
    let taken = pairs <= terms.pairs;
    let inward = if taken {
        Share::GREATEST
    } else {
        pair_step(table, terms.last, trial, spot, pairs - terms.pairs)
    };
    Tried { taken, inward, row }
}

// A level with the copies left over there, the row below it, and whether the limits allow the shares there.
#[derive(Clone, Copy)]
pub struct GroupLevel {
    pub row: usize,
    pub level: u64,
    pub over: u64,
    pub planned: bool,
}

// Whether the group itself has a plan, by what was found of it, and by pairs where these are limited.
fn meets_all(
    lows: &[u64],
    highs: &[u64],
    table: &[u64],
    terms: Terms,
    whole: Trial,
    pinned: Pinned,
) -> bool
    requires lookable { Lookable lows.now highs.now table.now terms whole.low whole.high whole.value }
    requires pinned_figures { PinnedFigures lows.now highs.now terms whole.low whole.high whole.value pinned }
    ensures { DecidesFor lows.now highs.now terms whole.low whole.high whole.value result }
{
    if MOST_PAIRS <= terms.pairs {
        return within(terms, pinned);
    }
    try_paired(lows, highs, table, terms, whole).taken
}

// The level at which the group has its total, and whether it has a plan: the group itself is one with 0 pinned to 0.
pub fn level_on(lows: &[u64], highs: &[u64], table: &[u64], terms: Terms) -> GroupLevel
    requires { Lookable lows.now highs.now table.now terms 0 0 0 }
    ensures { LevelledOn lows.now highs.now table.now terms result }
{
    let whole = Trial {
        low: 0,
        high: 0,
        value: 0,
        row: terms.last / 2,
    };
    let row = last_within(table, terms.last, whole, terms.total);
    let pinned = look(lows, highs, table, terms, whole, row);
    let planned = meets_all(lows, highs, table, terms, whole, pinned);
    GroupLevel {
        row,
        level: pinned.level,
        over: pinned.over,
        planned,
    }
}
