// The pinned group's level, from the table.
ghost use Rattle.std.specs.Prelude.{◌≡◌, ◌+◌, ◌-◌, ◌≤◌, ◌<◌};
ghost use Rattle.model.specs.Shares.{greatest_total};
ghost use Rattle.model.specs.Levels.{clamp, growth};
ghost use Rattle.breakpoints.specs.Inner.Rows.{row_at};
ghost use Rattle.probe.specs.Inner.Probes.{Pinnable, Probeable, LastWithin, IntoReach, Divided, pinned_total};

use breakpoints::rows::{Row, read_row};
use model::levels::{clamp, growth};

// A value to try for a member with this low and high, and a row to look at first. 0 for a member with the range 0 to 0
// changes no sum: the group itself.
#[derive(Clone, Copy)]
pub struct Trial {
    pub low: u64,
    pub high: u64,
    pub value: u64,
    pub row: usize,
}

// A level that the copies left over at a row reach: how many members grow from there, the copies, how many each of them
// gets, the level, and the copies left over there.
#[derive(Clone, Copy)]
pub struct Reach {
    pub growing: u64,
    pub copies: u64,
    pub each: u64,
    pub level: u64,
    pub over: u64,
}

// T at a row's level of the group with v in place of a member's own.
#[tactic(auto, unfolding(crate::specs::Inner::Probes::pinned_total))]
pub fn pinned_total(row: Row, low: u64, high: u64, v: u64) -> u64
    requires { Pinnable row low high v }
    ensures { result ≡ pinned_total row low high v }
{
    row.total + v - clamp(low, high, row.mark)
}

// A row strictly between two others: near where it is one, else a step from the one next to near, or halfway where that is too far.
fn row_between(k: usize, top: usize, near: usize, step: usize) -> usize
    requires bound { 1 < top - k }
    requires step_nonzero { 0 < step }
    ensures { (k < result) × (result < top) }
{
    let gap = top - k;
    if gap <= step {
        return k + gap / 2;
    }
    if near <= k {
        return k + step;
    }
    if top <= near {
        return top - step;
    }
    near
}

// The last row with the pinned group's T at most the total, searched from the trial's row by growing steps between k, which has it, and top, which has not or is past the last.
pub fn last_within(table: &[u64], last: usize, trial: Trial, total: u64) -> usize
    requires probeable { Probeable table.now last trial.low trial.high trial.value }
    requires value_bound { pinned_total (row_at table.now 0) trial.low trial.high trial.value ≤ total }
    ensures { LastWithin table.now last trial.low trial.high trial.value total result }
{
    let mut k: usize = 0;
    let mut top: usize = last + 1;
    let mut step: usize = 1;
    while 1 < top - k {
        let middle = row_between(k, top, trial.row, step);
        let row = read_row(table, middle);
        step = (2 * step).min(512);
        if pinned_total(row, trial.low, trial.high, trial.value) <= total {
            k = middle;
        } else {
            top = middle;
        }
    }
    k
}

// A value moved to where the other members can make up for it.
pub fn into_reach(table: &[u64], last: usize, low: u64, high: u64, v: u64, total: u64) -> u64
    requires probeable { Probeable table.now last low high v }
    requires total_le_greatest_total { total ≤ greatest_total }
    requires v_bound { pinned_total (row_at table.now 0) low high v ≤ total + v }
    ensures { IntoReach table.now last low high v total result }
{
    let end = read_row(table, last);
    let greatest = pinned_total(end, low, high, v);
    if greatest < total {
        return v + (total - greatest);
    }
    let first = read_row(table, 0);
    let least = pinned_total(first, low, high, v);
    if total < least {
        return v - (least - total);
    }
    v
}

// The level that the copies left over at a row reach.
pub fn reach_from(row: Row, low: u64, high: u64, copies: u64) -> Reach
    requires mark_bound { 0 < copies → row.highs + growth low high row.mark < row.lows }
    requires copies_bound { row.mark + copies ≤ 1_000_000_000 }
    ensures { Divided row low high copies result }
{
    if copies == 0 {
        return Reach {
            growing: 0,
            copies,
            each: 0,
            level: row.mark,
            over: 0,
        };
    }
    let growing = row.lows - (row.highs + growth(low, high, row.mark));
    let each = copies / growing;
    Reach {
        growing,
        copies,
        each,
        level: row.mark + each,
        over: copies % growing,
    }
}
