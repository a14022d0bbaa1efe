// The ends of a member's range: how far from its share plans give it values.
ghost use Rattle.std.specs.Prelude.{◌≤◌, ◌<◌, IfSome};
ghost use Rattle.model.specs.Figures.{apart};
ghost use Rattle.model.specs.Plans.{taken};
ghost use Rattle.probe.specs.Inner.Probes.{Probeable, LastWithin, pinned_total};
ghost use Rattle.breakpoints.specs.Inner.Rows.{row_at};
ghost use Rattle.probe.specs.Inner.Terms.{Termed};
ghost use Rattle.probe.specs.Inner.Verdicts.{Triable, Decides};
ghost use Rattle.range_ends.specs.Inner.Edges.{Amid, Edge, Approach, Search};
ghost use Rattle.range_ends.specs.Inner.Known.{SharedHolds, RowOf, EdgeFound, EndFound};

use crate::known::{Bracket, Shared, Way, noted};
use model::Question;
use model::numbers::apart;
use probe::pinned::{Trial, into_reach, last_within};
use probe::probing::{Tried, try_paired, try_value};
use probe::terms::{MOST_PAIRS, Terms};

// How many of Newton's steps an end gets before bisection takes over, which bounds the search.
const NEWTON_STEPS: u64 = 8;

// An end of a member's narrowed range, and what is known after it was found.
#[derive(Clone, Copy)]
pub(crate) struct End {
    pub(crate) value: u64,
    pub(crate) shared: Shared,
}

// Two values of a member, of which no plan gives it the outer one and some plan the inner one; how far inward of the outer
// one to look next, the row found for the outer one, and what is known of others.
#[derive(Clone, Copy)]
struct Gap {
    member: usize,
    outer: u64,
    inner: u64,
    inward: u64,
    row: usize,
    shared: Shared,
}

// How far inward to go next between two values that are so far apart: as far as said while tries are left, then halfway.
fn step_within(far: u64, inward: u64, tries: u64) -> u64
    requires { 1 < far }
    ensures { (0 < result) × (result < far) }
{
    if tries == 0 {
        return far / 2;
    }
    inward.clamp(1, far - 1)
}

// The value to try next, strictly between the two.
fn next_value(outer: u64, inner: u64, inward: u64, tries: u64) -> u64
    requires { 1 < apart outer inner }
    ensures { Amid outer inner result }
{
    let step = step_within(apart(outer, inner), inward, tries);
    if outer < inner {
        return outer + step;
    }
    outer - step
}

// Tries a value, by pairs too where these are limited. What pairs are asked with is copied first: what a call is handed lies in memory,
// and a trial without pairs is to stay out of it. It is compiled into both callers: as a call it makes narrowing a tenth slower.
#[inline(always)]
fn try_share(
    lows: &[u64],
    highs: &[u64],
    table: &[u64],
    question: Question,
    terms: Terms,
    trial: Trial,
) -> Tried
    requires { Triable lows.now highs.now table.now question.total question.limits terms trial.low trial.high trial.value }
    ensures decides { Decides lows.now highs.now question.total question.limits trial.low trial.high trial.value result.taken }
    ensures last_within { LastWithin table.now terms.last trial.low trial.high trial.value question.total result.row }
{
    if terms.pairs < MOST_PAIRS {
        let asked = terms;
        let same = trial;
        let paired = try_paired(lows, highs, table, asked, same);
        return Tried {
            taken: paired.taken,
            inward: paired.inward,
            row: paired.row,
        };
    }
    try_value(lows, highs, table, question, terms, trial)
}

// The value nearest to the outer one of a gap that some plan gives the member, and the one next to it.
fn edge(
    lows: &[u64],
    highs: &[u64],
    table: &[u64],
    question: Question,
    terms: Terms,
    gap: Gap,
) -> Bracket
    requires search { Search lows.now highs.now table.now question.total question.limits gap.member gap.outer gap.inner }
    requires row_of { RowOf lows.now highs.now table.now question.total gap.member gap.outer gap.row }
    requires termed { Termed lows.now highs.now table.now question.total question.limits terms }
    ensures { EdgeFound lows.now highs.now table.now question.total question.limits gap.member gap.outer gap.inner result }
{
    let member = gap.member;
    let low = lows[member];
    let high = highs[member];
    let mut inward = gap.inward;
    let mut row = gap.row;
    let mut tries = NEWTON_STEPS;
    let mut found = Bracket {
        inner: gap.inner,
        outer: gap.outer,
        near: None,
        far: row,
    };
    while 1 < found.outer.abs_diff(found.inner) {
        let value = next_value(found.outer, found.inner, inward, tries);
        let trial = Trial {
            low,
            high,
            value,
            row,
        };
        let tried = try_share(lows, highs, table, question, terms, trial);
        inward = tried.inward;
        row = tried.row;
        tries = tries.saturating_sub(1);
        if tried.taken {
            found.inner = value;
            found.near = Some(row);
        } else {
            found.outer = value;
            found.far = row;
        }
    }
    found
}

// The row of the inner value that a search came to: where that is the share itself, no trial has told it.
fn inner_row(table: &[u64], terms: Terms, trial: Trial, near: Option<usize>) -> usize
    requires probeable { Probeable table.now terms.last trial.low trial.high trial.value }
    requires value_bound { pinned_total (row_at table.now 0) trial.low trial.high trial.value ≤ terms.total }
    requires last_within { IfSome near (λ row. LastWithin table.now terms.last trial.low trial.high trial.value terms.total row) }
    ensures { LastWithin table.now terms.last trial.low trial.high trial.value terms.total result }
{
    near.unwrap_or_else(|| last_within(table, terms.last, trial, terms.total))
}

// The edge of a gap, with what is known afterwards.
fn edge_noted(
    lows: &[u64],
    highs: &[u64],
    table: &[u64],
    question: Question,
    terms: Terms,
    gap: Gap,
) -> End
    requires search { Search lows.now highs.now table.now question.total question.limits gap.member gap.outer gap.inner }
    requires row_of { RowOf lows.now highs.now table.now question.total gap.member gap.outer gap.row }
    requires termed { Termed lows.now highs.now table.now question.total question.limits terms }
    requires shared_holds { SharedHolds lows.now highs.now question.total question.limits gap.shared }
    ensures edge { Edge (taken lows.now highs.now question.total question.limits gap.member) gap.outer gap.inner result.value }
    ensures shared_holds_2 { SharedHolds lows.now highs.now question.total question.limits result.shared }
{
    let member = gap.member;
    let found = edge(lows, highs, table, question, terms, gap);
    let low = lows[member];
    let high = highs[member];
    let trial = Trial {
        low,
        high,
        value: found.inner,
        row: found.far,
    };
    let near = inner_row(table, terms, trial, found.near);
    let shared = noted(table, terms.last, low, high, gap.shared, found, near);
    End {
        value: found.inner,
        shared,
    }
}

// How far from the share to the end plans give the member values, by trials.
pub(crate) fn search(
    lows: &[u64],
    highs: &[u64],
    table: &[u64],
    question: Question,
    terms: Terms,
    way: Way,
) -> End
    requires approach { Approach lows.now highs.now table.now question.total question.limits way.member way.end way.share }
    requires termed { Termed lows.now highs.now table.now question.total question.limits terms }
    requires shared_holds { SharedHolds lows.now highs.now question.total question.limits way.shared }
    ensures { EndFound lows.now highs.now question.total question.limits way.member way.end way.share result }
{
    let member = way.member;
    let low = lows[member];
    let high = highs[member];
    let last = terms.last;
    let value = into_reach(table, last, low, high, way.end, terms.total);
    let row = way.row;
    let trial = Trial {
        low,
        high,
        value,
        row,
    };
    let tried = try_share(lows, highs, table, question, terms, trial);
    let row = tried.row;
    if tried.taken {
        let found = Bracket {
            inner: value,
            outer: value,
            near: Some(row),
            far: row,
        };
        let shared = noted(table, last, low, high, way.shared, found, row);
        return End { value, shared };
    }
    let gap = Gap {
        member,
        outer: value,
        inner: way.share,
        inward: tried.inward,
        row,
        shared: way.shared,
    };
    edge_noted(lows, highs, table, question, terms, gap)
}
