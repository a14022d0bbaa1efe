// What one member's search tells of other members: whether a value is taken depends on the member's range only where it ends between
// the levels of the rows concerned.
ghost use Rattle.std.specs.Prelude.{true, ◌≡◌, ◌+◌, ◌*◌, ◌<◌, ◌≤◌, length, IfSome};
ghost use Rattle.model.specs.Shares.{greatest_share};
ghost use Rattle.range_ends.specs.Inner.Known.{EndKnown, EdgeKnown, SeenTo, Noted};

use breakpoints::rows::read_row;
use model::Share;

// What is known of every member with low at most under and high at least over: some plan gives it inner and, where outer
// is another value, the one next to inner, none gives it outer.
#[derive(Clone, Copy)]
pub(crate) struct Shared {
    pub(crate) under: u64,
    pub(crate) over: u64,
    pub(crate) inner: u64,
    pub(crate) outer: u64,
}

// Nothing is known of any member: no high is so great.
pub(crate) fn nothing_known() -> Shared
    ensures { greatest_share < result.over }
{
    Shared {
        under: 0,
        over: Share::GREATEST + 1,
        inner: 0,
        outer: 0,
    }
}

// A share that some plan gives a member, an end of the member's range, a row to look at first, and what is known of others.
#[derive(Clone, Copy)]
pub(crate) struct Way {
    pub(crate) member: usize,
    pub(crate) share: u64,
    pub(crate) end: u64,
    pub(crate) row: usize,
    pub(crate) shared: Shared,
}

// Whether something is known of a member with this low and high.
fn told(low: u64, high: u64, shared: Shared) -> bool
    ensures { result ≡ true → (low ≤ shared.under) × (shared.over ≤ high) }
{
    low <= shared.under && shared.over <= high
}

// Whether the end lies between the share and a value that is known to be taken.
fn end_known(low: u64, high: u64, way: Way) -> bool
    ensures { result ≡ true → EndKnown low high way.share way.end way.shared }
{
    let within = if way.end < way.share {
        way.shared.inner <= way.end
    } else {
        way.end <= way.shared.inner
    };
    told(low, high, way.shared) && within
}

// Whether two different values lie between two others, all in order.
fn in_order(first: u64, second: u64, third: u64, fourth: u64) -> bool
    ensures { result ≡ true → (first ≤ second) × (second < third) × (third ≤ fourth) }
{
    first <= second && second < third && third <= fourth
}

// Whether a known edge lies between the share and the end.
fn edge_known(low: u64, high: u64, way: Way) -> bool
    ensures { result ≡ true → EdgeKnown low high way.share way.end way.shared }
{
    let between = if way.end < way.share {
        in_order(way.end, way.shared.outer, way.shared.inner, way.share)
    } else {
        in_order(way.share, way.shared.inner, way.shared.outer, way.end)
    };
    told(low, high, way.shared) && between
}

// How far from the share to the end plans give a member values, where that needs no trial: some plan gives the share itself, and others'
// searches tell the rest.
pub(crate) fn seen_at(low: u64, high: u64, way: Way) -> Option<u64>
    ensures { IfSome result (λ value. SeenTo low high way.share way.end way.shared value) }
{
    if way.end == way.share || end_known(low, high, way) {
        return Some(way.end);
    }
    if edge_known(low, high, way) {
        return Some(way.shared.inner);
    }
    None
}

// A value that some plan gives a member and one that none gives it, or the same again. Near is the row found for inner, where it
// was tried, and far the row found for outer.
#[derive(Clone, Copy)]
pub(crate) struct Bracket {
    pub(crate) inner: u64,
    pub(crate) outer: u64,
    pub(crate) near: Option<usize>,
    pub(crate) far: usize,
}

// What is known after values of a member with this low and high were found, near being the row of the inner one: they serve others
// where the range reaches over both rows.
pub(crate) fn noted(
    table: &[u64],
    last: usize,
    low: u64,
    high: u64,
    was: Shared,
    found: Bracket,
    near: usize,
) -> Shared
    requires { (7 * last + 7 ≤ length table.now) × (last ≤ 512) }
    ensures { Noted table.now last low high was found near result }
{
    let top = near.max(found.far);
    if last <= top {
        return was;
    }
    let under = read_row(table, near.min(found.far)).mark;
    if under < low {
        return was;
    }
    let over = read_row(table, top + 1).mark;
    if high < over {
        return was;
    }
    Shared {
        under,
        over,
        inner: found.inner,
        outer: found.outer,
    }
}
