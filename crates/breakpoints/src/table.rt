// Building the breakpoint table of a group.
ghost use Rattle.std.specs.Prelude.{◌≡◌, suc, ◌+◌, ◌*◌, ◌≤◌, ◌<◌, length};
ghost use Rattle.model.specs.Shares.{greatest_share};
ghost use Rattle.model.specs.Sound.{SoundRanges};
ghost use Rattle.breakpoints.specs.Inner.Walks.{First};
ghost use Rattle.breakpoints.specs.Inner.Steps.{Risen, RowReached, NextRow, Begun};
ghost use Rattle.breakpoints.specs.Inner.Tables.{Sums, SpanTo, RowMoved, square};

use crate::rows::Row;

// A share's part of the sum of squares.
pub fn square(x: u64) -> u64
    requires { x ≤ suc greatest_share }
    ensures { result ≡ square x }
{
    x * x
}

// A row moved to a further level, with no bound between: T rises in each step by the lows passed without the highs passed,
// and the sum of squares by as much for each of both levels.
fn row_at(lows: &[u64], highs: &[u64], row: Row, mark: u64) -> Row
    requires sound_ranges { SoundRanges lows.now highs.now }
    requires sums { Sums lows.now highs.now row }
    requires span_to { SpanTo lows.now highs.now row mark }
    requires mark_le_greatest_share { mark ≤ greatest_share }
    ensures { RowMoved lows.now highs.now row mark result }
{
    let step = mark - row.mark;
    let more = row.lows * step - row.highs * step;
    let total = row.total + more;
    let squares = row.squares + more * (row.mark + mark);
    Row {
        mark,
        total,
        squares,
        lows: row.lows,
        highs: row.highs,
    }
}

// Whether the next bound on the way up, after a lows and b highs, is a low.
fn low_first(lows: &[u64], highs: &[u64], a: usize, b: usize) -> bool
    requires a_in_bounds { a ≤ length lows.now }
    requires b_in_bounds { b ≤ length highs.now }
    requires b_in_bounds_2 { a + b < length lows.now + length highs.now }
    ensures { First lows.now highs.now a b result }
{
    a < lows.len() && (b == highs.len() || lows[a] <= highs[b])
}

// The row for the next bound on the way up.
pub fn next_row(lows: &[u64], highs: &[u64], starts: &[u64], stops: &[u64], row: Row) -> Row
    requires sound_ranges { SoundRanges lows.now highs.now }
    requires risen { Risen lows.now highs.now starts.now stops.now }
    requires row_reached { RowReached lows.now highs.now starts.now stops.now row }
    requires highs_bound { row.lows + row.highs < 2 * length starts.now }
    ensures { NextRow lows.now highs.now starts.now stops.now row result }
{
    let a = row.lows as usize;
    let b = row.highs as usize;
    if low_first(starts, stops, a, b) {
        let mut low = row_at(lows, highs, row, starts[a]);
        low.lows += 1;
        return low;
    }
    let mut high = row_at(lows, highs, row, stops[b]);
    high.highs += 1;
    high
}

// The row for level 0, at which the shares are the lows.
pub fn first_row(lows: &[u64], highs: &[u64]) -> Row
    requires { SoundRanges lows.now highs.now }
    ensures { Begun lows.now highs.now result }
{
    let mut copies: u64 = 0;
    let mut squares: u64 = 0;
    for low in lows {
        copies += low;
        squares += square(*low);
    }
    Row {
        mark: 0,
        total: copies,
        squares,
        lows: 0,
        highs: 0,
    }
}
