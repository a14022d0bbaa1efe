// Distances and pair differences of a group's shares at a level, from the row below it.
ghost use Rattle.breakpoints.specs.Inner.Distances.{DistancesMoved, DistancesMovable, MarkedBelow, MarksKept};

use crate::rows::{PairRow, Row, read_row};

// A level, T there, how far the shares there are from it in all, and their pair differences.
#[derive(Clone, Copy)]
pub struct Distances {
    pub level: u64,
    pub total: u64,
    pub far: u64,
    pub pairs: u64,
}

// The distances at a level with no bound between it and a row's. With the level, the members between the lows and the highs passed
// move away from those at their highs, and towards those at their lows.
pub fn distances_at(count: u64, row: Row, here: PairRow, level: u64) -> Distances
    requires { DistancesMovable count row here level }
    ensures { DistancesMoved count row here level result }
{
    let step = level - row.mark;
    let more = row.lows * step - row.highs * step;
    let passed = row.lows + row.highs;
    Distances {
        level,
        total: row.total + more,
        far: here.far + passed * step - count * step,
        pairs: here.pairs + more * passed - more * count,
    }
}

// The last row with its level at or below a value, by bisection.
pub fn row_of(table: &[u64], last: usize, value: u64) -> usize
    requires { MarksKept table.now last }
    ensures { MarkedBelow table.now last value result }
{
    let mut k: usize = 0;
    let mut top: usize = last + 1;
    while 1 < top - k {
        let middle = k + (top - k) / 2;
        let row = read_row(table, middle);
        if row.mark <= value {
            k = middle;
        } else {
            top = middle;
        }
    }
    k
}
