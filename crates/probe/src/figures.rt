// The sum of squares of a pinned group's shares at the level reached, from a row of the table.
ghost use Rattle.probe.specs.Inner.Figures.{MovedSquares, Summable};

use crate::pinned::Reach;
use breakpoints::rows::Row;

// The sum of squares of the pinned group's shares. Each of the growing members' squares rises from the row's level by as many
// copies as each gets, and those with one of the copies left over rise by one more.
pub fn pinned_squares(row: Row, own: u64, v: u64, reach: Reach) -> u64
    requires { Summable row own v reach }
    ensures { MovedSquares row own v reach result }
{
    let with_value = row.squares + v * v - own * own;
    let each = reach.each;
    with_value + reach.copies * (2 * row.mark + each) + reach.over * (each + 1)
}
