// The checks on a table ahead of settling.
ghost use Rattle.std.specs.Prelude.{◌≡◌, ◌≤◌, length};
ghost use Rattle.model.specs.Shares.{most_units};
ghost use Rattle.works.specs.Calls.{has_room, check_table};

use list_checks::check_lists;
use model::Refusal;

// Whether lists of these lengths are long enough for the units.
fn has_room(units: usize, lows: usize, highs: usize, scratch: usize) -> bool
    requires { units ≤ most_units }
    ensures { result ≡ has_room units lows highs scratch }
{
    units <= lows && units <= highs && 8 * units <= scratch
}

// The first refusal ahead of settling that the table, over units with these marks, and the scratch cause.
pub fn check_table(
    marks: &[u64],
    units: usize,
    lows: &[u64],
    highs: &[u64],
    scratch: usize,
) -> Result<(), Refusal>
    requires { units ≤ most_units }
    ensures { result ≡ check_table marks.now units lows.now highs.now scratch }
{
    if !has_room(units, lows.len(), highs.len(), scratch) {
        return Err(Refusal {
            number: 1,
            place: 0,
        });
    }
    check_lists(&lows[..units], &highs[..units], marks, units, true)
}
