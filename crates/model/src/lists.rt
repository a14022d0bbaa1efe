// Lists of numbers.
ghost use Rattle.std.specs.Prelude.{◌≡◌, ◌≤◌, length};
ghost use Rattle.model.specs.Shares.{most_units};

use crate::MOST_UNITS;

// Room for a number of each unit. What it holds is not said, so that no proof above opens 256 numbers.
pub fn room() -> [u64; MOST_UNITS]
    ensures { most_units ≤ length result }
{
    [0; MOST_UNITS]
}

// Copies a list over another of the same length. It goes by a loop: the library's method needs memmove of whoever links the archive, and
// takes longer for a few numbers.
pub fn copy(from: &[u64], to: &mut [u64])
    requires { length to.old ≡ length from.now }
    ensures { to.new ≡ from.now }
{
    for (i, x) in from.iter().enumerate() {
        to[i] = *x;
    }
}
