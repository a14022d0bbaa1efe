// Newton's step: how far inward of a value beyond the limits the first one within them can lie. It is tried there next,
// so that the step matters to the time alone.
ghost use Rattle.std.specs.Prelude.{◌≤◌, ◌<◌};
ghost use Rattle.breakpoints.specs.Inner.Distances.{most_pairs};

// The step from a value at some distance from the level of the other members, where the squares and the part above the mean are
// over by so much. Both are convex in the value: one value inward takes at most twice the distance off the squares, and n off the part.
pub fn newton_step(squares: u64, half: u64, distance: u64, count: u64) -> u64 {
    let by_squares = squares.div_ceil(2).div_ceil(distance.max(1));
    let by_half = half.div_ceil(count.max(1));
    by_squares.max(by_half)
}

// One of Newton's steps down to the fewest steps with s × (least + s) at least so much, from a number of steps that is not too small.
fn nearer(steps: u64, least: u64, much: u64) -> u64
    requires { (steps ≤ 1024) × (0 < least) × (least ≤ 8192) × (much ≤ most_pairs) }
    ensures { result ≤ 1024 }
{
    ((steps * steps + much) / (least + 2 * steps)).min(1024)
}

// How many steps of a turn take so much off, where the first takes off one more than the least, and each further one two more
// than the one before. It may be a little too few.
fn steps_of_turn(least: u64, most: u64, much: u64) -> u64
    requires { (most ≤ 1024) × (0 < least) × (least ≤ 8192) × (much ≤ most_pairs) }
    ensures { result ≤ most_pairs }
{
    let near = nearer(most, least, much);
    much.div_ceil(least + nearer(near, least, much))
}

// How many steps take so much off, where they go in turns of so many, and some of the first turn are done.
pub fn turns(least: u64, growing: u64, done: u64, much: u64) -> u64
    requires { (0 < least) × (least ≤ 4096) × (0 < growing) × (growing ≤ 1024) × (done ≤ growing) × (much ≤ most_pairs) }
{
    let rest = growing - done;
    let next = least + 2 * done;
    let first = rest * (next + rest);
    if much <= first {
        return steps_of_turn(next, rest, much);
    }
    let left = much - first;
    let turn = growing * (least + growing);
    rest + left / turn * growing + steps_of_turn(least, growing, left % turn)
}
