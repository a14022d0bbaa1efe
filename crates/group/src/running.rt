// Narrowing the running members of a group's lists.
ghost use Rattle.std.specs.Prelude.{◌≡◌, ◌≤◌, length, take};
ghost use Rattle.model.specs.Running.{Marked};
ghost use Rattle.model.specs.Sound.{SoundRanges};
ghost use Rattle.narrow.specs.Inner.Turns.{Turned};
ghost use Rattle.group.specs.Inner.Turns.{MarkedTurned};

use model::running::{pack, running_count, unpack};
use model::{Question, Turn};
use narrow::ranges::narrow_core;

// Narrows the first members of lists in place, or says that there is no plan and leaves them as they were.
fn narrow_front(lows: &mut [u64], highs: &mut [u64], count: usize, question: Question) -> Turn
    requires sound_ranges { SoundRanges (take count lows.old) (take count highs.old) }
    requires count_in_bounds { (count ≤ length lows.old) × (count ≤ length highs.old) }
    ensures { Turned (take count lows.old) (take count highs.old) question.total question.limits result (take count lows.new) (take count highs.new) }
{
    narrow_core(&mut lows[..count], &mut highs[..count], question)
}

// The same for the running members of lists: their numbers go to the front, and back to their places.
fn narrow_packed(lows: &mut [u64], highs: &mut [u64], marks: &[u64], question: Question) -> Turn
    requires sound_ranges { SoundRanges lows.old highs.old }
    requires marked { Marked marks.now lows.old highs.old }
    ensures { MarkedTurned marks.now lows.old highs.old question.total question.limits result lows.new highs.new }
{
    let count = pack(marks, lows);
    pack(marks, highs);
    let turn = narrow_front(lows, highs, count, question);
    unpack(marks, lows, count);
    unpack(marks, highs, count);
    turn
}

// Narrows the running members of sound lists in place, or says that there is no plan and leaves them as they were.
pub fn narrow_running(
    lows: &mut [u64],
    highs: &mut [u64],
    marks: &[u64],
    question: Question,
) -> Turn
    requires sound_ranges { SoundRanges lows.old highs.old }
    requires marked { Marked marks.now lows.old highs.old }
    ensures { MarkedTurned marks.now lows.old highs.old question.total question.limits result lows.new highs.new }
{
    if running_count(marks) == marks.len() {
        return narrow_core(lows, highs, question);
    }
    narrow_packed(lows, highs, marks, question)
}
