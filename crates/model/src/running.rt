// Running members: their number, and their numbers at the front of a list.
ghost use Rattle.std.specs.Prelude.{◌≡◌, length, take};
ghost use Rattle.model.specs.Running.{runs, running, restored};
ghost use Rattle.model.specs.Shares.{pick};

use crate::RUNNING;

// 1 for a running member, 0 for a shut one.
fn count_of(mark: u64) -> usize
    ensures { result ≡ pick (runs mark) 1 0 }
{
    usize::from(mark == RUNNING)
}

// A running member's number, 0 for a shut one.
pub fn if_running(mark: u64, number: u64) -> u64
    ensures { result ≡ pick (runs mark) number 0 }
{
    if mark == RUNNING { number } else { 0 }
}

// How many members are running.
pub fn running_count(marks: &[u64]) -> usize
    ensures { result ≡ length (running marks.now marks.now) }
{
    // Added up without a branch: a `filter` has one for each mark, and takes longer in a large group.
    let mut count: usize = 0;
    for mark in marks {
        count += count_of(*mark);
    }
    count
}

// Moves the running members' numbers to the front of a list of all members', and hands back how many they are.
pub fn pack(marks: &[u64], numbers: &mut [u64]) -> usize
    requires { length numbers.old ≡ length marks.now }
    ensures value { result ≡ length (running marks.now numbers.old) }
    ensures numbers_after { take result numbers.new ≡ running marks.now numbers.old }
{
    let mut count: usize = 0;
    for (i, mark) in marks.iter().enumerate() {
        // A shut member's number is written over by the next running one's.
        numbers[count] = numbers[i];
        count += count_of(*mark);
    }
    count
}

// Moves the first numbers of a list to the running members' places, the last one first, with 0 for each shut member.
pub fn unpack(marks: &[u64], numbers: &mut [u64], count: usize)
    requires numbers_len { length numbers.old ≡ length marks.now }
    requires count_value { count ≡ length (running marks.now marks.now) }
    ensures { numbers.new ≡ restored marks.now (take count numbers.old) }
{
    let mut left = count;
    for (i, mark) in marks.iter().enumerate().rev() {
        left -= count_of(*mark);
        numbers[i] = if_running(*mark, numbers[left]);
    }
}
