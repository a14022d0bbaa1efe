// The groups of a job and the marks of its units as one flat list of numbers: heads are written and read here, and marks written.
// Who stores a group's members puts them right behind its head, and who reads the marks finds them from MARKS on.
#![tactic(auto)]

ghost use Rattle.std.specs.Prelude.{◌+◌, ◌≤◌, ◌<◌, ◌≡◌, length, set};
ghost use Rattle.std.proofs.lemmas.List.Edits.{sets};
ghost use Rattle.groups.specs.Inner.Flat.{most_flat, marks_from, Coded, PairsCoded, limit_code, limit_of, pairs_code, pairs_of, head_of, stored_at, WholeAt};

use model::{Limit, Limits};

// The numbers in front of a group's members: total, deviation limit, spread limit, pairs limit, number of members.
pub const HEAD: usize = 5;

// Where the marks of the units begin, behind the groups of every job: 64 heads and 4,096 memberships.
pub const MARKS: usize = 4416;

// The numbers that every job takes: its groups, and a mark for each of 256 units.
pub const MOST_FLAT: usize = 4672;

// Room for the groups and marks of every job. What it holds is not said, so that no proof above opens its numbers.
pub fn flat_room() -> [u64; MOST_FLAT]
    ensures { most_flat ≤ length result }
{
    [0; MOST_FLAT]
}

// A group in the list: its total and limits, whether a pairs limit was there, where its members begin, how many they are, and where the next group starts.
#[derive(Clone, Copy)]
pub struct Stored {
    pub total: u64,
    pub limits: Limits,
    pub pairs_there: bool,
    pub from: usize,
    pub count: usize,
    pub next: usize,
}

// The number that a limit is stored as: 0 for any, else one more than the limit.
fn limit_code(limit: Limit) -> u64
    requires { Coded limit }
    ensures { result ≡ limit_code limit }
{
    match limit {
        Limit::Any => 0,
        Limit::AtMost(most) => most + 1,
    }
}

// The limit that a number stands for.
fn limit_of(code: u64) -> Limit
    ensures { result ≡ limit_of code }
{
    match code {
        0 => Limit::Any,
        _ => Limit::AtMost(code - 1),
    }
}

// The number that a pairs limit is stored as: 0 where it was not there, 1 for any, else two more than the limit.
fn pairs_code(there: bool, limit: Limit) -> u64
    requires { PairsCoded limit }
    ensures { result ≡ pairs_code there limit }
{
    if there { limit_code(limit) + 1 } else { 0 }
}

// The pairs limit that a number stands for: any where it was not there.
fn pairs_of(code: u64) -> Limit
    ensures { result ≡ pairs_of code }
{
    match code {
        0 => Limit::Any,
        _ => limit_of(code - 1),
    }
}

// Writes a group's head at an index, in front of its members.
#[tactic(auto, using(model::proofs::Laws::Writing::part_written))]
pub fn put_group(
    flat: &mut [u64],
    at: usize,
    total: u64,
    limits: Limits,
    pairs_there: bool,
    count: usize,
)
    requires { (at + 5 ≤ length flat.old) × Coded limits.deviation × Coded limits.spread × PairsCoded limits.pairs }
    ensures { flat.new ≡ sets flat.old at (head_of total limits pairs_there count) }
{
    flat[at..at + HEAD].copy_from_slice(&[
        total,
        limit_code(limits.deviation),
        limit_code(limits.spread),
        pairs_code(pairs_there, limits.pairs),
        count as u64,
    ]);
}

// The group at an index.
pub fn group_at(flat: &[u64], at: usize) -> Stored
    requires { WholeAt flat.now at }
    ensures { result ≡ stored_at flat.now at }
{
    // Read one by one: a pattern for five numbers needs a branch for a list that is too short.
    let code = flat[at + 3];
    let limits = Limits {
        deviation: limit_of(flat[at + 1]),
        spread: limit_of(flat[at + 2]),
        pairs: pairs_of(code),
    };
    let count = flat[at + 4] as usize;
    let from = at + HEAD;
    Stored {
        total: flat[at],
        limits,
        pairs_there: code != 0,
        from,
        count,
        next: from + count,
    }
}

// Writes the mark of a unit: 0 for a running one, 1 for a shut one.
pub fn put_mark(flat: &mut [u64], unit: usize, mark: u64)
    requires { marks_from + unit < length flat.old }
    ensures { flat.new ≡ set flat.old (marks_from + unit) mark }
{
    flat[MARKS + unit] = mark;
}
