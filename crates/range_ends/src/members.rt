// Narrowing the ranges of a group's members, one after another.
ghost use Rattle.std.specs.Prelude.{◌≡◌, length};
ghost use Rattle.model.specs.Shares.{pick};
ghost use Rattle.range_ends.specs.Inner.Members.{narrowed_ends, Narrowable};

use crate::ends::search;
use crate::known::{Way, nothing_known, seen_at};
use model::Question;
use model::levels::extra;
use probe::probing::GroupLevel;
use probe::terms::Terms;

// What a turn asks of every member: its terms, where the levelled shares are, and whether highs are asked for or lows.
#[derive(Clone, Copy)]
pub struct EndsAsked {
    pub terms: Terms,
    pub levelled: GroupLevel,
    pub up: bool,
}

// The high of a range, or its low.
fn end_of(low: u64, high: u64, up: bool) -> u64
    ensures { result ≡ pick up high low }
{
    if up {
        return high;
    }
    low
}

// Writes the highs, or the lows, of the narrowed ranges of a group that has a plan over a list. The question is there for
// the contract: the terms are of it.
pub fn narrow_ends(
    lows: &[u64],
    highs: &[u64],
    table: &[u64],
    question: Question,
    asked: EndsAsked,
    ends: &mut [u64],
)
    requires narrowable { Narrowable lows.now highs.now table.now question asked }
    requires ends_len { length ends.old ≡ length lows.now }
    ensures { ends.new ≡ narrowed_ends asked.up lows.now highs.now question.total question.limits }
{
    let terms = asked.terms;
    let row = asked.levelled.row;
    let v = asked.levelled.level;
    let up = asked.up;
    // Whoever gets the copies left over, the figures are the same: a member that can take one may have it, or may not.
    let copies = end_of(0, asked.levelled.over, up);
    let mut shared = nothing_known();
    for (member, (&low, &high)) in lows.iter().zip(highs).enumerate() {
        let share = v.clamp(low, high) + extra(low, high, v, copies);
        let end = end_of(low, high, up);
        let way = Way {
            member,
            share,
            end,
            row,
            shared,
        };
        // What only a search needs is handed over there alone.
        if let Some(value) = seen_at(low, high, way) {
            ends[member] = value;
        } else {
            let found = search(lows, highs, table, question, terms, way);
            ends[member] = found.value;
            shared = found.shared;
        }
    }
}
