// Narrowing a group's ranges: a value stays exactly if the group pinned to it has a plan.
ghost use Rattle.std.specs.Prelude.{◌≡◌, ◌≤◌, ◌+◌, ◌*◌, length};
ghost use Rattle.model.specs.Plans.{has_plan, narrowed_lows, narrowed_highs};
ghost use Rattle.model.specs.Shares.{pick};
ghost use Rattle.model.specs.Sound.{SoundRanges, HasShares};
ghost use Rattle.narrow.specs.Inner.Turns.{NarrowedIf, Turned};
ghost use Rattle.range_ends.specs.Inner.Tabled.{Tabled, TableLists, TableRoom};

use breakpoints::build::build;
use model::lists::copy;
use model::shares::has_shares;
use model::{MOST_UNITS, Question, Turn};
use probe::probing::level_on;
use probe::terms::{limits_pairs, terms_of};
use range_ends::members::{EndsAsked, narrow_ends};

// Whether a group that has shares has a plan; if so, its narrowed ranges are written over starts and stops.
fn narrow_on(
    lows: &[u64],
    highs: &[u64],
    table: &[u64],
    question: Question,
    starts: &mut [u64],
    stops: &mut [u64],
) -> bool
    requires has_shares { HasShares lows.now highs.now question.total }
    requires tabled { Tabled lows.now highs.now question.total question.limits table.now }
    requires starts_len { length starts.old ≡ length lows.now }
    requires stops_len { length stops.old ≡ length lows.now }
    ensures value { result ≡ has_plan lows.now highs.now question.total question.limits }
    ensures starts_after { starts.new ≡ pick result (narrowed_lows lows.now highs.now question.total question.limits) starts.old }
    ensures stops_after { stops.new ≡ pick result (narrowed_highs lows.now highs.now question.total question.limits) stops.old }
{
    let terms = terms_of(lows, highs, table, question);
    let levelled = level_on(lows, highs, table, terms);
    if !levelled.planned {
        return false;
    }
    let down = EndsAsked {
        terms,
        levelled,
        up: false,
    };
    narrow_ends(lows, highs, table, question, down, starts);
    let up = EndsAsked { up: true, ..down };
    narrow_ends(lows, highs, table, question, up, stops);
    true
}

// Whether a group that has shares has a plan; if so, its lists are narrowed in place. The three further lists are room to
// work in: starts and stops as long as the group, and the table; they hold anything afterwards.
fn narrow_with(
    lows: &mut [u64],
    highs: &mut [u64],
    question: Question,
    starts: &mut [u64],
    stops: &mut [u64],
    table: &mut [u64],
) -> bool
    requires has_shares { HasShares lows.old highs.old question.total }
    requires table_lists { TableLists (length lows.old) starts.old stops.old table.old }
    ensures { NarrowedIf lows.old highs.old question.total question.limits result lows.new highs.new }
{
    let paired = limits_pairs(question.limits.pairs);
    let size = build(lows, highs, starts, stops, table, paired);
    let planned = narrow_on(lows, highs, &table[..size], question, starts, stops);
    if !planned {
        return false;
    }
    copy(starts, lows);
    copy(stops, highs);
    true
}

// The same with arrays that have room for the group.
fn narrow_within(
    lows: &mut [u64],
    highs: &mut [u64],
    question: Question,
    starts: &mut [u64],
    stops: &mut [u64],
    table: &mut [u64],
) -> bool
    requires has_shares { HasShares lows.old highs.old question.total }
    requires table_room { TableRoom (length lows.old) starts.old stops.old table.old }
    ensures { NarrowedIf lows.old highs.old question.total question.limits result lows.new highs.new }
{
    let count = lows.len();
    narrow_with(
        lows,
        highs,
        question,
        &mut starts[..count],
        &mut stops[..count],
        table,
    )
}

// The same for a group of at most so many members, with arrays of that size: clearing large ones would be much of a small group's time.
fn narrow_in<const MEMBERS: usize, const ROOM: usize>(
    lows: &mut [u64],
    highs: &mut [u64],
    question: Question,
) -> bool
    requires has_shares { HasShares lows.old highs.old question.total }
    requires lows_len_bound { length lows.old ≤ MEMBERS }
    requires room_bounds { (7 * (2 * MEMBERS) + 7 ≤ ROOM) × (ROOM ≤ 4096) }
    ensures { NarrowedIf lows.old highs.old question.total question.limits result lows.new highs.new }
{
    let mut starts = [0u64; MEMBERS];
    let mut stops = [0u64; MEMBERS];
    let mut table = [0u64; ROOM];
    narrow_within(lows, highs, question, &mut starts, &mut stops, &mut table)
}

// The same for every group: the room goes by its size, and each size of it has an instance of its own.
// The second number is 14 for each member and 7 more: the room of the breakpoint table.
fn narrow_sized(lows: &mut [u64], highs: &mut [u64], question: Question) -> bool
    requires { HasShares lows.old highs.old question.total }
    ensures { NarrowedIf lows.old highs.old question.total question.limits result lows.new highs.new }
{
    match lows.len() {
        0..=2 => narrow_in::<2, 35>(lows, highs, question),
        3..=4 => narrow_in::<4, 63>(lows, highs, question),
        5..=8 => narrow_in::<8, 119>(lows, highs, question),
        9..=16 => narrow_in::<16, 231>(lows, highs, question),
        17..=64 => narrow_in::<64, 903>(lows, highs, question),
        _ => narrow_in::<MOST_UNITS, 3591>(lows, highs, question),
    }
}

// Narrows sound lists in place, or says that there is no plan and leaves them as they were.
pub fn narrow_core(lows: &mut [u64], highs: &mut [u64], question: Question) -> Turn
    requires { SoundRanges lows.old highs.old }
    ensures { Turned lows.old highs.old question.total question.limits result lows.new highs.new }
{
    if !has_shares(lows, highs, question.total) {
        return Turn::NoPlan(11);
    }
    if !narrow_sized(lows, highs, question) {
        return Turn::NoPlan(12);
    }
    Turn::Narrowed
}
