// Passes over all groups, until one changes nothing.
ghost use Rattle.std.specs.Prelude.{◌+◌, ◌≤◌, ◌≡◌, length};
ghost use Rattle.model.specs.Known.{refused_by};
ghost use Rattle.works.specs.Answers.{answer_of, table_after};
ghost use Rattle.member_ranges.specs.Inner.Members.{MemberRoom};
ghost use Rattle.works.specs.Inner.Asked.{Opening, running_in};
ghost use Rattle.works.specs.Settling.{settle};
ghost use Rattle.member_ranges.specs.Tables.{table_of};

use crate::turns::take_turn;
use groups::group_at;
use member_ranges::tables::{restore, save, width_of};
use model::Turn;
use model::lists::room;
use works::Unsettled;

// The number that a turn refuses with; 0 where it narrows.
// The specification names let else for a turn's answer, which leaves the number to be asked for.
fn number_of(turn: Turn) -> u64
    ensures { result ≡ refused_by turn }
{
    match turn {
        Turn::Narrowed => 0,
        Turn::NoPlan(number) => number,
    }
}

// Settles the table; where a group has no plan, the table is left as it then was.
fn run_passes(
    flat: &[u64],
    groups: u64,
    lows: &mut [u64],
    highs: &mut [u64],
    member_lows: &mut [u64],
    member_highs: &mut [u64],
) -> Result<u64, Unsettled>
    requires opening { Opening flat.now groups (table_of lows.old highs.old) }
    requires member_room { MemberRoom member_lows.old member_highs.old }
    ensures value { result ≡ answer_of (settle (running_in groups (length lows.old) flat.now) (table_of lows.old highs.old)) }
    ensures highs_after { table_of lows.new highs.new ≡ table_after (settle (running_in groups (length lows.old) flat.now) (table_of lows.old highs.old)) (table_of lows.new highs.new) }
{
    let mut passes: u64 = 0;
    let unsettled = 'passes: loop {
        passes += 1;
        let before = width_of(lows, highs);
        let mut at: usize = 0;
        for turns in 0..groups {
            let group = group_at(flat, at);
            let turn = take_turn(flat, group, lows, highs, member_lows, member_highs);
            let Turn::Narrowed = turn else {
                let number = number_of(turn);
                break 'passes Unsettled::NoPlan {
                    number,
                    place: turns + 1,
                    passes,
                };
            };
            at = group.next;
        }
        if width_of(lows, highs) == before {
            return Ok(passes);
        }
    };
    Err(unsettled)
}

// Settles the table in member lists of its own; where a group has no plan, the table is left as it then was.
fn settle_in_place(
    flat: &[u64],
    groups: u64,
    lows: &mut [u64],
    highs: &mut [u64],
) -> Result<u64, Unsettled>
    requires { Opening flat.now groups (table_of lows.old highs.old) }
    ensures value { result ≡ answer_of (settle (running_in groups (length lows.old) flat.now) (table_of lows.old highs.old)) }
    ensures highs_after { table_of lows.new highs.new ≡ table_after (settle (running_in groups (length lows.old) flat.now) (table_of lows.old highs.old)) (table_of lows.new highs.new) }
{
    let mut member_lows = room();
    let mut member_highs = room();
    run_passes(
        flat,
        groups,
        lows,
        highs,
        &mut member_lows,
        &mut member_highs,
    )
}

// Settles the table; on a refusal it holds what it held, which the scratch keeps meanwhile.
pub fn settle_core(
    flat: &[u64],
    groups: u64,
    lows: &mut [u64],
    highs: &mut [u64],
    scratch: &mut [u64],
) -> Result<u64, Unsettled>
    requires opening { Opening flat.now groups (table_of lows.old highs.old) }
    requires highs_in_bounds { length lows.old + length highs.old ≤ length scratch.old }
    ensures value { result ≡ answer_of (settle (running_in groups (length lows.old) flat.now) (table_of lows.old highs.old)) }
    ensures highs_after { table_of lows.new highs.new ≡ table_after (settle (running_in groups (length lows.old) flat.now) (table_of lows.old highs.old)) (table_of lows.old highs.old) }
{
    save(lows, highs, scratch);
    let answer = settle_in_place(flat, groups, lows, highs);
    if answer.is_err() {
        restore(scratch, lows, highs);
    }
    answer
}
