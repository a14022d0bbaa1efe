// One group's turn.
ghost use Rattle.std.specs.Prelude.{◌≡◌, length};
ghost use Rattle.groups.specs.Inner.Flat.{group_in, marks_in};
ghost use Rattle.member_ranges.specs.Inner.Members.{MemberRoom};
ghost use Rattle.works.specs.Inner.Asked.{Turning, HoldsMembers};
ghost use Rattle.works.specs.Resting.{running_group};
ghost use Rattle.works.specs.Settling.{revised_by, revise};
ghost use Rattle.member_ranges.specs.Tables.{table_of};

use groups::{MARKS, Stored};
use member_ranges::{gather_running, scatter_running};
use model::{Question, Turn};
use narrow::ranges::narrow_core;

// The turn of a group of a flat list: gathers its running members' ranges, narrows them and writes them back, as they
// were where there is no plan.
pub fn take_turn(
    flat: &[u64],
    group: Stored,
    lows: &mut [u64],
    highs: &mut [u64],
    member_lows: &mut [u64],
    member_highs: &mut [u64],
) -> Turn
    requires turning { Turning (table_of lows.old highs.old) (group_in flat.now group) }
    requires holds_members { HoldsMembers flat.now group (length lows.old) }
    requires member_room { MemberRoom member_lows.old member_highs.old }
    ensures { revised_by result (table_of lows.new highs.new) ≡ revise (table_of lows.old highs.old) (running_group (marks_in (length lows.old) flat.now) (group_in flat.now group)) }
{
    let end = group.from + group.count;
    let behind = MARKS + lows.len();
    let members = &flat[group.from..end];
    let marked = &flat[MARKS..behind];
    let count = gather_running(members, marked, lows, highs, member_lows, member_highs);
    let question = Question {
        total: group.total,
        limits: group.limits,
    };
    let turn = narrow_core(
        &mut member_lows[..count],
        &mut member_highs[..count],
        question,
    );
    scatter_running(members, marked, lows, highs, member_lows, member_highs);
    turn
}
