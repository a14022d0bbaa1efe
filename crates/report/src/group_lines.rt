// The group lines of a report: each group levelled within the settled table.
ghost use Rattle.std.specs.Prelude.{◌≤◌, ◌≡◌, length, take};
ghost use mathlib.Core.List.{flatten};
ghost use Rattle.levelling.specs.Levelling.{levelled_to, plan_after};
ghost use Rattle.groups.specs.Inner.Flat.{group_in, groups_in, marks_in};
ghost use Rattle.model.specs.Levels.{levelled};
ghost use Rattle.print.specs.Inner.Written.{Room, Wrote};
ghost use Rattle.report.specs.Reportable.{Levelable};
ghost use Rattle.report.specs.Inner.Asked.{LevelledIn, LevelMembers, Printable};
ghost use Rattle.report.specs.Reports.{group_lines};
ghost use Rattle.works.specs.Inner.Asked.{HoldsMembers};
ghost use Rattle.member_ranges.specs.Tables.{Named, gather, table_of};
ghost use Rattle.model.specs.Shares.{most_units};

use crate::lines::put_levelled_line;
use groups::{MARKS, Stored, group_at};
use levelling::{Levelled, level_core};
use member_ranges::gather;
use model::Refusal;
use model::lists::room;
use print::Page;

// Writes the members' entries over the front of a list.
fn gather_front(entries: &[u64], members: &[u64], out: &mut [u64])
    requires named { Named (length entries.now) members.now }
    requires members_in_bounds { length members.now ≤ length out.old }
    ensures { take (length members.now) out.new ≡ gather entries.now members.now }
{
    let count = members.len();
    gather(entries, members, &mut out[..count]);
}

// Levels members within their ranges in the table: their shares go to the plan, over its first numbers.
fn level_members(
    members: &[u64],
    marks: &[u64],
    total: u64,
    lows: &[u64],
    highs: &[u64],
    plan: &mut [u64],
) -> Result<Levelled, Refusal>
    requires level_members { LevelMembers members.now marks.now lows.now highs.now }
    requires most_units_in_bounds { most_units ≤ length plan.old }
    ensures value { result ≡ levelled_to (gather lows.now members.now) (gather highs.now members.now) (gather marks.now members.now) total }
    ensures plan_after { plan.new ≡ plan_after result (levelled (gather lows.now members.now) (gather highs.now members.now) total) plan.old }
{
    let count = members.len();
    let mut member_lows = room();
    let mut member_highs = room();
    let mut member_marks = room();
    gather_front(lows, members, &mut member_lows);
    gather_front(highs, members, &mut member_highs);
    gather_front(marks, members, &mut member_marks);
    level_core(
        &member_lows[..count],
        &member_highs[..count],
        &member_marks[..count],
        total,
        plan,
    )
}

// Levels a group of a flat list within the table: the shares of its members go to the plan, over its first numbers.
fn level_stored(
    flat: &[u64],
    group: Stored,
    lows: &[u64],
    highs: &[u64],
    plan: &mut [u64],
) -> Result<Levelled, Refusal>
    requires levelable { Levelable (marks_in (length lows.now) flat.now) (table_of lows.now highs.now) (group_in flat.now group) }
    requires highs_len { length highs.now ≡ length lows.now }
    requires holds_members { HoldsMembers flat.now group (length lows.now) }
    requires most_units_in_bounds { most_units ≤ length plan.old }
    ensures { LevelledIn (marks_in (length lows.now) flat.now) (table_of lows.now highs.now) (group_in flat.now group) result plan.new }
{
    let end = group.from + group.count;
    let behind = MARKS + lows.len();
    level_members(
        &flat[group.from..end],
        &flat[MARKS..behind],
        group.total,
        lows,
        highs,
        plan,
    )
}

// Writes the lines of a flat list's groups.
pub fn put_group_lines(page: &mut Page, flat: &[u64], groups: u64, lows: &[u64], highs: &[u64])
    requires printable { Printable flat.now groups (table_of lows.now highs.now) }
    requires room { Room page.old.bytes.now page.old.at (flatten (group_lines (marks_in (length lows.now) flat.now) 1 (table_of lows.now highs.now) (groups_in groups flat.now))) }
    ensures wrote { Wrote (flatten (group_lines (marks_in (length lows.now) flat.now) 1 (table_of lows.now highs.now) (groups_in groups flat.now))) page.old.bytes.now page.old.at page.new.bytes.now page.new.at }
    ensures same_reference { page.new.bytes.ghost_name ≡ page.old.bytes.ghost_name }
{
    let mut plan = room();
    let mut from: usize = 0;
    for written in 0..groups {
        let group = group_at(flat, from);
        let levelling = level_stored(flat, group, lows, highs, &mut plan);
        put_levelled_line(page, written + 1, levelling, &plan[..group.count]);
        from = group.next;
    }
}
