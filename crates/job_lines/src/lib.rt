// The lines of a job text, written on a page.
#![tactic(auto)]

ghost use Rattle.std.specs.Prelude.{◌+◌, ◌≤◌, suc, ◌≡◌, length};
ghost use mathlib.Core.List.{flatten, ◌++◌, map};
ghost use Rattle.groups.specs.Inner.Flat.{group_in, groups_in, Holds};
ghost use Rattle.form.specs.Form.{print_limit, print_pairs};
ghost use Rattle.job.specs.Sound.{AcceptedGroups};
ghost use Rattle.model.specs.Shares.{most_units};
ghost use Rattle.print.specs.Inner.Written.{Room, Wrote};
ghost use Rattle.print.specs.Items.{items};
ghost use Rattle.member_ranges.specs.Tables.{Named};
ghost use Rattle.job_lines.specs.Inner.Pieces.{group_head};
ghost use Rattle.job_lines.specs.Texts.{range_line, range_lines, pairs_written, heading_of, member_line};

use groups::{Stored, group_at};
use model::{Limit, Limits, RUNNING};
use print::Page;

// Writes a unit's line, its range or the word shut.
#[tactic(auto, using(crate::specs::Laws::Pieces::line_runs, crate::specs::Laws::Pieces::line_shut))]
fn put_range_line(page: &mut Page, mark: u64, low: u64, high: u64)
    requires { Room page.old.bytes.now page.old.at (range_line mark low high) }
    ensures wrote { Wrote (range_line mark low high) page.old.bytes.now page.old.at page.new.bytes.now page.new.at }
    ensures same_reference { page.new.bytes.ghost_name ≡ page.old.bytes.ghost_name }
{
    if mark == RUNNING {
        return page.line(b"(unit", &[low, high]);
    }
    page.word(b"(shut)\n");
}

// Writes the unit lines of all units.
pub fn put_range_lines(page: &mut Page, marks: &[u64], lows: &[u64], highs: &[u64])
    requires highs_len { (length highs.now ≡ length lows.now) × (length marks.now ≡ length lows.now) }
    requires room { Room page.old.bytes.now page.old.at (flatten (range_lines marks.now lows.now highs.now)) }
    ensures wrote { Wrote (flatten (range_lines marks.now lows.now highs.now)) page.old.bytes.now page.old.at page.new.bytes.now page.new.at }
    ensures same_reference { page.new.bytes.ghost_name ≡ page.old.bytes.ghost_name }
{
    for (mark, (low, high)) in marks.iter().zip(lows.iter().zip(highs)) {
        put_range_line(page, *mark, *low, *high);
    }
}

// Writes a limit, a number or the word any.
#[tactic(auto, unfolding(form::specs::Form::print_limit))]
fn put_limit(page: &mut Page, limit: Limit)
    requires { Room page.old.bytes.now page.old.at (print_limit limit) }
    ensures wrote { Wrote (print_limit limit) page.old.bytes.now page.old.at page.new.bytes.now page.new.at }
    ensures same_reference { page.new.bytes.ghost_name ≡ page.old.bytes.ghost_name }
{
    match limit {
        Limit::Any => page.word(b"any"),
        Limit::AtMost(most) => page.number(most),
    }
}

// Writes what opens a limit and the limit.
fn put_limited(page: &mut Page, opening: &[u8], limit: Limit)
    requires { Room page.old.bytes.now page.old.at (opening.now ++ print_limit limit) }
    ensures wrote { Wrote (opening.now ++ print_limit limit) page.old.bytes.now page.old.at page.new.bytes.now page.new.at }
    ensures same_reference { page.new.bytes.ghost_name ≡ page.old.bytes.ghost_name }
{
    page.word(opening);
    put_limit(page, limit);
}

// Writes a pairs limit where it was there.
#[tactic(auto, unfolding(form::specs::Form::print_pairs))]
fn put_pairs(page: &mut Page, there: bool, limit: Limit)
    requires { Room page.old.bytes.now page.old.at (print_pairs (pairs_written there limit)) }
    ensures wrote { Wrote (print_pairs (pairs_written there limit)) page.old.bytes.now page.old.at page.new.bytes.now page.new.at }
    ensures same_reference { page.new.bytes.ghost_name ≡ page.old.bytes.ghost_name }
{
    if there {
        put_limited(page, b") (pairs ", limit);
    }
}

// Writes a group's line up to its members.
fn put_head(page: &mut Page, total: u64, limits: Limits, pairs_there: bool)
    requires { Room page.old.bytes.now page.old.at (group_head (heading_of total limits pairs_there)) }
    ensures wrote { Wrote (group_head (heading_of total limits pairs_there)) page.old.bytes.now page.old.at page.new.bytes.now page.new.at }
    ensures same_reference { page.new.bytes.ghost_name ≡ page.old.bytes.ghost_name }
{
    page.form(b"(group", &[total]);
    put_limited(page, b" (dev ", limits.deviation);
    put_limited(page, b") (spread ", limits.spread);
    put_pairs(page, pairs_there, limits.pairs);
    page.word(b") (of");
}

// Writes the unit numbers of members, each after a space.
fn put_members(page: &mut Page, members: &[u64])
    requires named { Named most_units members.now }
    requires room { Room page.old.bytes.now page.old.at (items (map suc members.now)) }
    ensures wrote { Wrote (items (map suc members.now)) page.old.bytes.now page.old.at page.new.bytes.now page.new.at }
    ensures same_reference { page.new.bytes.ghost_name ≡ page.old.bytes.ghost_name }
{
    for member in members {
        page.item(*member + 1);
    }
}

// Writes the line of a group of a flat list.
fn put_member_line(page: &mut Page, flat: &[u64], group: Stored)
    requires count_in_bounds { group.from + group.count ≤ length flat.now }
    requires named { Named most_units (group_in flat.now group).members }
    requires room { Room page.old.bytes.now page.old.at (member_line (group_in flat.now group)) }
    ensures wrote { Wrote (member_line (group_in flat.now group)) page.old.bytes.now page.old.at page.new.bytes.now page.new.at }
    ensures same_reference { page.new.bytes.ghost_name ≡ page.old.bytes.ghost_name }
{
    let end = group.from + group.count;
    put_head(page, group.total, group.limits, group.pairs_there);
    put_members(page, &flat[group.from..end]);
    page.word(b"))\n");
}

// Writes the lines of a flat list's groups.
pub fn put_member_lines(page: &mut Page, flat: &[u64], groups: u64)
    requires holds { Holds groups flat.now }
    requires accepted_groups { AcceptedGroups most_units (groups_in groups flat.now) }
    requires room { Room page.old.bytes.now page.old.at (flatten (map member_line (groups_in groups flat.now))) }
    ensures wrote { Wrote (flatten (map member_line (groups_in groups flat.now))) page.old.bytes.now page.old.at page.new.bytes.now page.new.at }
    ensures same_reference { page.new.bytes.ghost_name ≡ page.old.bytes.ghost_name }
{
    let mut from: usize = 0;
    for _ in 0..groups {
        let group = group_at(flat, from);
        put_member_line(page, flat, group);
        from = group.next;
    }
}
