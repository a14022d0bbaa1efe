// Settling a job text over a table.
ghost use Rattle.std.specs.Prelude.{◌≡◌, length};
ghost use Rattle.groups.specs.Inner.Flat.{groups_in, marks_in};
ghost use Rattle.works.specs.Calls.{settlement, settle_job, settle_text};
ghost use Rattle.works.specs.Inner.Asked.{Prepared};

use crate::passes::settle_core;
use groups::{MARKS, flat_room};
use job::scan_groups;
use works::Unsettled;
use works::checks::check_table;

// Settles the groups of a flat list over the first units of a table, with the marks that the list holds.
pub fn settle_job(
    flat: &[u64],
    groups: u64,
    units: usize,
    lows: &mut [u64],
    highs: &mut [u64],
    scratch: &mut [u64],
) -> Result<u64, Unsettled>
    requires { Prepared flat.now groups units }
    ensures { settlement result lows.new highs.new ≡ settle_job (marks_in units flat.now) (groups_in groups flat.now) units lows.old highs.old (length scratch.old) }
{
    let behind = MARKS + units;
    check_table(&flat[MARKS..behind], units, lows, highs, scratch.len())?;
    settle_core(
        flat,
        groups,
        &mut lows[..units],
        &mut highs[..units],
        scratch,
    )
}

// Settles a job text over a table: takes the groups from the text, and opens with the ranges that the table holds.
pub fn settle(
    text: &[u8],
    lows: &mut [u64],
    highs: &mut [u64],
    scratch: &mut [u64],
) -> Result<u64, Unsettled>
    ensures { settlement result lows.new highs.new ≡ settle_text text.now lows.old highs.old (length scratch.old) }
{
    let mut flat = flat_room();
    let counts = scan_groups(text, &mut flat)?;
    settle_job(
        &flat,
        counts.groups as u64,
        counts.units,
        lows,
        highs,
        scratch,
    )
}
