// The ranges of a group's members in the table: gathered, and written back.
#![tactic(auto)]

ghost use Rattle.std.specs.Prelude.{◌≡◌, length};
ghost use Rattle.member_ranges.specs.Inner.Members.{Listed, MemberRoom, RunningGathered, running_members};
ghost use Rattle.member_ranges.specs.Tables.{Named, gather, scatter};

use model::RUNNING;

pub mod tables;

// Writes the members' entries over a list.
pub fn gather(entries: &[u64], members: &[u64], out: &mut [u64])
    requires named { Named (length entries.now) members.now }
    requires out_len { length out.old ≡ length members.now }
    ensures { out.new ≡ gather entries.now members.now }
{
    for (k, member) in members.iter().enumerate() {
        out[k] = entries[*member as usize];
    }
}

// Writes the running members' ranges over the first numbers of two lists, and answers how many they are.
pub fn gather_running(
    members: &[u64],
    marks: &[u64],
    lows: &[u64],
    highs: &[u64],
    member_lows: &mut [u64],
    member_highs: &mut [u64],
) -> usize
    requires listed { Listed members.now marks.now lows.now highs.now }
    requires member_room { MemberRoom member_lows.old member_highs.old }
    ensures { RunningGathered members.now marks.now lows.now highs.now member_lows.new member_highs.new result }
{
    let mut count: usize = 0;
    for member in members {
        let unit = *member as usize;
        if marks[unit] == RUNNING {
            member_lows[count] = lows[unit];
            member_highs[count] = highs[unit];
            count += 1;
        }
    }
    count
}

// Replaces the running members' ranges by the first numbers of two lists.
pub fn scatter_running(
    members: &[u64],
    marks: &[u64],
    lows: &mut [u64],
    highs: &mut [u64],
    member_lows: &[u64],
    member_highs: &[u64],
)
    requires listed { Listed members.now marks.now lows.old highs.old }
    requires member_room { MemberRoom member_lows.now member_highs.now }
    ensures lows_after { lows.new ≡ scatter lows.old (running_members marks.now members.now) member_lows.now }
    ensures highs_after { highs.new ≡ scatter highs.old (running_members marks.now members.now) member_highs.now }
{
    let mut count: usize = 0;
    for member in members {
        let unit = *member as usize;
        if marks[unit] == RUNNING {
            lows[unit] = member_lows[count];
            highs[unit] = member_highs[count];
            count += 1;
        }
    }
}
