// Taking the lines of a job text one by one: the refusals of a line, and what it adds to the lists.
ghost use Rattle.std.specs.Prelude.{◌≡◌, ◌≤◌, length};
ghost use Rattle.groups.specs.Inner.Flat.{most_flat};
ghost use Rattle.job.specs.Job.{unit_verdict, head_verdict, distinct};
ghost use Rattle.form.specs.Form.{most_bytes};
ghost use Rattle.form.specs.Form.{range};
ghost use Rattle.job.specs.Inner.Placed.{Placed, group_number};
ghost use Rattle.job.specs.Inner.Below.{AllBelow};
ghost use Rattle.job.specs.Inner.Distinct.{fresh_by};
ghost use Rattle.job.specs.Inner.Verdicts.{verdict_answer};
ghost use Rattle.job.specs.Inner.Steps.{Bounded, UnitTaken, GroupTaken, LineTaken};
ghost use Rattle.job.specs.Inner.Taking.{place_at};
ghost use Rattle.model.specs.Shares.{most_units};
ghost use Rattle.model.specs.Refusals.{refusal};

use form::{Head, Members, Unit, group_line, unit_line};
use groups::{HEAD, put_group, put_mark};
use model::{
    GREATEST_DEVIATION, GREATEST_PAIRS, GREATEST_SPREAD, GREATEST_TOTAL, MOST_UNITS, Refusal, Share,
};
use text::Spot;
use text::ailments::ailment;

// What was read so far.
#[derive(Clone, Copy)]
pub struct Progress {
    pub units: usize,
    pub groups: usize,
    pub memberships: usize,
}

impl Progress {
    // The refusal of the line after what was read.
    fn refusal(self, number: u64) -> Refusal
        requires { Bounded self }
        ensures { result ≡ refusal number (place_at self) }
    {
        let place = (self.units + self.groups + 1) as u64;
        Refusal { number, place }
    }
}

// A job has at most so many groups.
pub const MOST_GROUPS: usize = 64;

// A job's groups have at most so many members together.
pub const MOST_MEMBERSHIPS: usize = 4096;

// The refusal of a unit line, if there is one.
#[tactic(auto, unfolding(crate::specs::Job::unit_verdict))]
fn unit_verdict(progress: Progress, low: u64, high: u64) -> Result<(), Refusal>
    requires { Bounded progress }
    ensures { result ≡ verdict_answer (unit_verdict progress.units progress.groups (range low high)) (place_at progress) }
{
    if Share::new(low).is_none() || Share::new(high).is_none() {
        return Err(progress.refusal(4));
    }
    if progress.groups != 0 {
        return Err(progress.refusal(5));
    }
    if MOST_UNITS <= progress.units {
        return Err(progress.refusal(6));
    }
    if high < low {
        return Err(progress.refusal(7));
    }
    Ok(())
}

// The refusal of a group line by its head and the number of its members, if there is one.
#[tactic(auto, unfolding(crate::specs::Job::head_verdict))]
fn head_verdict(progress: Progress, head: Head, count: usize) -> Result<(), Refusal>
    requires { Bounded progress }
    ensures { result ≡ verdict_answer (head_verdict progress.groups progress.memberships head.total head.limits count) (place_at progress) }
{
    let limits = head.limits;
    if GREATEST_TOTAL < head.total
        || !limits.deviation.within(GREATEST_DEVIATION)
        || !limits.spread.within(GREATEST_SPREAD)
        || !limits.pairs.within(GREATEST_PAIRS)
    {
        return Err(progress.refusal(4));
    }
    if MOST_GROUPS <= progress.groups || MOST_MEMBERSHIPS - progress.memberships < count {
        return Err(progress.refusal(6));
    }
    Ok(())
}

// Whether no number is met marked, where each is marked when met.
#[tactic(auto, using(crate::proofs::Laws::Distinct::below_at, crate::proofs::Laws::Distinct::fresh_next, crate::proofs::Laws::Distinct::fresh_end, std::proofs::lemmas::Grind::common_steps))]
fn fresh_by(members: &[u64], marks: &mut [u64]) -> bool
    requires { AllBelow (length marks.old) members.now }
    ensures { result ≡ fresh_by marks.old members.now }
{
    for member in members {
        let at = *member as usize;
        if marks[at] != 0 {
            return false;
        }
        marks[at] = 1;
    }
    true
}

// Whether numbers below the most units are distinct.
#[tactic(auto, using(crate::proofs::Laws::Distinct::fresh_is_distinct))]
fn are_distinct(members: &[u64]) -> bool
    requires { AllBelow most_units members.now }
    ensures { result ≡ distinct members.now }
{
    let mut marks = [0u64; MOST_UNITS];
    fresh_by(members, &mut marks)
}

// The refusal of a group line whose members are in the flat list from a place on, if there is one.
#[tactic(auto, unfolding(crate::specs::Inner::Placed::group_number))]
fn group_verdict(
    progress: Progress,
    head: Head,
    members: Members,
    flat: &[u64],
    from: usize,
) -> Result<(), Refusal>
    requires { Bounded progress × Placed progress head members flat.now from }
    ensures { result ≡ verdict_answer (group_number progress head members flat.now from) (place_at progress) }
{
    let count = members.count;
    head_verdict(progress, head, count)?;
    if !members.within {
        return Err(progress.refusal(8));
    }
    if !are_distinct(&flat[from..from + count]) {
        return Err(progress.refusal(9));
    }
    Ok(())
}

// Takes a unit line: its low and high into the table, its mark into the flat list.
#[tactic(auto, using(crate::proofs::Laws::Verdicts::unit_good))]
fn take_unit(
    progress: Progress,
    unit: Unit,
    spot: Spot,
    lows: &mut [u64],
    highs: &mut [u64],
    flat: &mut [u64],
) -> Result<(Progress, Spot), Refusal>
    requires { Bounded progress × (most_units ≤ length lows.old) × (most_units ≤ length highs.old) × (most_flat ≤ length flat.old) }
    ensures { UnitTaken progress unit spot.at lows.old highs.old flat.old lows.new highs.new flat.new result }
{
    unit_verdict(progress, unit.low, unit.high)?;
    let units = progress.units;
    lows[units] = unit.low;
    highs[units] = unit.high;
    put_mark(flat, units, unit.mark);
    let more = Progress {
        units: units + 1,
        ..progress
    };
    Ok((more, spot))
}

// Takes a group line: its numbers into the flat list.
fn take_group(
    text: &[u8],
    spot: Spot,
    progress: Progress,
    flat: &mut [u64],
) -> Result<(Progress, Spot), Refusal>
    requires { Bounded progress × (length text.now ≤ most_bytes) × (most_flat ≤ length flat.old) }
    ensures { GroupTaken text.now progress spot.at flat.old flat.new result }
{
    let groups = progress.groups;
    let memberships = progress.memberships;
    let at = groups * HEAD + memberships;
    let from = at + HEAD;
    let Some((head, members)) = group_line(text, spot, flat, from, progress.units) else {
        return Err(progress.refusal(ailment(text, spot)));
    };
    group_verdict(progress, head, members, flat, from)?;
    let count = members.count;
    put_group(flat, at, head.total, head.limits, head.pairs_there, count);
    let more = Progress {
        groups: groups + 1,
        memberships: memberships + count,
        ..progress
    };
    Ok((more, members.next))
}

// Takes the line at a spot: what it adds to the lists, or its refusal.
pub fn take_line(
    text: &[u8],
    spot: Spot,
    progress: Progress,
    lows: &mut [u64],
    highs: &mut [u64],
    flat: &mut [u64],
) -> Result<(Progress, Spot), Refusal>
    requires { Bounded progress × (length text.now ≤ most_bytes) × (most_units ≤ length lows.old) × (most_units ≤ length highs.old) × (most_flat ≤ length flat.old) }
    ensures { LineTaken text.now progress spot.at lows.old highs.old flat.old lows.new highs.new flat.new result }
{
    let Some((unit, next)) = unit_line(text, spot) else {
        return take_group(text, spot, progress, flat);
    };
    take_unit(progress, unit, next, lows, highs, flat)
}
