// Levelling one group.
#![tactic(auto)]

ghost use Rattle.std.specs.Prelude.{◌≡◌, ◌+◌, ◌^◌, ◌≤◌, ◌<◌, ◌++◌, length, drop};
ghost use Rattle.model.specs.Levels.{level, levelled};
ghost use Rattle.model.specs.Running.{Marked, marked_figures};
ghost use Rattle.levelling.specs.Additions.{most_additions};
ghost use Rattle.model.specs.Sound.{SoundRanges, HasShares};
ghost use Rattle.levelling.specs.Levelling.{levelled_to, plan_after};

use crate::levels::find_level;
use crate::plans::figures_of;
use crate::shares::fill_plan;
use model::shares::has_shares;
use model::{Figures, Refusal, Share};

mod levels;
pub mod plans;
pub mod shares;

// The level of a group whose total is shared out, and the figures of its shares.
#[derive(Clone, Copy)]
pub struct Levelled {
    pub level: Share,
    pub figures: Figures,
}

// Shares the total of a group out: the levelled shares go to the plan, over its first numbers, once the level is known.
// T(v) is added up at most 22 times, and additions counts them.
fn share_out(
    lows: &[u64],
    highs: &[u64],
    marks: &[u64],
    total: u64,
    plan: &mut [u64],
    additions: &mut u64,
) -> Levelled
    requires has_shares { HasShares lows.now highs.now total }
    requires marked { Marked marks.now lows.now highs.now }
    requires lows_in_bounds { length lows.now ≤ length plan.old }
    requires most_additions_bound { additions.old + most_additions < 2 ^ 64 }
    ensures level_value { result.level.copies ≡ level lows.now highs.now total }
    ensures figures_value { result.figures ≡ marked_figures marks.now total (levelled lows.now highs.now total) }
    ensures plan_after { plan.new ≡ levelled lows.now highs.now total ++ drop (length lows.now) plan.old }
    ensures additions_bound { additions.new ≤ additions.old + most_additions }
{
    let found = find_level(lows, highs, total, additions);
    fill_plan(lows, highs, found.level, found.left, plan);
    let count = lows.len();
    let figures = figures_of(&plan[..count], marks, total);
    // Every level is a share.
    let level = Share::new(found.level).unwrap();
    Levelled { level, figures }
}

// Levels sound lists: the levelled shares go to the plan, over its first numbers.
pub fn level_core(
    lows: &[u64],
    highs: &[u64],
    marks: &[u64],
    total: u64,
    plan: &mut [u64],
) -> Result<Levelled, Refusal>
    requires sound_ranges { SoundRanges lows.now highs.now }
    requires marked { Marked marks.now lows.now highs.now }
    requires lows_in_bounds { length lows.now ≤ length plan.old }
    ensures value { result ≡ levelled_to lows.now highs.now marks.now total }
    ensures plan_after { plan.new ≡ plan_after result (levelled lows.now highs.now total) plan.old }
{
    if !has_shares(lows, highs, total) {
        return Err(Refusal {
            number: 11,
            place: 0,
        });
    }
    let mut additions: u64 = 0;
    Ok(share_out(lows, highs, marks, total, plan, &mut additions))
}
