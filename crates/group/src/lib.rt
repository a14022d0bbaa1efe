// Levelling and narrowing one group on lists, checks first.
#![tactic(auto)]

ghost use Rattle.std.specs.Prelude.{◌≡◌, length};
ghost use Rattle.model.specs.Levels.{levelled};
ghost use Rattle.model.specs.Running.{marked_lows, marked_highs};
ghost use Rattle.levelling.specs.Levelling.{levelling, plan_after};
ghost use Rattle.group.specs.Narrowing.{narrowing, list_after};

use crate::running::narrow_running;
use levelling::{Levelled, level_core};
use list_checks::{amounts_within, check_lists};
use model::{GREATEST_TOTAL, Limits, Question, Refusal, Turn};

mod running;

// Levels a group on lists.
pub fn level(
    lows: &[u64],
    highs: &[u64],
    marks: &[u64],
    total: u64,
    plan: &mut [u64],
) -> Result<Levelled, Refusal>
    ensures value { result ≡ levelling lows.now highs.now marks.now total (length plan.old) }
    ensures plan_after { plan.new ≡ plan_after result (levelled lows.now highs.now total) plan.old }
{
    check_lists(lows, highs, marks, plan.len(), total <= GREATEST_TOTAL)?;
    level_core(lows, highs, marks, total, plan)
}

// Narrows a group on lists, in place.
pub fn narrow(
    lows: &mut [u64],
    highs: &mut [u64],
    marks: &[u64],
    total: u64,
    limits: Limits,
) -> Result<(), Refusal>
    ensures value { result ≡ narrowing lows.old highs.old marks.now total limits }
    ensures lows_after { lows.new ≡ list_after result (marked_lows marks.now lows.old highs.old total limits) lows.old }
    ensures highs_after { highs.new ≡ list_after result (marked_highs marks.now lows.old highs.old total limits) highs.old }
{
    check_lists(
        lows,
        highs,
        marks,
        lows.len(),
        amounts_within(total, limits),
    )?;
    let Turn::NoPlan(number) = narrow_running(lows, highs, marks, Question { total, limits }) else {
        return Ok(());
    };
    Err(Refusal { number, place: 0 })
}
