// Many groups over shared units: what settling means and answers, and the checks ahead of it.
#![tactic(auto)]

ghost use Rattle.std.specs.Prelude.{◌≡◌};
ghost use Rattle.works.specs.declared.Unsettled.TheVariants.{Refused};

use model::Refusal;

pub mod checks;

// Why a job is not settled: no plan, with the refusal's number (11 or 12), its place (the group) and the passes; or
// refused before any pass. A settling that comes to its end answers its passes.
#[derive(Clone, Copy)]
pub enum Unsettled {
    NoPlan {
        number: u64,
        place: u64,
        passes: u64,
    },
    Refused(Refusal),
}

// What a check or a reading refuses is refused before any pass.
impl From<Refusal> for Unsettled {
    ghost from_gives = { λ refusal unsettled. unsettled ≡ Refused refusal };

    fn from(refusal: Refusal) -> Unsettled {
        Unsettled::Refused(refusal)
    }
}
