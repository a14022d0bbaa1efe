// The planner's calls for C and Rust, on numbers and slices; include/danivomel.h documents them.
#![tactic(auto)]

ghost use Rattle.std.specs.Prelude.{◌≡◌, length};
ghost use Rattle.model.specs.Levels.{levelled};
ghost use Rattle.model.specs.Running.{marked_lows, marked_highs};
ghost use Rattle.levelling.specs.Levelling.{levelling, plan_after};
ghost use Rattle.group.specs.Narrowing.{narrowing, list_after};
ghost use Rattle.planner.specs.Foreign.{foreign_refusal, foreign_levelled, foreign_narrowed, foreign_limit, foreign_limits};

use levelling::Levelled;
use model::{Limit, Limits, Refusal};

pub mod texts;

// A refusal; number 0 says that there is none.
#[repr(C)]
#[derive(Clone, Copy)]
pub struct ForeignRefusal {
    pub number: u64,
    pub place: u64,
}

// A deviation figure.
#[repr(C)]
#[derive(Clone, Copy)]
pub struct ForeignDeviation {
    pub value: u64,
}

// A spread figure.
#[repr(C)]
#[derive(Clone, Copy)]
pub struct ForeignSpread {
    pub value: u64,
}

// The pair differences.
#[repr(C)]
#[derive(Clone, Copy)]
pub struct ForeignPairs {
    pub value: u64,
}

// A limit; any limits nothing, and the number is then not looked at.
#[repr(C)]
#[derive(Clone, Copy)]
pub struct ForeignLimit {
    pub any: bool,
    pub at_most: u64,
}

// A group's limits.
#[repr(C)]
#[derive(Clone, Copy)]
pub struct ForeignLimits {
    pub deviation: ForeignLimit,
    pub spread: ForeignLimit,
    pub pairs: ForeignLimit,
}

// What levelling answers.
#[repr(C)]
#[derive(Clone, Copy)]
pub struct ForeignLevelled {
    pub refusal: ForeignRefusal,
    pub level: u64,
    pub deviation: ForeignDeviation,
    pub spread: ForeignSpread,
    pub pairs: ForeignPairs,
}

// What reading a job text answers.
#[repr(C)]
#[derive(Clone, Copy)]
pub struct ForeignRead {
    pub refusal: ForeignRefusal,
    pub units: usize,
    pub groups: usize,
}

// What settling a job answers; the passes are counted where it settles and for 11 and 12.
#[repr(C)]
#[derive(Clone, Copy)]
pub struct ForeignSettled {
    pub refusal: ForeignRefusal,
    pub passes: u64,
}

// What reporting a job answers: the report's length, and the passes of 11 and 12.
#[repr(C)]
#[derive(Clone, Copy)]
pub struct ForeignReport {
    pub refusal: ForeignRefusal,
    pub passes: u64,
    pub length: usize,
}

// What writing a job answers: the text's length.
#[repr(C)]
#[derive(Clone, Copy)]
pub struct ForeignWritten {
    pub refusal: ForeignRefusal,
    pub length: usize,
}

// No refusal.
const ACCEPTED: ForeignRefusal = ForeignRefusal {
    number: 0,
    place: 0,
};

// A refusal as C gets it.
impl From<Refusal> for ForeignRefusal {
    ghost from_gives = { λ refusal foreign. foreign ≡ foreign_refusal refusal };

    fn from(refusal: Refusal) -> ForeignRefusal {
        ForeignRefusal {
            number: refusal.number,
            place: refusal.place,
        }
    }
}

// A levelling as C gets it.
impl From<Result<Levelled, Refusal>> for ForeignLevelled {
    ghost from_gives = { λ answer foreign. foreign ≡ foreign_levelled answer };

    fn from(answer: Result<Levelled, Refusal>) -> ForeignLevelled {
        match answer {
            Ok(levelled) => ForeignLevelled {
                refusal: ACCEPTED,
                level: levelled.level.copies(),
                deviation: ForeignDeviation {
                    value: levelled.figures.deviation.0,
                },
                spread: ForeignSpread {
                    value: levelled.figures.spread.0,
                },
                pairs: ForeignPairs {
                    value: levelled.figures.pairs.0,
                },
            },
            Err(refusal) => ForeignLevelled {
                refusal: refusal.into(),
                level: 0,
                deviation: ForeignDeviation { value: 0 },
                spread: ForeignSpread { value: 0 },
                pairs: ForeignPairs { value: 0 },
            },
        }
    }
}

// Levels a group on lists, as group::level does.
#[unsafe(no_mangle)]
pub extern "C" fn danivomel_level(
    lows: &[u64],
    highs: &[u64],
    marks: &[u64],
    total: u64,
    plan: &mut [u64],
) -> ForeignLevelled
    ensures value { result ≡ foreign_levelled (levelling lows.now highs.now marks.now total (length plan.old)) }
    ensures plan_after { plan.new ≡ plan_after (levelling lows.now highs.now marks.now total (length plan.old)) (levelled lows.now highs.now total) plan.old }
{
    group::level(lows, highs, marks, total, plan).into()
}

// A limit as C gives it.
impl From<ForeignLimit> for Limit {
    ghost from_gives = { λ foreign limit. limit ≡ foreign_limit foreign };

    fn from(foreign: ForeignLimit) -> Limit {
        if foreign.any {
            return Limit::Any;
        }
        Limit::AtMost(foreign.at_most)
    }
}

// A group's limits as C gives them.
impl From<ForeignLimits> for Limits {
    ghost from_gives = { λ foreign limits. limits ≡ foreign_limits foreign };

    fn from(foreign: ForeignLimits) -> Limits {
        Limits {
            deviation: foreign.deviation.into(),
            spread: foreign.spread.into(),
            pairs: foreign.pairs.into(),
        }
    }
}

// A narrowing as C gets it.
impl From<Result<(), Refusal>> for ForeignRefusal {
    ghost from_gives = { λ answer foreign. foreign ≡ foreign_narrowed answer };

    fn from(answer: Result<(), Refusal>) -> ForeignRefusal {
        match answer {
            Ok(()) => ACCEPTED,
            Err(refusal) => refusal.into(),
        }
    }
}

// Narrows a group on lists, as group::narrow does.
#[unsafe(no_mangle)]
pub extern "C" fn danivomel_narrow(
    lows: &mut [u64],
    highs: &mut [u64],
    marks: &[u64],
    total: u64,
    limits: ForeignLimits,
) -> ForeignRefusal
    ensures value { result ≡ foreign_narrowed (narrowing lows.old highs.old marks.now total (foreign_limits limits)) }
    ensures lows_after { lows.new ≡ list_after (narrowing lows.old highs.old marks.now total (foreign_limits limits)) (marked_lows marks.now lows.old highs.old total (foreign_limits limits)) lows.old }
    ensures highs_after { highs.new ≡ list_after (narrowing lows.old highs.old marks.now total (foreign_limits limits)) (marked_highs marks.now lows.old highs.old total (foreign_limits limits)) highs.old }
{
    group::narrow(lows, highs, marks, total, limits.into()).into()
}
