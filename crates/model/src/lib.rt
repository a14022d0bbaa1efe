// The planner's types, and what a limit allows.
#![tactic(auto)]

ghost use Rattle.std.specs.Prelude.{◌≡◌, ◌-◌, ◌*◌, ◌≤◌};
ghost use Rattle.model.specs.Figures.{limit_within};
ghost use Rattle.model.specs.Shares.{checked};

pub mod differences;
pub mod levels;
pub mod lists;
pub mod numbers;
pub mod running;
pub mod shares;

// A job has at most so many units, and a group as many members.
pub const MOST_UNITS: usize = 256;

// A group's total is at most this.
pub const GREATEST_TOTAL: u64 = 256_000_000;

// A deviation limit is at most this.
pub const GREATEST_DEVIATION: u64 = 100_000_000_000;

// A spread limit is at most this.
pub const GREATEST_SPREAD: u64 = 100_000_000_000_000_000;

// A pairs limit is at most this.
pub const GREATEST_PAIRS: u64 = 100_000_000_000;

// The mark of a unit that runs.
pub const RUNNING: u64 = 0;

// The mark of a shut unit.
pub const SHUT: u64 = 1;

// A share: a whole number of copies from LEAST to GREATEST.
#[derive(Clone, Copy)]
pub struct Share {
    copies: u64,
}

impl Share {
    pub const LEAST: u64 = 0;

    pub const GREATEST: u64 = 1_000_000;

    // A share of so many copies, none where that is no share.
    pub fn new(copies: u64) -> Option<Share>
        ensures { result ≡ checked copies }
    {
        if copies <= Share::GREATEST {
            return Some(Share { copies });
        }
        None
    }

    pub fn copies(self) -> u64
        ensures { result ≡ self.copies }
    {
        self.copies
    }
}

// typeof.n.D of document 001: the sum of |n × share − S|.
#[derive(Clone, Copy)]
pub struct Deviation(pub u64);

// n times the squared deviation of document 002: n × (sum of squares) − S × S.
#[derive(Clone, Copy)]
pub struct Spread(pub u64);

impl Spread {
    // The spread of so many shares, from the sum of their squares and their total.
    pub fn from_squares(count: u64, squares: u64, total: u64) -> Spread
        requires total_bound { total * total ≤ count * squares }
        requires squares_bound { count * squares ≤ 18_446_744_073_709_551_615 }
        ensures { result.0 ≡ count * squares - total * total }
    {
        Spread(count * squares - total * total)
    }
}

// The sum of larger less smaller share over all pairs: n × S times the Gini coefficient of document 003.
#[derive(Clone, Copy)]
pub struct Pairs(pub u64);

// The figures of a group's shares.
#[derive(Clone, Copy)]
pub struct Figures {
    pub deviation: Deviation,
    pub spread: Spread,
    pub pairs: Pairs,
}

// A limit is a number or the word any.
#[derive(Clone, Copy)]
pub enum Limit {
    Any,
    AtMost(u64),
}

impl Limit {
    // Whether the limit is any, or a number in its range.
    pub fn within(self, greatest: u64) -> bool
        ensures { result ≡ limit_within self greatest }
    {
        match self {
            Limit::Any => true,
            Limit::AtMost(most) => most <= greatest,
        }
    }
}

// A group's limits.
#[derive(Clone, Copy)]
pub struct Limits {
    pub deviation: Limit,
    pub spread: Limit,
    pub pairs: Limit,
}

// What is asked of a group's members: a total to share out, within limits.
#[derive(Clone, Copy)]
pub struct Question {
    pub total: u64,
    pub limits: Limits,
}

// A refusal: its number in the specification, and its place.
#[derive(Clone, Copy)]
pub struct Refusal {
    pub number: u64,
    pub place: u64,
}

// What one group's turn answers: its ranges are narrowed, or there is no plan (11 or 12).
#[derive(Clone, Copy)]
pub enum Turn {
    Narrowed,
    NoPlan(u64),
}
