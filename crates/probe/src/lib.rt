// Probes of pinned values on a group's breakpoint table.
#![tactic(auto)]

pub mod figures;
pub mod lookups;
pub mod newton;
pub mod pairs;
pub mod pinned;
pub mod probing;
pub mod sides;
pub mod terms;
