// The breakpoint table of a group: the bounds of its ranges in order, and at each of them the sums of the shares there.
#![tactic(auto)]

pub mod build;
pub mod distances;
pub mod rows;
pub mod table;
