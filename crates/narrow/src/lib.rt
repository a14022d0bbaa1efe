// Narrowing a group's ranges over its breakpoint table.
#![tactic(auto)]

pub mod ranges;
