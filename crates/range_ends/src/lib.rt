// The ends of the ranges that narrowing leaves, member by member, over a group's breakpoint table.
#![tactic(auto)]

mod ends;
mod known;
pub mod members;
