// Settling: a table narrowed by turns, in passes, until one changes nothing.
#![tactic(auto)]

pub mod calls;
pub mod passes;
pub mod turns;
