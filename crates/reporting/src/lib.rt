// Reporting a job text: settled, and what the settling answers written into a buffer.
#![tactic(auto)]

pub mod calls;
pub mod program;
