// A job and its table written as a job text.
#![tactic(auto)]

pub mod calls;
pub mod program;
