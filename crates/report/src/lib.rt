// The report of a settled job.
#![tactic(auto)]

pub mod answers;
pub mod group_lines;
pub mod lines;

// A report that is written: its length, and the passes.
#[derive(Clone, Copy)]
pub struct Written {
    pub length: usize,
    pub passes: u64,
}
