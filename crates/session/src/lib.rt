// Sessions: one act, the step, and the run.
#![tactic(auto)]

mod act;
pub mod runs;
pub mod stepping;
