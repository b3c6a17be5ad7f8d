//! Runs: what a worker's commands do to cells, and a run of one worker on the calling thread, as
//! the plain model says.
#![tactic(auto)]

mod calls;
mod cell_run;
mod cells;
mod one_thread;
mod run;
mod work;
mod worker;

pub use cells::Cells;
pub use run::run_alone;
pub use worker::run_parts;
