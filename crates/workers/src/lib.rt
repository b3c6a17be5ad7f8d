//! Runs of several workers, and what they come to.
#![tactic(auto)]

mod closing;
mod lanes;
mod laws;
mod opening;
mod run;
mod tables;
mod working;

pub use lanes::WORKERS_LIMIT;
pub use laws::workers_come_to_lawful_reports;
pub use run::run_script;
