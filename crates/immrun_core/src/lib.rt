//! Runs scripts: from the bytes read to the bytes written.
#![tactic(auto)]

mod digits;
mod fault_line;
mod program;
mod run;
mod status;
mod streams;
mod task;
mod word;

pub use plain_model::report_text;
pub use program::{plain_top, top};
pub use run::{run_one, run_script};
pub use status::Status;
pub use task::Task;
pub use word::{Text64, Word};
