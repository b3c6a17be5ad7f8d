//! The generated scripts, and the summary of what one of them comes to.
#![tactic(auto)]

mod scripts;
mod summaries;

pub use scripts::{NUMBER_LIMIT, gen_script};
pub use summaries::summary_text;
