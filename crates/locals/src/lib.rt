//! A worker's local commands: its names, and what each command answers and binds, as the plain
//! model says.
#![tactic(auto)]

mod bound;
mod commands;
mod locals;
mod results;

pub use bound::Bound;
pub use locals::Locals;
