//! The language of scripts: what bytes are a script, and the canonical text of one.
#![tactic(auto)]

mod commands;
mod fault;
mod grammar;
mod laws;
mod limits;
mod lines;
mod parser;
mod printing;
mod symbols;
mod upgrading;

pub use fault::{ParseError, ParseFault};
pub use grammar::parse;
pub use laws::printed_scripts_are_read_again;
pub use plain_model::{Part, Script};
pub use printing::print;
pub use upgrading::upgrade;
