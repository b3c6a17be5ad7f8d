//! One line of a script: its words, and what they say whatever stands on the other lines.
#![tactic(auto)]

mod arguments;
mod calls;
mod codes;
mod comparers;
mod contents;
mod laws;
mod line;
mod names;
mod numerals;
mod operations;
mod queries;
mod sources;
mod table;
mod values;
mod words;

pub use codes::{Code, both_or_least};
pub use laws::written_lines_are_read_again;
pub use line::{Line, command_values, line_of};
pub use words::{Words, split_words};
