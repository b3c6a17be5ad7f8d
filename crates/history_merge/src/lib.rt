//! One history of a cell, out of the lines that each of its callers wrote down.
#![tactic(auto)]

mod weaving;

pub use weaving::merge;
