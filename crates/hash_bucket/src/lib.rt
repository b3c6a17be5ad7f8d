//! Elements under an equality, in buckets by their hashes.
#![tactic(auto)]

mod bucket;
mod change;
mod find;
mod list;
mod seek;
mod tree;

pub use bucket::Bucket;
pub use seek::{SameAs, Seek};
pub use tree::HashTree;
