//! Frozen sets and maps, which never change and are quick to search.
#![tactic(auto)]

mod buckets;
mod choice;
mod kept;
mod map;
mod order;
mod pieces;
mod set;
mod table;

pub use map::FrozenMap;
pub use plain_model::Strategy;
pub use set::FrozenSet;
