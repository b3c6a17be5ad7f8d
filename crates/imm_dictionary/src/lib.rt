//! Persistent sets and maps under an equality, seen in ordinal order.
#![tactic(auto)]

mod by_key;
mod dict;
mod dict_edit;
mod dict_query;
mod dict_range;
mod set;
mod set_edit;
mod set_range;
mod set_relation;

pub use by_key::ByKey;
pub use dict::Dict;
pub use set::ImmHashSet;
