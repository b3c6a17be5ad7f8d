//! Builders: collections that are changed in place, and published again and again.
#![tactic(auto)]

mod current;
mod dict;
mod equal;
mod hash_set;
pub mod laws;
mod list;
mod list_change;
mod list_edit;
mod list_order;
mod list_query;
mod list_range;
mod map;
mod map_change;
mod map_edit;
mod map_query;
mod set;
mod set_change;
mod set_edit;
mod set_query;
mod versioned;

pub use dict::DictBuilder;
pub use hash_set::HashSetBuilder;
pub use list::ListBuilder;
pub use list_change::ListChange;
pub use map::MapBuilder;
pub use map_change::MapChange;
pub use set::SetBuilder;
pub use set_change::SetChange;
