//! Builders of collections of any kind: one type for those that count their changes, and calls on
//! the builder of arrays, as the plain model says.
#![tactic(auto)]

mod array;
mod builder;
mod dict;
mod hash_set;
mod list;
mod of_kind;
mod sorted_map;
mod sorted_set;

pub use array::{
    array_builder_of, change_array, drain_array, freeze_array, move_array, set_capacity,
};
pub use builder::CollectionBuilder;
