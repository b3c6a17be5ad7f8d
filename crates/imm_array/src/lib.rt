//! Immutable arrays, each change of which is a whole copy, and the builder of arrays.
#![tactic(auto)]

mod array;
mod builder;
mod copies;
mod fault;

pub use array::ImmArray;
pub use builder::ArrayBuilder;
pub use fault::ArrayFault;
