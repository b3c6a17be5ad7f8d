//! Walks along collections of any kind, each in a place of a pool for one thread, as the plain
//! model says.
//!
//! `rest_of` shares a collection's elements and stands before the first of them. `Walks::start`
//! puts that into a place, and answers a handle on it; a walk along a builder starts with what
//! `Walked::rest` of the builder answers. Copies of a handle are the same walk.
#![tactic(auto)]

mod laws;
mod rests;
mod walks;

pub use enumerators::{Rest, Walk, Walked};
pub use laws::commands_are_calls;
pub use rests::rest_of;
pub use walks::Walks;
