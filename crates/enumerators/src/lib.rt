//! Walks along collections, each in a place of a pool.
//!
//! `Walked::rest` shares a collection's elements and stands before the first of them. `Walk::start`
//! puts that into a place of a pool, and answers a handle on it. Copies of a handle are the same
//! walk.
#![tactic(auto)]

mod built;
mod collections;
mod rest;
mod series;
mod shared_walk;
mod walk;
mod walked;

pub use rest::Rest;
pub use walk::{Walk, WalkFault};
pub use walked::Walked;
