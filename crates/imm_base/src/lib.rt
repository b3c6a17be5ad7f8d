//! Values, and the traits of the outside: what every other crate stands on.
#![tactic(auto)]

mod comparers;
mod dup;
mod faults;
mod gate;
mod hashes;
pub mod laws;
mod mem;
mod memory;
mod order;
mod outside;
mod pair;
mod pure;
mod std_streams;
mod text24;
mod val;

pub use comparers::{SetTest, ValEq, ValOrder, ValTest};
pub use dup::{Dup, Item, Key};
pub use faults::{Fault, MapFault, Refused, SetFault};
pub use gate::{FreeGate, Gate, Tokens};
pub use mem::{MemSink, MemSource};
pub use memory::Memory;
pub use order::{HashEq, Order, Ordinal, Test};
pub use outside::{Failed, Sink, Source};
pub use pair::Pair;
pub use pure::{PureSink, PureSource};
pub use std_streams::{StdSink, StdSource};
pub use text24::Text24;
pub use val::{Edit, Step, Val};

/// The most elements of a collection.
pub const LIMIT: u32 = 65_536;
