//! What a version of a cell means. No value of `Kept` is made.
use plain_model::{Plain, PlainCall};
use std::collections::LinkedList;

/// A call that installed.
#[derive(Drop)]
pub struct Entry<X> {
    /// The number of the pass, from 1 on.
    pub caller: u32,
    /// The number that the caller gave the call.
    pub ordinal: u64,
    pub call: X,
}

/// A collection, and the calls that made it, the first one first.
pub struct Kept {
    pub value: Plain,
    pub entries: LinkedList<Entry<PlainCall>>,
}
