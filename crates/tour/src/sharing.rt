//! One collection, read by two threads.
use crate::maps::Routes;
use imm_base::Val;
use std::thread::{Threads, join};

/// Whether each of two ports has a pool, looked up by two threads at once.
pub fn are_served(rt: &impl Threads, routes: &Routes, first: Val, second: Val) -> (bool, bool) {
    join(
        rt,
        || routes.get(&first).is_some(),
        || routes.get(&second).is_some(),
    )
}
