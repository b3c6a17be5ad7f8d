//! Tests of values, orders and streams, apart from the library, which is proved once so.
#![tactic(auto)]

#[cfg(test)]
mod tests;
