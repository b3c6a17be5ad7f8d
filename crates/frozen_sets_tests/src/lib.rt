//! Tests of frozen sets and maps, apart from the library, which is proved once so.
#![tactic(auto)]

#[cfg(test)]
mod tests;
