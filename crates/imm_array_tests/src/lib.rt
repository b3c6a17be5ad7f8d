//! Tests of arrays and of their builder, apart from the library, which is proved once so.
#![tactic(auto)]

#[cfg(test)]
mod tests;
