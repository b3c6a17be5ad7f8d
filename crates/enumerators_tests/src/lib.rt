//! Tests of walks, apart from the library, which is proved once so.
#![tactic(auto)]

#[cfg(test)]
mod built_tests;
#[cfg(test)]
mod shared_tests;
#[cfg(test)]
mod tests;
