//! Tests of stacks, queues and lists of skew form, apart from the library, which is proved once so.
#![tactic(auto)]

#[cfg(test)]
mod tests;
