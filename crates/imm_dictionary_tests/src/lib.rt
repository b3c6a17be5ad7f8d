//! Tests of dictionaries and hash sets, apart from the library, which is proved once so.
#![tactic(auto)]

#[cfg(test)]
mod tests;
