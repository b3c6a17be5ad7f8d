//! Tests of builders, apart from the library, which is proved once so.
#![tactic(auto)]

#[cfg(test)]
mod dict_tests;
#[cfg(test)]
mod hash_set_tests;
#[cfg(test)]
mod map_tests;
#[cfg(test)]
mod refusal_tests;
#[cfg(test)]
mod set_tests;
#[cfg(test)]
mod tests;
