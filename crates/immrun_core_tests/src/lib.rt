//! Tests of the program's core, apart from the library, which is proved once so.
#![tactic(auto)]

#[cfg(test)]
mod gates;
#[cfg(test)]
mod many;
#[cfg(test)]
mod tests;
