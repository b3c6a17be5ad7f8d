//! Calls on a cell: what each of them does at a collection, as the plain model says.
#![tactic(auto)]

mod answers;
mod call;
mod end_calls;
mod key_calls;
mod outcome;

pub use call::CellCall;
pub use key_calls::value_in;
pub use outcome::Outcome;
