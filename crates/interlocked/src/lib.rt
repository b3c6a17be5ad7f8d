//! A cell that keeps a persistent collection, which several callers replace by calls.
//! `docs/version-cell.md` explains the cell of versions below it.
#![tactic(auto)]

mod answers;
mod array;
mod cell;
mod change;
mod dict;
mod dict_cell;
mod entry;
mod logged;
mod outcomes;
mod passes;
mod queue;
mod stack;
mod tries;

pub use answers::{Attempt, PeekFault, Retry, Stamp};
pub use array::{ArrayCall, ArrayValue};
pub use cell::{CellPass, ImmCell, update_tells};
pub use change::{Change, Outcome, Share};
pub use dict::DictCall;
pub use entry::{Entry, Kept};
pub use logged::Logged;
pub use queue::QueueCall;
pub use stack::StackCall;
