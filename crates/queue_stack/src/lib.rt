//! Lists whose front is at hand: a skew-binary list, stacks and queues.
#![tactic(auto)]

mod fault;
mod full;
mod queue;
mod skew;
mod stack;

pub use fault::EndFault;
pub use queue::ImmQueue;
pub use skew::SkewList;
pub use stack::ImmStack;
