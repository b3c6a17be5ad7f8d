//! The form of a list that builders own: an AVL tree whose nodes are private, or shared with frozen
//! trees.
#![tactic(auto)]

mod edit;
mod find;
mod freeze;
mod link;
mod remove;
mod turn;
mod walk;

pub use link::Link;
