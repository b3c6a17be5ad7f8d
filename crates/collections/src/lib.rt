//! Collections of any kind that a run can have, behind one type, as the plain model says.
#![tactic(auto)]

mod answers;
mod arguments;
mod array;
mod collection;
mod dict;
mod frozen;
mod hash_set;
mod list;
mod of_kind;
mod queue;
mod sorted_map;
mod sorted_set;
mod stack;

pub use arguments::{elements, pairs};
pub use collection::{Collection, Repr};
pub use frozen::{FrozenCollection, frozen_answers};
pub use of_kind::{Changed, Judged, judged};
