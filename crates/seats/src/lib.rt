//! Cells that several workers share, and one worker at them: its passes, what it noted of its calls,
//! and the parts that it does.
#![tactic(auto)]

mod ends;
mod passes;
mod places;
mod seat;
mod shared;
mod worker;

pub use ends::{close_cell, open_cell};
pub use passes::SharedPass;
pub use seat::Seat;
pub use shared::{CellChange, CellValue, SharedCell};
pub use worker::do_parts;
