//! Places that are lent out under numbers that never come twice: a pool for one thread, and one
//! that several threads share without waiting for one another.
#![tactic(auto)]

mod calls;
mod closing;
mod fault;
mod lending;
mod place;
mod plays;
mod pool;
mod rule;
mod seat;
mod shared;
mod steps;
mod view;

pub use fault::{Owner, PoolFault, TakeFault};
pub use place::Place;
pub use pool::Pool;
pub use rule::PlaceRule;
pub use seat::{Held, PoolSeat};
pub use shared::SharedPool;
pub use view::{Found, Keep, Kind, View};

/// How many places a pool has for each seat, and how many a seat may own.
pub const PLACES: u32 = 35;

/// The numbers of a seat are this far apart: its k-th taking has the number `STRIDE * k + seat`,
/// where `seat` is its own number, below `STRIDE`. So no number comes twice, and 0 is nobody's.
pub const STRIDE: u64 = 16;

/// The most takings of one seat.
pub const MOST_TAKINGS: u64 = 1 << 58;
