//! A worker of a run at its seat.

/// A worker's seat, and what it told once its parts are done.
#[derive(Drop)]
pub(crate) struct Lane<S, T> {
    pub seat: S,
    pub told: Option<T>,
}

/// The most workers of a run. A cell has at most eight passes.
pub const WORKERS_LIMIT: u32 = 8;
