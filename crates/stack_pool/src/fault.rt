//! Handles on a place, and why a call on one is refused.

/// A handle on a place. Copies of it are the same handle.
#[derive(Clone, Copy)]
pub struct Owner {
    pub number: u64,
    pub place: u32,
}

/// Why a call on a pool is refused.
#[derive(Debug, Drop)]
pub enum PoolFault {
    /// No place was free, or the seat owns as many as a seat may.
    PoolFull,
    /// The place is not the handle's, or does not exist. `holder` is the number that owns it, if
    /// one does.
    Disposed { holder: Option<u64> },
    /// The place is the handle's, and the handle is another seat's.
    Busy { number: u64 },
    /// The seat has made all its takings.
    NoNumber,
}

/// A refused taking, with the content that was handed in.
#[derive(Drop)]
pub struct TakeFault<S> {
    pub fault: PoolFault,
    pub rest: S,
}
