//! What a seat knows. No value of these types is made.
use std::collections::LinkedList;

/// What a step was.
pub enum Kind {
    Probe,
    Take,
    Back,
    Hold,
    Clear,
}

/// One step of a seat: its kind, its place, and the number found there.
pub struct Found {
    pub kind: Kind,
    pub place: u64,
    pub word: u64,
}

/// What a seat keeps at a place.
pub enum Keep<S> {
    Nothing,
    /// The content is at home.
    Home(u64, S),
    /// The slot is in the seat's hand.
    Out(u64),
    /// The content is with a caller, and the slot is at home, empty.
    Lent(u64),
}

/// What a seat knows of its pool.
pub struct View<S> {
    /// `STRIDE` for a spent seat.
    pub number: u64,
    /// The seat numbers that it may still give away.
    pub spare: LinkedList<u64>,
    /// The numbers of the seats that were joined into it.
    pub olds: LinkedList<u64>,
    /// How often it took a place.
    pub takings: u64,
    /// What it keeps at each place.
    pub kept: LinkedList<Keep<S>>,
    /// Each of its steps, in order.
    pub found: LinkedList<Found>,
}
