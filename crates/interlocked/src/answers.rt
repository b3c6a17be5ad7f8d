//! What calls on a cell answer.
use plain_model::Reply;
use version_slots::{Front, PinFault, SLOTS};

/// Where a call stands in the history.
#[derive(Clone, Copy)]
pub struct Stamp {
    /// How many calls had installed by then, this one included.
    pub position: u64,
    pub installed: bool,
    /// The version that the call installed, or on which it gave its reply.
    pub front: Front,
}

/// Why a try has to be made again. Nothing was installed.
#[derive(Drop)]
pub enum Retry {
    /// The last version was not pinned.
    Pin(PinFault),
    /// Another pass drew a ticket between the load of the ticket word and the exchange.
    Ticket { wanted: u64, found: u64 },
    /// Each gate was out of reach. These are the words that were found there last.
    Crowded { found: [u64; SLOTS] },
    /// Another version was installed after the one that was pinned.
    Lost { pinned: Front, found: Front },
    /// All tickets were drawn, or the pinned version has the last position.
    Spent { counter: u64 },
}

/// What a try came to.
#[derive(Drop)]
pub enum Attempt {
    /// The call is done, with this reply.
    Done(Reply, Stamp),
    Again(Retry),
}

/// Why a value was not read.
#[derive(Drop)]
pub enum PeekFault {
    Pin(PinFault),
    Memory,
}
