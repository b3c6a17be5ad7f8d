//! What each step on the table tells. These types are for the proofs alone.
ghost use Rattle.stack_pool.specs.Steps.{probed, laid, fetched, took, backed, lifted, cleared};
ghost use Rattle.stack_pool.specs.Views.{dealing, dealt, joined, spent};

use crate::view::View;
use atomic_table::{Join, Play, Split};

/// A load of a place's word.
pub(crate) struct ProbePlace;

impl<S> Play<Option<S>, View<S>> for ProbePlace {
    ghost then = { probed };
}

/// A load by which the empty slot in the seat's hand goes home.
pub(crate) struct LayPlace;

impl<S> Play<Option<S>, View<S>> for LayPlace {
    ghost then = { laid };
}

/// A load by which the empty slot comes into the seat's hand.
pub(crate) struct FetchPlace;

impl<S> Play<Option<S>, View<S>> for FetchPlace {
    ghost then = { fetched };
}

/// An exchange of a free place's word for the seat's next number.
pub(crate) struct TakePlace;

impl<S> Play<Option<S>, View<S>> for TakePlace {
    ghost then = { took };
}

/// A swap by which the content in the seat's hand goes home.
pub(crate) struct BackPlace;

impl<S> Play<Option<S>, View<S>> for BackPlace {
    ghost then = { backed };
}

/// A swap by which the content comes into the seat's hand.
pub(crate) struct HoldPlace;

impl<S> Play<Option<S>, View<S>> for HoldPlace {
    ghost then = { lifted };
}

/// A swap by which the place is nobody's.
pub(crate) struct ClearPlace;

impl<S> Play<Option<S>, View<S>> for ClearPlace {
    ghost then = { cleared };
}

/// A seat gives its spare numbers to a new seat.
pub(crate) struct Deal;

impl<S> Split<View<S>> for Deal {
    ghost left = { dealing };

    ghost right = { dealt };
}

/// A seat that keeps nothing ends in another one.
pub(crate) struct Gather;

impl<S> Join<View<S>> for Gather {
    ghost both = { joined };

    ghost spent = { spent };
}
