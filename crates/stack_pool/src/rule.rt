//! The rule of the table.
use crate::view::View;
use atomic_table::{Seat, Shared, TableRule};

/// Word and slot k are those of the place k. The key is the number of seats.
pub struct PlaceRule;

impl<S> TableRule<Option<S>, View<S>, u64> for PlaceRule {
    ghost use Rattle.stack_pool.specs.Rule.{SoundPool};
    ghost use Rattle.stack_pool.specs.Views.{first_view};

    ghost holds = { SoundPool };

    ghost first = { first_view };
}

pub(crate) type Board<S> = Shared<Option<S>, View<S>, u64, PlaceRule>;

pub(crate) type Chair<S> = Seat<Option<S>, View<S>>;
