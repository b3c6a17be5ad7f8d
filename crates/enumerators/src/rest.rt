//! A share of a collection, and a place in it.
ghost use Rattle.std.specs.Prelude.{◌≡◌, drop, slice_get, IfOk};
ghost use Rattle.plain_model.specs.Places.{next, reset, start_of};
ghost use Rattle.enumerators.specs.Series.{first_place};
ghost use Rattle.enumerators.specs.Rests.{elems_rest, IsPlaceIn};

use crate::series::{Place, Series};
use imm_base::{Pair, Val};
use plain_model::Elem;
use std::marker::Model;

/// A share of the elements of a collection, and a place in it: what is left to walk. Contracts see
/// the list walked, the elements to come and the current one.
#[derive(Drop)]
pub struct Rest {
    elements: Elements,
    place: Place,
    current: Option<Elem>,
}

/// The elements that a walk goes along.
#[derive(Drop)]
pub enum Elements {
    Values(Series<Val>),
    Pairs(Series<Pair<Val, Val>>),
}

impl Model for Rest {
    ghost use Rattle.plain_model.specs.declared.plain.Elem.{Elem as Element};
    ghost use Rattle.plain_model.specs.Places.{Rest as Remainder};

    ghost Value = { Remainder Element };

    ghost use Rattle.enumerators.specs.Series.{first_place};
    ghost use Rattle.enumerators.specs.Rests.{elems_rest, IsPlaceIn};

    ghost view = { λ r. record {
      whole = elems_rest r.elements first_place;
      to_come = elems_rest r.elements r.place;
      current = r.current;
    } };

    ghost invariant = { λ r. IsPlaceIn r.elements r.place × IsPlaceIn r.elements first_place };
}

impl Elements {
    // The element at the place, which moves behind it. O(log n) for n elements.
    #[tactic(auto, using(crate::proofs::Steps::shown))]
    fn next_at(&self, place: &mut Place) -> Option<Elem>
        requires { IsPlaceIn self.now place.old }
        ensures place { IsPlaceIn self.now place.new }
        ensures first { result ≡ slice_get (elems_rest self.now place.old) 0 }
        ensures rest { elems_rest self.now place.new ≡ drop 1 (elems_rest self.now place.old) }
    {
        match self {
            Elements::Values(series) => match series.next_at(place) {
                Some(value) => Some(Elem::One(*value)),
                None => None,
            },
            Elements::Pairs(series) => match series.next_at(place) {
                Some(pair) => Some(Elem::Pair(pair.key, pair.value)),
                None => None,
            },
        }
    }
}

impl Rest {
    // Before the first of the elements.
    pub(crate) fn of(elements: Elements) -> Rest
        requires { IsPlaceIn elements first_place }
        ensures { result ≡ start_of (elems_rest elements first_place) }
    {
        Rest {
            elements,
            place: Place::start(),
            current: None,
        }
    }

    // Moves the first element to come into the current one, and answers it.
    #[tactic(auto, using(crate::proofs::Steps::step_is))]
    pub(crate) fn next(&mut self) -> Option<Elem>
        ensures moved { self.new ≡ next self.old }
        ensures answer { result ≡ self.new.current }
    {
        self.current = self.elements.next_at(&mut self.place);
        self.current
    }

    // The element that the walk stands at.
    pub(crate) fn current(&self) -> Option<Elem>
        ensures { result ≡ self.now.current }
    {
        self.current
    }

    // Goes back before the first element.
    pub(crate) fn reset(&mut self)
        ensures { self.new ≡ reset self.old }
    {
        self.place = Place::start();
        self.current = None;
    }
}
