// A collection that is replaced by others, and the number of its changes: what the builders stand on
// whose collections are not changed in place.
ghost use Rattle.std.specs.Prelude.{◌≡◌, Ok};
ghost use Rattle.plain_model.specs.Builders.{new_builder};
ghost use Rattle.builders.specs.Changes.{Adopts, CanCount};

use imm_base::{Edit, Step};
use std::marker::Model;

/// A collection, and how many changes gave another one.
#[derive(Drop)]
pub(crate) struct Current<C> {
    collection: C,
    version: u64,
}

impl<C> Model for Current<C> {
    ghost use Rattle.plain_model.specs.Builders.{Built};

    ghost Value = { Built C };

    ghost view = { λ a. record { contents = a.collection; changes = a.version } };
}

impl<C> Current<C> {
    // The collection, with no change so far.
    pub(crate) fn new(collection: C) -> Current<C>
        ensures { result ≡ new_builder collection }
    {
        Current {
            collection,
            version: 0,
        }
    }

    // The collection.
    pub(crate) fn collection(&self) -> &C
        ensures { result.now ≡ self.now.contents }
    {
        &self.collection
    }

    // How many changes gave another collection.
    pub(crate) fn version(&self) -> u64
        ensures { result ≡ self.now.changes }
    {
        self.version
    }
}

impl<C: Drop> Current<C> {
    // The other collection, where there is one, in place of the collection.
    pub(crate) fn adopt(&mut self, edit: Edit<C>) -> Step
        requires { CanCount self.old }
        ensures { Adopts (Ok result) edit self.old self.new }
    {
        let Edit::New(collection) = edit else {
            return Step::Same;
        };
        self.collection = collection;
        self.version += 1;
        Step::New
    }
}
