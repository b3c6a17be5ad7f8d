//! The names of a part.
ghost use Rattle.std.specs.Prelude.{◌≡◌, true, IfOk, OnOk, OnErr, option_map};
ghost use Rattle.std.specs.Option.{option_copied};
ghost use Rattle.plain_model.specs.Locals.{bind, bound, collection, collection_at, contents_at, no_locals};
ghost use Rattle.plain_model.specs.Queries.{shown};
ghost use Rattle.plain_model.specs.Sources.{are_within};
ghost use Rattle.locals.specs.Bound.{bound_of};
ghost use Rattle.locals.specs.Results.{bind_some};

use crate::Bound;
use crate::results::Binding;
use collections::Collection;
use imm_base::{Memory, Text24};
use plain_model::{Answer, Names, Values};
use std::alloc::Global;
use std::marker::Model;

/// The local names of a part, each with what it is bound to. Contracts see the names of the plain
/// model.
///
/// Finding and binding a name take O(n) steps for n names. Where a call answers `Memory`, memory
/// ran out. No clause says when that is.
#[derive(Drop)]
pub struct Locals {
    names: Names<Bound>,
}

impl Model for Locals {
    ghost use Rattle.plain_model.specs.Locals.{Locals};

    ghost Value = { Locals };

    ghost use Rattle.locals.specs.Bound.{locals_of};

    ghost view = { λ s. locals_of s.names };
}

impl Locals {
    /// No names, without memory.
    pub fn new(alloc: Global) -> Locals
        ensures { result ≡ no_locals }
    {
        Locals {
            names: Names::new(alloc),
        }
    }

    // What a name is bound to.
    pub(crate) fn bound(&self, name: &Text24) -> Option<&Bound>
        ensures { option_map bound_of (option_copied result) ≡ bound self.now name.now }
    {
        self.names.get(name)
    }

    /// The collection that a name is bound to.
    pub fn collection(&self, name: &Text24) -> Option<&Collection>
        ensures { option_copied result ≡ collection_at self.now name.now }
    {
        match self.names.get(name) {
            Some(bound) => bound.as_collection(),
            None => None,
        }
    }

    /// Copies of the elements or pairs that a name stands for.
    pub(crate) fn values(&self, alloc: Global, name: &Text24) -> Result<Option<Values>, Memory>
        ensures values { IfOk result (λ v. v ≡ option_map (λ p. p.values) (contents_at self.now name.now)) }
        ensures within { IfOk result (λ v. are_within v ≡ true) }
    {
        match self.bound(name) {
            Some(bound) => Ok(Some(bound.values(alloc)?)),
            None => Ok(None),
        }
    }

    /// The count of what a name stands for, and copies of the first elements or pairs.
    pub(crate) fn preview(&self, alloc: Global, name: &Text24) -> Result<Option<Answer>, Memory>
        ensures { IfOk result (λ a. a ≡ option_map (λ p. shown p.values) (contents_at self.now name.now)) }
    {
        match self.bound(name) {
            Some(bound) => Ok(Some(bound.preview(alloc)?)),
            None => Ok(None),
        }
    }

    /// Binds a name, in place of what it was bound to. Want of memory leaves the names as they
    /// were.
    pub fn bind(&mut self, name: Text24, value: Bound) -> Result<(), Memory>
        ensures ok { OnOk result (self.new ≡ bind name (bound_of value) self.old) }
        ensures err { OnErr result (self.new ≡ self.old) }
    {
        self.names.bind(name, value)?;
        Ok(())
    }

    /// Binds a name to a collection. Want of memory leaves the names as they were.
    pub fn bind_collection(&mut self, name: Text24, value: Collection) -> Result<(), Memory>
        ensures ok { OnOk result (self.new ≡ bind name (collection value) self.old) }
        ensures err { OnErr result (self.new ≡ self.old) }
    {
        self.bind(name, Bound::Collection(value))
    }

    /// Binds a name, if there is one.
    pub(crate) fn bind_some(&mut self, binds: Option<Binding>) -> Result<(), Memory>
        ensures { OnOk result (self.new ≡ bind_some binds self.old) }
    {
        match binds {
            Some((name, value)) => self.bind(name, value),
            None => Ok(()),
        }
    }
}
