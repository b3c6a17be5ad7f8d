//! What a local name is bound to.
ghost use Rattle.std.specs.Prelude.{◌≡◌, true, Some, IfOk, option_map};
ghost use Rattle.std.specs.Option.{option_copied};
ghost use Rattle.plain_model.specs.Locals as model;
ghost use Rattle.plain_model.specs.Locals.{as_collection, ask_given, contents, gives};
ghost use Rattle.plain_model.specs.Queries.{shown};
ghost use Rattle.plain_model.specs.Sources.{are_within, is_within, query_values};

use collections::{Collection, FrozenCollection};
use imm_base::Memory;
use plain_model::{Answer, Query, Values};
use std::alloc::Global;

/// What a local name is bound to.
#[derive(Drop)]
pub enum Bound {
    Collection(Collection),
    Frozen(FrozenCollection),
}

impl Bound {
    ghost use Rattle.locals.specs.Bound.{bound_of, has_answer};

    /// The collection, where it is one.
    pub(crate) fn as_collection(&self) -> Option<&Collection>
        ensures { option_copied result ≡ as_collection (bound_of self.now) }
    {
        match self {
            Bound::Collection(collection) => Some(collection),
            Bound::Frozen(_) => None,
        }
    }

    /// Copies of its elements or pairs, in order.
    pub(crate) fn values(&self, alloc: Global) -> Result<Values, Memory>
        ensures values { IfOk result (λ v. option_map (λ p. p.values) (contents (bound_of self.now)) ≡ Some v) }
        ensures within { IfOk result (λ v. is_within v ≡ true) }
    {
        match self {
            Bound::Collection(collection) => collection.values(alloc),
            Bound::Frozen(frozen) => frozen.values(alloc),
        }
    }

    /// The count, and copies of its first elements or pairs.
    pub(crate) fn preview(&self, alloc: Global) -> Result<Answer, Memory>
        ensures { IfOk result (λ a. option_map (λ p. shown p.values) (contents (bound_of self.now)) ≡ Some a) }
    {
        match self {
            Bound::Collection(collection) => collection.preview(alloc),
            Bound::Frozen(frozen) => frozen.preview(alloc),
        }
    }

    /// What a question is answered.
    pub(crate) fn answer(&self, alloc: Global, query: &Query) -> Result<Answer, Memory>
        requires within { are_within (query_values query.now) ≡ true }
        requires answered { has_answer query.now (bound_of self.now) ≡ true }
        ensures { IfOk result (λ a. (s : model.Locals) → ask_given query.now (bound_of self.now) s ≡ Some (gives a s)) }
    {
        match self {
            Bound::Collection(collection) => collection.answer(alloc, query),
            Bound::Frozen(frozen) => frozen.answer(alloc, query),
        }
    }
}
