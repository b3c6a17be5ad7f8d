//! Frozen sets and maps.
ghost use Rattle.std.specs.Prelude.{◌≡◌, true, IfOk};
ghost use Rattle.std.specs.List.{zip};
ghost use Rattle.plain_model.specs.Frozen.{frozen_elements, frozen_pairs};
ghost use Rattle.plain_model.specs.Locals.{frozen_answer, frozen_contents, frozen_map, frozen_set};
ghost use Rattle.plain_model.specs.Plain.{count, elements, pairs};
ghost use Rattle.plain_model.specs.Queries.{shown};
ghost use Rattle.plain_model.specs.Sources.{is_within};
ghost use Rattle.collections.specs.Frozen.{frozen_answers, frozen_has_answer, frozen_map_answers};
ghost use Rattle.collections.specs.Frozen.{frozen_set_answers};

use crate::answers::{first_in, value_or_none};
use crate::arguments::{elements, pairs};
use frozen_sets::{FrozenMap, FrozenSet};
use imm_base::{Memory, Val, ValEq};
use plain_model::{Answer, Kind, Listed, Query, Values};
use std::alloc::{AllocError, Global};
use std::marker::Model;

/// A frozen set or a frozen map. Contracts see its elements or pairs, in the ordinal order of the
/// keys, and its equality.
///
/// Where a call answers `Memory`, memory ran out. No clause says when that is.
#[derive(Drop)]
pub struct FrozenCollection {
    repr: FrozenRepr,
}

// The collection of each kind.
#[derive(Drop)]
pub(crate) enum FrozenRepr {
    Set(FrozenSet),
    Map(FrozenMap<Val>),
}

impl Model for FrozenCollection {
    ghost use Rattle.plain_model.specs.Locals.{Frozen};
    ghost use Rattle.collections.specs.Frozen.{frozen_of};

    ghost Value = { Frozen };

    ghost view = { λ f. frozen_of f.repr };
}

// So many values are not frozen.
const TOO_MANY: usize = 2_147_483_648;

impl FrozenCollection {
    /// The set of these values: of those that are same, the first. It costs what
    /// `FrozenSet::from_list` does. From 2^31 values on it answers `Memory`.
    pub fn set_of_values(
        alloc: Global,
        eq: ValEq,
        values: &Values,
    ) -> Result<FrozenCollection, Memory>
        requires { is_within values.now ≡ true }
        ensures { IfOk result (λ f. f ≡ frozen_set eq (frozen_elements eq (elements values.now))) }
    {
        let values = elements(alloc, values)?;
        if values.len() >= TOO_MANY {
            return Err(Memory);
        }
        let set = FrozenSet::from_list(alloc, values.as_slice(), eq)?;
        Ok(FrozenCollection {
            repr: FrozenRepr::Set(set),
        })
    }

    /// The map of these pairs: of those whose keys are same, the latter, with its spelling. It costs
    /// what `FrozenMap::from_list` does. From 2^31 pairs on it answers `Memory`.
    pub fn map_of_values(
        alloc: Global,
        eq: ValEq,
        values: &Values,
    ) -> Result<FrozenCollection, Memory>
        requires { is_within values.now ≡ true }
        ensures { IfOk result (λ f. f ≡ frozen_map eq (frozen_pairs eq (pairs values.now))) }
    {
        let pairs = pairs(alloc, values)?;
        if pairs.len() >= TOO_MANY {
            return Err(Memory);
        }
        let map = FrozenMap::from_list(alloc, pairs.as_slice(), eq)?;
        Ok(FrozenCollection {
            repr: FrozenRepr::Map(map),
        })
    }

    /// How many elements or pairs there are. O(1).
    pub fn count(&self) -> u32
        ensures { result ≡ count (frozen_contents self.now).values }
    {
        match &self.repr {
            FrozenRepr::Set(set) => set.count(),
            FrozenRepr::Map(map) => map.count(),
        }
    }

    /// Copies of the elements or pairs, in the ordinal order of the keys. O(n).
    pub fn values(&self, alloc: Global) -> Result<Values, Memory>
        ensures values { IfOk result (λ v. v ≡ (frozen_contents self.now).values) }
        ensures within { IfOk result (λ v. is_within v ≡ true) }
    {
        Ok(match &self.repr {
            FrozenRepr::Set(set) => Values::List(Listed::from_vec(set.to_vec(alloc)?)),
            FrozenRepr::Map(map) => Values::Pairs(Listed::from_vec(pairs_of(alloc, map)?)),
        })
    }

    /// What a question is answered that frozen collections of the kind answer. O(n) for `keys` and
    /// `values`, and else a lookup.
    pub fn answer(&self, alloc: Global, query: &Query) -> Result<Answer, Memory>
        requires { frozen_has_answer self.now query.now ≡ true }
        ensures { IfOk result (λ a. a ≡ frozen_answer self.now query.now) }
    {
        match &self.repr {
            FrozenRepr::Set(set) => Ok(set_answer(set, query)),
            FrozenRepr::Map(map) => map_answer(alloc, map, query),
        }
    }

    /// The count, and copies of at most the first 16 elements or pairs. O(n).
    pub fn preview(&self, alloc: Global) -> Result<Answer, Memory>
        ensures { IfOk result (λ a. a ≡ shown (frozen_contents self.now).values) }
    {
        let count = self.count();
        let first = match &self.repr {
            FrozenRepr::Set(set) => {
                let elements = set.to_vec(alloc)?;
                Values::List(Listed::from_vec(first_in(alloc, elements.as_slice())?))
            }
            FrozenRepr::Map(map) => {
                let pairs = pairs_of(alloc, map)?;
                Values::Pairs(Listed::from_vec(first_in(alloc, pairs.as_slice())?))
            }
        };
        Ok(Answer::Shown { count, first })
    }
}

/// Whether frozen collections of a kind answer the question: a frozen set counts as a hash set, and
/// a frozen map as a dictionary.
pub fn frozen_answers(kind: Kind, query: &Query) -> bool
    ensures { result ≡ frozen_answers kind query.now }
{
    match kind {
        Kind::HSet(_) => frozen_set_answers(query),
        Kind::Dict(_) => frozen_map_answers(query),
        _ => false,
    }
}

fn frozen_set_answers(query: &Query) -> bool
    ensures { result ≡ frozen_set_answers query.now }
{
    match query {
        Query::Count | Query::Contains(_) | Query::Actual(_) | Query::Strategy => true,
        _ => false,
    }
}

fn frozen_map_answers(query: &Query) -> bool
    ensures { result ≡ frozen_map_answers query.now }
{
    match query {
        Query::Count
        | Query::Lookup(_)
        | Query::KeyOf(_)
        | Query::Keys
        | Query::Values
        | Query::Strategy => true,
        _ => false,
    }
}

// What a question about a set is answered.
fn set_answer(set: &FrozenSet, query: &Query) -> Answer
    requires { frozen_set_answers query.now ≡ true }
    ensures { result ≡ frozen_answer (frozen_set set.now.eq set.now.items) query.now }
{
    match query {
        Query::Count => Answer::Count(u64::from(set.count())),
        Query::Contains(value) => Answer::Flag(set.contains(value)),
        Query::Actual(value) => value_or_none(set.actual(value)),
        Query::Strategy => Answer::Strategy(set.strategy()),
        _ => unreachable!(),
    }
}

// What a question about a map is answered.
fn map_answer(alloc: Global, map: &FrozenMap<Val>, query: &Query) -> Result<Answer, Memory>
    requires { frozen_map_answers query.now ≡ true }
    ensures { IfOk result (λ a. a ≡ frozen_answer (frozen_map map.now.eq map.now.pairs) query.now) }
{
    match query {
        Query::Count => Ok(Answer::Count(u64::from(map.count()))),
        Query::Lookup(key) => Ok(value_or_none(map.get(key))),
        Query::KeyOf(key) => Ok(value_or_none(map.get_key(key))),
        Query::Keys => preview_of_keys(alloc, map),
        Query::Values => preview_of_values(alloc, map),
        Query::Strategy => Ok(Answer::Strategy(map.strategy())),
        _ => unreachable!(),
    }
}

#[tactic(auto, using(crate::proofs::Projections::projections))]
fn preview_of_keys(alloc: Global, map: &FrozenMap<Val>) -> Result<Answer, Memory>
    ensures { IfOk result (λ a. a
        ≡ frozen_answer (frozen_map map.now.eq map.now.pairs) Query.Keys) }
{
    let keys = map.keys(alloc)?;
    Ok(Answer::Shown {
        count: map.count(),
        first: Values::List(Listed::from_vec(first_in(alloc, keys.as_slice())?)),
    })
}

#[tactic(auto, using(crate::proofs::Projections::projections))]
fn preview_of_values(alloc: Global, map: &FrozenMap<Val>) -> Result<Answer, Memory>
    ensures { IfOk result (λ a. a
        ≡ frozen_answer (frozen_map map.now.eq map.now.pairs) Query.Values) }
{
    let values = map.values(alloc)?;
    Ok(Answer::Shown {
        count: map.count(),
        first: Values::List(Listed::from_vec(first_in(alloc, values.as_slice())?)),
    })
}

// Copies of the pairs.
fn pairs_of(alloc: Global, map: &FrozenMap<Val>) -> Result<Vec<(Val, Val)>, Memory>
    ensures { IfOk result (λ v. v.items ≡ map.now.pairs) }
{
    let keys = map.keys(alloc)?;
    let values = map.values(alloc)?;
    let pairs = zipped(alloc, keys.as_slice(), values.as_slice())?;
    Ok(pairs)
}

// Each key with its value.
fn zipped(alloc: Global, keys: &[Val], values: &[Val]) -> Result<Vec<(Val, Val)>, AllocError>
    ensures { IfOk result (λ v. v.items ≡ zip keys.now values.now) }
{
    keys.iter()
        .copied()
        .zip(values.iter().copied())
        .collect(alloc)
}
