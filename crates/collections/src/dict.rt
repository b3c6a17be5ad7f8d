//! Dictionaries.
ghost use Rattle.std.specs.Prelude.{◌≡◌, true, IfOk};
ghost use Rattle.imm_base.specs.Order.{eq_same, val_cmp};
ghost use Rattle.imm_dictionary.specs.Answers.{MapAnswers};
ghost use Rattle.plain_model.specs.Plain.{made, map_op};
ghost use Rattle.plain_model.specs.Queries.{map_answer};
ghost use Rattle.plain_model.specs.Sources.{are_within, is_within, op_values};
ghost use Rattle.collections.specs.Changes.{made_map};
ghost use Rattle.collections.specs.Kinds.{dict_of};

use crate::Collection;
use crate::answers::{first_in, value_or_none};
use crate::arguments::{elements, pairs};
use crate::collection::Repr;
use crate::of_kind::{Changed, HasComparer, Judged, OfKind, judged, or_unchanged};
use imm_base::{Edit, MapFault, Memory, Val, ValEq};
use imm_dictionary::Dict;
use plain_model::{Answer, Comparer, Kind, Listed, PlainOp, Query, Values};
use std::alloc::Global;

type Map = Dict<Val, Val, ValEq>;

impl OfKind for Map {
    ghost as_plain = { dict_of };

    fn into_collection(self) -> Collection {
        Collection::of_repr(Repr::Dict(self))
    }

    fn kind(&self) -> Kind {
        Kind::Dict(self.comparer())
    }

    fn to_values(&self, alloc: Global) -> Result<Values, Memory> {
        Ok(Values::Pairs(Listed::from_vec(self.to_vec(alloc)?)))
    }

    fn apply(&self, alloc: Global, op: &PlainOp) -> Changed<Map> {
        judged(change(alloc, self, op))
    }

    fn answer(&self, alloc: Global, query: &Query) -> Result<Answer, Memory> {
        answer(alloc, self, query)
    }

    fn preview(&self, alloc: Global) -> Result<Answer, Memory> {
        let pairs = self.to_vec(alloc)?;
        Ok(Answer::Shown {
            count: self.count(),
            first: Values::Pairs(Listed::from_vec(first_in(alloc, pairs.as_slice())?)),
        })
    }
}

impl HasComparer for Map {
    fn rekeyed(&self, alloc: Global, comparer: Comparer) -> Changed<Map> {
        match comparer.equality() {
            Some(eq) => judged(self.with_comparer(alloc, eq)),
            None => unreachable!(),
        }
    }
}

/// The map of these pairs: they are set in the empty one.
pub(crate) fn dict_of_values(alloc: Global, eq: ValEq, values: &Values) -> Judged<Map>
    requires { is_within values.now ≡ true }
    ensures { IfOk result (λ m. made_map dict_of m ≡ made (Kind.Dict eq) values.now) }
{
    let pairs = pairs(alloc, values)?;
    let empty = Dict::new(eq);
    let set = judged(empty.set_items(alloc, pairs.as_slice()))?;
    Ok(or_unchanged(empty, set))
}

// What an operation gives of a map. One that maps do not have leaves it as it is.
fn change(alloc: Global, map: &Map, op: &PlainOp) -> Result<Edit<Map>, MapFault<Val>>
    requires { are_within (op_values op.now) ≡ true }
    ensures { MapAnswers map.now.eq result (map_op val_cmp (eq_same map.now.eq) op.now map.now.pairs) }
{
    match op {
        PlainOp::AddPair(key, value) => map.add(alloc, *key, *value),
        PlainOp::AddPairs(values) => map.add_range(alloc, pairs(alloc, values)?.as_slice()),
        PlainOp::SetPair(key, value) => map.set_item(alloc, *key, *value),
        PlainOp::SetPairs(values) => map.set_items(alloc, pairs(alloc, values)?.as_slice()),
        PlainOp::RemoveKey(key) => map.remove(alloc, key),
        PlainOp::RemoveKeys(keys) => map.remove_range(alloc, elements(alloc, keys)?.as_slice()),
        PlainOp::Clear => Ok(map.clear()),
        _ => Ok(Edit::Same),
    }
}

// What a question about a map is answered.
fn answer(alloc: Global, map: &Map, query: &Query) -> Result<Answer, Memory>
    ensures { IfOk result (λ a. a ≡ map_answer (eq_same map.now.eq) query.now
        map.now.pairs) }
{
    match query {
        Query::Count => Ok(Answer::Count(u64::from(map.count()))),
        Query::Lookup(key) => Ok(value_or_none(map.get(key))),
        Query::KeyOf(key) => Ok(value_or_none(map.get_key(key))),
        Query::HasValue(value) => Ok(Answer::Flag(map.contains_value(value))),
        Query::Keys => preview_of_keys(alloc, map),
        Query::Values => preview_of_values(alloc, map),
        _ => Ok(Answer::Missing),
    }
}

#[tactic(auto, using(crate::proofs::Projections::projections))]
fn preview_of_keys(alloc: Global, map: &Map) -> Result<Answer, Memory>
    ensures { IfOk result (λ a. a ≡ map_answer (eq_same map.now.eq) Query.Keys map.now.pairs) }
{
    let keys = map.keys(alloc)?;
    Ok(Answer::Shown {
        count: map.count(),
        first: Values::List(Listed::from_vec(first_in(alloc, keys.as_slice())?)),
    })
}

#[tactic(auto, using(crate::proofs::Projections::projections))]
fn preview_of_values(alloc: Global, map: &Map) -> Result<Answer, Memory>
    ensures { IfOk result (λ a. a ≡ map_answer (eq_same map.now.eq) Query.Values map.now.pairs) }
{
    let values = map.values(alloc)?;
    Ok(Answer::Shown {
        count: map.count(),
        first: Values::List(Listed::from_vec(first_in(alloc, values.as_slice())?)),
    })
}
