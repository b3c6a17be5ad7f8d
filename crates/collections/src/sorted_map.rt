//! Sorted maps.
ghost use Rattle.std.specs.Prelude.{◌≡◌, true, IfOk, take};
ghost use Rattle.std.specs.Ordering.{eq_by_cmp};
ghost use Rattle.imm_base.specs.Order.{order_cmp};
ghost use Rattle.sorted_maps.specs.Answers.{Answers};
ghost use Rattle.sorted_maps.specs.Ordered.{entries};
ghost use Rattle.plain_model.specs.Plain.{made, map_op};
ghost use Rattle.plain_model.specs.Queries.{map_answer};
ghost use Rattle.plain_model.specs.Sources.{are_within, is_within, op_values};
ghost use Rattle.collections.specs.Changes.{made_map};
ghost use Rattle.collections.specs.Kinds.{sorted_map_of};

use crate::Collection;
use crate::answers::{first_of, keys, value_or_none, values};
use crate::arguments::{elements, pairs};
use crate::collection::Repr;
use crate::of_kind::{Changed, HasComparer, Judged, OfKind, judged, or_unchanged};
use imm_base::{Edit, MapFault, Memory, Pair, Val, ValOrder};
use plain_model::{Answer, Comparer, Kind, Listed, PlainOp, Query, Values};
use sorted_maps::SortedMap;
use std::alloc::Global;

type Map = SortedMap<Val, Val, ValOrder>;

impl OfKind for Map {
    ghost as_plain = { sorted_map_of };

    fn into_collection(self) -> Collection {
        Collection::of_repr(Repr::SMap(self))
    }

    fn kind(&self) -> Kind {
        Kind::SMap(self.order())
    }

    fn to_values(&self, alloc: Global) -> Result<Values, Memory> {
        Ok(Values::Pairs(Listed::from_vec(self.to_vec(alloc)?)))
    }

    fn apply(&self, alloc: Global, op: &PlainOp) -> Changed<Map> {
        judged(change(alloc, self, op))
    }

    fn answer(&self, alloc: Global, query: &Query) -> Result<Answer, Memory> {
        answer(alloc, self, query)
    }

    fn preview(&self, alloc: Global) -> Result<Answer, Memory> {
        Ok(Answer::Shown {
            count: self.count(),
            first: Values::Pairs(Listed::from_vec(first_pairs(alloc, self)?)),
        })
    }
}

impl HasComparer for Map {
    fn rekeyed(&self, alloc: Global, comparer: Comparer) -> Changed<Map> {
        match comparer.order() {
            Some(order) => judged(self.with_order(alloc, order)),
            None => unreachable!(),
        }
    }
}

/// The map of these pairs: they are set in the empty one.
pub(crate) fn map_of_values(alloc: Global, order: ValOrder, values: &Values) -> Judged<Map>
    requires { is_within values.now ≡ true }
    ensures { IfOk result (λ m. made_map sorted_map_of m ≡ made (Kind.SMap order) values.now) }
{
    let pairs = pairs(alloc, values)?;
    let empty = SortedMap::new(order);
    let set = judged(empty.set_items(alloc, pairs.as_slice()))?;
    Ok(or_unchanged(empty, set))
}

// What an operation gives of a map. One that maps do not have leaves it as it is.
fn change(alloc: Global, map: &Map, op: &PlainOp) -> Result<Edit<Map>, MapFault<Val>>
    requires { are_within (op_values op.now) ≡ true }
    ensures { Answers map.now.order result (map_op (order_cmp map.now.order)
        (eq_by_cmp (order_cmp map.now.order)) op.now map.now.pairs) }
{
    match op {
        PlainOp::AddPair(key, value) => map.add(alloc, *key, *value),
        PlainOp::AddPairs(values) => map.add_range(alloc, pairs(alloc, values)?.as_slice()),
        PlainOp::SetPair(key, value) => map.set_item(alloc, *key, *value),
        PlainOp::SetPairs(values) => map.set_items(alloc, pairs(alloc, values)?.as_slice()),
        PlainOp::RemoveKey(key) => map.remove(alloc, key),
        PlainOp::RemoveKeys(keys) => map.remove_range(alloc, elements(alloc, keys)?.as_slice()),
        PlainOp::Clear => Ok(map.clear()),
        _ => Ok(Edit::Same),
    }
}

// What a question about a map is answered.
fn answer(alloc: Global, map: &Map, query: &Query) -> Result<Answer, Memory>
    ensures { IfOk result (λ a. a ≡ map_answer (eq_by_cmp (order_cmp map.now.order)) query.now
        map.now.pairs) }
{
    match query {
        Query::Count => Ok(Answer::Count(u64::from(map.count()))),
        Query::Lookup(key) => Ok(value_or_none(map.get(key))),
        Query::KeyOf(key) => Ok(value_or_none(map.get_key(key))),
        Query::HasValue(value) => Ok(Answer::Flag(map.contains_value(value))),
        Query::Keys => preview_of_keys(alloc, map),
        Query::Values => preview_of_values(alloc, map),
        _ => Ok(Answer::Missing),
    }
}

#[tactic(auto, using(crate::proofs::Projections::projections))]
fn preview_of_keys(alloc: Global, map: &Map) -> Result<Answer, Memory>
    ensures { IfOk result (λ a. a ≡ map_answer (eq_by_cmp (order_cmp map.now.order)) Query.Keys
        map.now.pairs) }
{
    let pairs = first_pairs(alloc, map)?;
    let keys = keys(alloc, pairs)?;
    Ok(Answer::Shown {
        count: map.count(),
        first: Values::List(Listed::from_vec(keys)),
    })
}

#[tactic(auto, using(crate::proofs::Projections::projections))]
fn preview_of_values(alloc: Global, map: &Map) -> Result<Answer, Memory>
    ensures { IfOk result (λ a. a ≡ map_answer (eq_by_cmp (order_cmp map.now.order)) Query.Values
        map.now.pairs) }
{
    let pairs = first_pairs(alloc, map)?;
    let values = values(alloc, pairs)?;
    Ok(Answer::Shown {
        count: map.count(),
        first: Values::List(Listed::from_vec(values)),
    })
}

// Copies of at most the first 16 pairs.
#[tactic(auto, using(crate::proofs::Projections::projections))]
fn first_pairs(alloc: Global, map: &Map) -> Result<Vec<(Val, Val)>, Memory>
    ensures { IfOk result (λ v. v.items ≡ take 16 map.now.pairs) }
{
    let first = first_of(alloc, map.tree())?;
    let pairs = in_tuples(alloc, first)?;
    Ok(pairs)
}

fn in_tuples(alloc: Global, pairs: Vec<Pair<Val, Val>>) -> Result<Vec<(Val, Val)>, Memory>
    ensures { IfOk result (λ v. v.items ≡ entries pairs.items) }
{
    let entries = pairs
        .into_iter()
        .map(|pair| (pair.key, pair.value))
        .collect(alloc)?;
    Ok(entries)
}
