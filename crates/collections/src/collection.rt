//! The collection of any kind. Each call is handed on to its kind.
ghost use Rattle.std.specs.Prelude.{◌≡◌, false, true, IfOk, Some, is_some};
ghost use Rattle.plain_model.specs.Comparers.{with_comparer};
ghost use Rattle.plain_model.specs.Plain.{count, is_unset, made, nothing, plain};
ghost use Rattle.plain_model.specs.Queries.{answer, shown};
ghost use Rattle.plain_model.specs.Sources.{are_within, is_within, op_values, query_values};
ghost use Rattle.collections.specs.Changes.{change_map, made_map, rekeyed_by};
ghost use Rattle.collections.specs.Reprs.{plain_of};

use crate::array::array_of_values;
use crate::dict::dict_of_values;
use crate::hash_set::hash_set_of_values;
use crate::list::list_of_values;
use crate::of_kind::{Changed, HasComparer, Judged, OfKind};
use crate::queue::queue_of_values;
use crate::sorted_map::map_of_values;
use crate::sorted_set::set_of_values;
use crate::stack::stack_of_values;
use imm_array::ImmArray;
use imm_base::{Edit, Memory, Val, ValEq, ValOrder};
use imm_dictionary::{Dict, ImmHashSet};
use imm_list::ImmList;
use plain_model::{Answer, Comparer, Kind, Plain, PlainOp, Query, Refusal, Values};
use queue_stack::{ImmQueue, ImmStack};
use sorted_maps::SortedMap;
use sorted_sets::SortedSet;
use std::alloc::Global;
use std::marker::Model;

/// A persistent collection of any kind. Two of them may share nodes,
/// also in different threads.
///
/// Where a call answers `Memory`, memory ran out. No clause says when that is.
#[derive(Drop)]
pub struct Collection {
    repr: Repr,
}

/// The collection of each kind.
#[derive(Drop)]
pub enum Repr {
    List(ImmList<Val>),
    Array(ImmArray<Val>),
    Stack(ImmStack<Val>),
    Queue(ImmQueue<Val>),
    SSet(SortedSet<Val, ValOrder>),
    SMap(SortedMap<Val, Val, ValOrder>),
    HSet(ImmHashSet<Val, ValEq>),
    Dict(Dict<Val, Val, ValEq>),
}

impl Model for Collection {
    ghost use Rattle.plain_model.specs.declared.plain.Plain.{Plain};
    ghost use Rattle.collections.specs.Reprs.{plain_of};

    ghost Value = { Plain };

    ghost view = { λ c. plain_of c.repr };
}

impl Collection {
    /// The empty collection of a kind. O(1).
    pub fn empty(kind: Kind) -> Collection
        ensures { result ≡ nothing kind }
    {
        match kind {
            Kind::List => ImmList::new().into_collection(),
            Kind::Array => ImmArray::new().into_collection(),
            Kind::Stack => ImmStack::new().into_collection(),
            Kind::Queue => ImmQueue::new().into_collection(),
            Kind::SSet(order) => SortedSet::new(order).into_collection(),
            Kind::SMap(order) => SortedMap::new(order).into_collection(),
            Kind::HSet(eq) => ImmHashSet::new(eq).into_collection(),
            Kind::Dict(eq) => Dict::new(eq).into_collection(),
        }
    }

    /// The collection of these values, the last of which is the top of a stack and the back of a
    /// queue. More than the limit are refused, as too many beside 0. O(n log n), and O(n) for a list,
    /// an array, a stack or a queue.
    pub fn of_values(alloc: Global, kind: Kind, values: &Values) -> Judged<Collection>
        requires { is_within values.now ≡ true }
        ensures { IfOk result (λ m. m ≡ made kind values.now) }
    {
        Ok(match kind {
            Kind::List => of_any_kind(list_of_values(alloc, values)?),
            Kind::Array => of_any_kind(array_of_values(alloc, values)?),
            Kind::Stack => of_any_kind(stack_of_values(alloc, values)?),
            Kind::Queue => of_any_kind(queue_of_values(alloc, values)?),
            Kind::SSet(order) => of_any_kind(set_of_values(alloc, order, values)?),
            Kind::SMap(order) => of_any_kind(map_of_values(alloc, order, values)?),
            Kind::HSet(eq) => of_any_kind(hash_set_of_values(alloc, eq, values)?),
            Kind::Dict(eq) => of_any_kind(dict_of_values(alloc, eq, values)?),
        })
    }

    /// The collection that is of one kind here.
    pub fn of_repr(repr: Repr) -> Collection
        ensures { result ≡ plain_of repr }
    {
        Collection { repr }
    }

    /// The collection of its kind.
    pub fn repr(&self) -> &Repr
        ensures { plain_of result.now ≡ self.now }
    {
        &self.repr
    }

    /// The kind, with its comparer. O(1).
    pub fn kind(&self) -> Kind
        ensures { result ≡ self.now.kind }
    {
        match &self.repr {
            Repr::List(list) => list.kind(),
            Repr::Array(array) => array.kind(),
            Repr::Stack(stack) => stack.kind(),
            Repr::Queue(queue) => queue.kind(),
            Repr::SSet(set) => set.kind(),
            Repr::SMap(map) => map.kind(),
            Repr::HSet(set) => set.kind(),
            Repr::Dict(dict) => dict.kind(),
        }
    }

    /// How many elements or pairs there are. O(1).
    pub fn count(&self) -> u32
        ensures count { result ≡ count self.now.values }
        ensures set { is_unset self.now.values ≡ false }
    {
        match &self.repr {
            Repr::List(list) => list.count(),
            Repr::Array(array) => array.count(),
            Repr::Stack(stack) => stack.count(),
            Repr::Queue(queue) => queue.count(),
            Repr::SSet(set) => set.count(),
            Repr::SMap(map) => map.count(),
            Repr::HSet(set) => set.count(),
            Repr::Dict(dict) => dict.count(),
        }
    }

    /// An equal collection that shares the nodes. O(1).
    pub fn share(&self) -> Result<Collection, Memory>
        ensures { IfOk result (λ c. c ≡ self.now) }
    {
        Ok(match &self.repr {
            Repr::List(list) => list.share()?.into_collection(),
            Repr::Array(array) => array.share()?.into_collection(),
            Repr::Stack(stack) => stack.share()?.into_collection(),
            Repr::Queue(queue) => queue.share()?.into_collection(),
            Repr::SSet(set) => set.share()?.into_collection(),
            Repr::SMap(map) => map.share()?.into_collection(),
            Repr::HSet(set) => set.share()?.into_collection(),
            Repr::Dict(dict) => dict.share()?.into_collection(),
        })
    }

    /// Copies of the elements or pairs, in order. O(n), and O(n log n) for a hash set or a dictionary.
    pub fn values(&self, alloc: Global) -> Result<Values, Memory>
        ensures values { IfOk result (λ v. v ≡ self.now.values) }
        ensures within { IfOk result (λ v. is_within v ≡ true) }
    {
        Ok(match &self.repr {
            Repr::List(list) => list.to_values(alloc)?,
            Repr::Array(array) => array.to_values(alloc)?,
            Repr::Stack(stack) => stack.to_values(alloc)?,
            Repr::Queue(queue) => queue.to_values(alloc)?,
            Repr::SSet(set) => set.to_values(alloc)?,
            Repr::SMap(map) => map.to_values(alloc)?,
            Repr::HSet(set) => set.to_values(alloc)?,
            Repr::Dict(dict) => dict.to_values(alloc)?,
        })
    }

    /// The kind, and copies of the elements or pairs. It costs what `values` does.
    pub fn plain(&self, alloc: Global) -> Result<Plain, Memory>
        ensures { IfOk result (λ p. p ≡ self.now) }
    {
        Ok(Plain {
            kind: self.kind(),
            values: self.values(alloc)?,
        })
    }

    /// What an operation gives: the collection as it was, another one, or a refusal. An operation
    /// that the kind does not have leaves it as it was. The cost is that of the kind's own call.
    pub fn apply(&self, alloc: Global, op: &PlainOp) -> Changed<Collection>
        requires { are_within (op_values op.now) ≡ true }
        ensures { IfOk result (λ c. c ≡ plain op.now self.now) }
    {
        Ok(match &self.repr {
            Repr::List(list) => change_of_any_kind(list.apply(alloc, op)?),
            Repr::Array(array) => change_of_any_kind(array.apply(alloc, op)?),
            Repr::Stack(stack) => change_of_any_kind(stack.apply(alloc, op)?),
            Repr::Queue(queue) => change_of_any_kind(queue.apply(alloc, op)?),
            Repr::SSet(set) => change_of_any_kind(set.apply(alloc, op)?),
            Repr::SMap(map) => change_of_any_kind(map.apply(alloc, op)?),
            Repr::HSet(set) => change_of_any_kind(set.apply(alloc, op)?),
            Repr::Dict(dict) => change_of_any_kind(dict.apply(alloc, op)?),
        })
    }

    /// What a question is answered. One that the kind does not have has no answer, `Missing`. The
    /// cost is that of the kind's own call.
    pub fn answer(&self, alloc: Global, query: &Query) -> Result<Answer, Memory>
        requires { are_within (query_values query.now) ≡ true }
        ensures { IfOk result (λ a. a ≡ answer query.now self.now) }
    {
        if !self.kind().answers(query) {
            return Ok(Answer::Missing);
        }
        Ok(match &self.repr {
            Repr::List(list) => list.answer(alloc, query)?,
            Repr::Array(array) => array.answer(alloc, query)?,
            Repr::Stack(stack) => stack.answer(alloc, query)?,
            Repr::Queue(queue) => queue.answer(alloc, query)?,
            Repr::SSet(set) => set.answer(alloc, query)?,
            Repr::SMap(map) => map.answer(alloc, query)?,
            Repr::HSet(set) => set.answer(alloc, query)?,
            Repr::Dict(dict) => dict.answer(alloc, query)?,
        })
    }

    /// The count, and copies of at most the first 16 elements or pairs. O(1) for an array, O(log n)
    /// for a list, a sorted set or a sorted map, and else what `values` costs.
    pub fn preview(&self, alloc: Global) -> Result<Answer, Memory>
        ensures { IfOk result (λ a. a ≡ shown self.now.values) }
    {
        Ok(match &self.repr {
            Repr::List(list) => list.preview(alloc)?,
            Repr::Array(array) => array.preview(alloc)?,
            Repr::Stack(stack) => stack.preview(alloc)?,
            Repr::Queue(queue) => queue.preview(alloc)?,
            Repr::SSet(set) => set.preview(alloc)?,
            Repr::SMap(map) => map.preview(alloc)?,
            Repr::HSet(set) => set.preview(alloc)?,
            Repr::Dict(dict) => dict.preview(alloc)?,
        })
    }

    /// The collection under another comparer, which its kind may have: its elements, in the ordinal
    /// order of their keys, are added one by one to an empty collection. Where the comparer is its
    /// own, it is the collection as it was. O(n log n).
    pub fn rekeyed(&self, alloc: Global, comparer: Comparer) -> Changed<Collection>
        requires { is_some (with_comparer self.now.kind comparer) ≡ true }
        ensures { (kind : Kind) → with_comparer self.now.kind comparer ≡ Some kind →
            IfOk result (λ c. c ≡ rekeyed_by comparer kind self.now) }
    {
        Ok(match &self.repr {
            Repr::SSet(set) => change_of_any_kind(set.rekeyed(alloc, comparer)?),
            Repr::SMap(map) => change_of_any_kind(map.rekeyed(alloc, comparer)?),
            Repr::HSet(set) => change_of_any_kind(set.rekeyed(alloc, comparer)?),
            Repr::Dict(dict) => change_of_any_kind(dict.rekeyed(alloc, comparer)?),
            // These have no comparer.
            Repr::List(_) | Repr::Array(_) | Repr::Stack(_) | Repr::Queue(_) => unreachable!(),
        })
    }
}

// What was made of one kind, as a collection.
fn of_any_kind<C: OfKind>(made: Result<C, Refusal>) -> Result<Collection, Refusal>
    ensures { result ≡ made_map C.as_plain made }
{
    Ok(made?.into_collection())
}

// A change of one kind, as one of a collection.
fn change_of_any_kind<C: OfKind>(
    change: Result<Edit<C>, Refusal>,
) -> Result<Edit<Collection>, Refusal>
    ensures { result ≡ change_map C.as_plain change }
{
    Ok(match change? {
        Edit::Same => Edit::Same,
        Edit::New(other) => Edit::New(other.into_collection()),
    })
}
