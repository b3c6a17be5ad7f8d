//! The builder of collections of any kind. Each call is handed on to its kind.
ghost use Rattle.std.specs.Prelude.{◌≡◌, true, IfErr, IfOk};
ghost use Rattle.plain_model.specs.Builders.{after_change, new_builder};
ghost use Rattle.plain_model.specs.Kinds.{builder_takes, is_walked};
ghost use Rattle.plain_model.specs.Plain.{count, plain};
ghost use Rattle.plain_model.specs.Sources.{are_within, op_values};
ghost use Rattle.collection_builders.specs.Builders.{step_of};

use crate::of_kind::BuilderOfKind;
use builders::{DictBuilder, HashSetBuilder, ListBuilder, MapBuilder, SetBuilder};
use collections::{Collection, Judged, Repr};
use imm_base::{Memory, Step, Val, ValEq, ValOrder};
use plain_model::{Kind, PlainOp};
use std::alloc::Global;
use std::marker::Model;

/// A collection that is built: a list, a sorted set or map, a hash set or a dictionary. Contracts
/// see the collection, and the number of changes that gave another one.
///
/// A refused change, and one without memory, leaves both as they were. Where a call answers
/// `Memory`, memory ran out, and no clause says when that is. A builder whose `version()` is the
/// greatest `u64` answers each change so.
#[derive(Drop)]
pub struct CollectionBuilder {
    repr: BuilderRepr,
}

/// The builder of each kind.
#[derive(Drop)]
pub(crate) enum BuilderRepr {
    List(ListBuilder<Val>),
    SSet(SetBuilder<Val, ValOrder>),
    SMap(MapBuilder<Val, Val, ValOrder>),
    HSet(HashSetBuilder<Val, ValEq>),
    Dict(DictBuilder<Val, Val, ValEq>),
}

impl Model for CollectionBuilder {
    ghost use Rattle.plain_model.specs.declared.plain.Plain.{Plain};
    ghost use Rattle.plain_model.specs.Builders.{Built};
    ghost use Rattle.collection_builders.specs.Reprs.{built_of};

    ghost Value = { Built Plain };

    ghost view = { λ b. built_of b.repr };
}

impl CollectionBuilder {
    /// A builder of the collection, whose nodes it shares. The kinds that a walk goes along are
    /// those that have such a builder. O(1).
    pub fn of(collection: &Collection) -> Result<CollectionBuilder, Memory>
        requires { is_walked collection.now.kind ≡ true }
        ensures { IfOk result (λ b. b ≡ new_builder collection.now) }
    {
        let repr = match collection.repr() {
            Repr::List(list) => BuilderRepr::List(ListBuilder::from(list)?),
            Repr::SSet(set) => BuilderRepr::SSet(SetBuilder::from(set)?),
            Repr::SMap(map) => BuilderRepr::SMap(MapBuilder::from(map)?),
            Repr::HSet(set) => BuilderRepr::HSet(HashSetBuilder::from(set)?),
            Repr::Dict(map) => BuilderRepr::Dict(DictBuilder::from(map)?),
            Repr::Array(_) | Repr::Stack(_) | Repr::Queue(_) => unreachable!(),
        };
        Ok(CollectionBuilder { repr })
    }

    /// How many changes gave another collection. O(1).
    pub fn version(&self) -> u64
        ensures { result ≡ self.now.changes }
    {
        match &self.repr {
            BuilderRepr::List(list) => list.version(),
            BuilderRepr::SSet(set) => set.version(),
            BuilderRepr::SMap(map) => map.version(),
            BuilderRepr::HSet(set) => set.version(),
            BuilderRepr::Dict(map) => map.version(),
        }
    }

    /// The kind of the collection, with its comparer. O(1).
    pub fn kind(&self) -> Kind
        ensures { result ≡ self.now.contents.kind }
    {
        match &self.repr {
            BuilderRepr::List(list) => list.kind(),
            BuilderRepr::SSet(set) => set.kind(),
            BuilderRepr::SMap(map) => map.kind(),
            BuilderRepr::HSet(set) => set.kind(),
            BuilderRepr::Dict(map) => map.kind(),
        }
    }

    /// How many elements or pairs there are. O(1).
    pub fn count(&self) -> u32
        ensures { result ≡ count self.now.contents.values }
    {
        match &self.repr {
            BuilderRepr::List(list) => list.count(),
            BuilderRepr::SSet(set) => set.count(),
            BuilderRepr::SMap(map) => map.count(),
            BuilderRepr::HSet(set) => set.count(),
            BuilderRepr::Dict(map) => map.count(),
        }
    }

    /// Makes the change that an operation gives, and answers whether there is another collection
    /// now. The cost is that of the builder's own call.
    pub fn apply(&mut self, alloc: Global, op: &PlainOp) -> Judged<Step>
        requires within { are_within (op_values op.now) ≡ true }
        requires taken { builder_takes self.old.contents.kind op.now ≡ true }
        ensures change { IfOk result (λ answer.
            (answer ≡ step_of (plain op.now self.old.contents))
            × (self.new ≡ after_change (plain op.now self.old.contents) self.old)) }
        ensures memory { IfErr result (λ _. self.new ≡ self.old) }
    {
        if self.version() == u64::MAX {
            return Err(Memory);
        }
        match &mut self.repr {
            BuilderRepr::List(list) => list.apply(alloc, op),
            BuilderRepr::SSet(set) => set.apply(alloc, op),
            BuilderRepr::SMap(map) => map.apply(alloc, op),
            BuilderRepr::HSet(set) => set.apply(alloc, op),
            BuilderRepr::Dict(map) => map.apply(alloc, op),
        }
    }

    /// The collection as it is now, which no later change alters. O(1) for a hash set or a
    /// dictionary, and else O(k) for the k nodes that were made since the last such call.
    pub fn to_collection(&mut self, alloc: Global) -> Result<Collection, Memory>
        ensures published { IfOk result (λ c. c ≡ self.old.contents) }
        ensures same { self.new ≡ self.old }
    {
        match &mut self.repr {
            BuilderRepr::List(list) => list.to_collection(alloc),
            BuilderRepr::SSet(set) => set.to_collection(alloc),
            BuilderRepr::SMap(map) => map.to_collection(alloc),
            BuilderRepr::HSet(set) => set.to_collection(alloc),
            BuilderRepr::Dict(map) => map.to_collection(alloc),
        }
    }
}
