//! Sorted maps.
ghost use Rattle.std.specs.Prelude.{◌≡◌, true};
ghost use Rattle.std.specs.Ordering.{eq_by_cmp};
ghost use Rattle.imm_base.specs.Order.{order_cmp};
ghost use Rattle.builders.specs.Changes.{CanCount};
ghost use Rattle.builders.specs.Maps.{Changes};
ghost use Rattle.plain_model.specs.Plain.{map_op};
ghost use Rattle.plain_model.specs.Sources.{are_within, op_values};
ghost use Rattle.collections.specs.Kinds.{sorted_map_of};
ghost use Rattle.collection_builders.specs.Builders.{built_map};

use crate::of_kind::BuilderOfKind;
use builders::MapBuilder;
use collections::{Collection, Judged, Repr, elements, judged, pairs};
use imm_base::{MapFault, Memory, Step, Val, ValOrder};
use plain_model::{Kind, PlainOp};
use std::alloc::Global;

type Map = MapBuilder<Val, Val, ValOrder>;

impl BuilderOfKind for Map {
    ghost as_built = { built_map sorted_map_of };

    fn version(&self) -> u64 {
        self.version()
    }

    fn kind(&self) -> Kind {
        Kind::SMap(self.order())
    }

    fn count(&self) -> u32 {
        self.count()
    }

    fn apply(&mut self, alloc: Global, op: &PlainOp) -> Judged<Step> {
        judged(change(self, alloc, op))
    }

    fn to_collection(&mut self, alloc: Global) -> Result<Collection, Memory> {
        let map = self.to_immutable(alloc)?;
        Ok(Collection::of_repr(Repr::SMap(map)))
    }
}

// Makes the change that an operation gives. One that maps do not have makes none.
fn change(builder: &mut Map, alloc: Global, op: &PlainOp) -> Result<Step, MapFault<Val>>
    requires within { are_within (op_values op.now) ≡ true }
    requires counts { CanCount builder.old }
    ensures { Changes builder.old.contents.order result
        (map_op (order_cmp builder.old.contents.order)
        (eq_by_cmp (order_cmp builder.old.contents.order)) op.now builder.old.contents.pairs)
        builder.old builder.new }
{
    match op {
        PlainOp::AddPair(key, value) => builder.add(alloc, *key, *value),
        PlainOp::AddPairs(values) => builder.add_range(alloc, pairs(alloc, values)?.as_slice()),
        PlainOp::SetPair(key, value) => builder.set_item(alloc, *key, *value),
        PlainOp::SetPairs(values) => builder.set_items(alloc, pairs(alloc, values)?.as_slice()),
        PlainOp::RemoveKey(key) => builder.remove(alloc, key),
        PlainOp::RemoveKeys(keys) => builder.remove_range(alloc, elements(alloc, keys)?.as_slice()),
        PlainOp::Clear => Ok(builder.clear()),
        _ => Ok(Step::Same),
    }
}
