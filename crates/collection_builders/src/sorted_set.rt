//! Sorted sets.
ghost use Rattle.std.specs.Prelude.{◌≡◌, true};
ghost use Rattle.std.specs.Ordering.{eq_by_cmp};
ghost use Rattle.imm_base.specs.Order.{order_cmp};
ghost use Rattle.builders.specs.Changes.{CanCount};
ghost use Rattle.builders.specs.Sets.{Changes};
ghost use Rattle.plain_model.specs.Plain.{set_op};
ghost use Rattle.plain_model.specs.Sources.{are_within, op_values};
ghost use Rattle.collections.specs.Kinds.{sorted_set_of};
ghost use Rattle.collection_builders.specs.Builders.{built_map};

use crate::of_kind::BuilderOfKind;
use builders::SetBuilder;
use collections::{Collection, Judged, Repr, elements, judged};
use imm_base::{Memory, SetFault, Step, Val, ValOrder};
use plain_model::{Kind, PlainOp};
use std::alloc::Global;

type Set = SetBuilder<Val, ValOrder>;

impl BuilderOfKind for Set {
    ghost as_built = { built_map sorted_set_of };

    fn version(&self) -> u64 {
        self.version()
    }

    fn kind(&self) -> Kind {
        Kind::SSet(self.order())
    }

    fn count(&self) -> u32 {
        self.count()
    }

    fn apply(&mut self, alloc: Global, op: &PlainOp) -> Judged<Step> {
        judged(change(self, alloc, op))
    }

    fn to_collection(&mut self, alloc: Global) -> Result<Collection, Memory> {
        let set = self.to_immutable(alloc)?;
        Ok(Collection::of_repr(Repr::SSet(set)))
    }
}

// Makes the change that an operation gives. One that sets do not have makes none.
fn change(builder: &mut Set, alloc: Global, op: &PlainOp) -> Result<Step, SetFault>
    requires within { are_within (op_values op.now) ≡ true }
    requires counts { CanCount builder.old }
    ensures { Changes builder.old.contents.order result
        (set_op (order_cmp builder.old.contents.order)
        (eq_by_cmp (order_cmp builder.old.contents.order)) op.now builder.old.contents.items)
        builder.old builder.new }
{
    match op {
        PlainOp::Add(value) => builder.add(alloc, *value),
        PlainOp::Remove(value) => builder.remove(alloc, value),
        PlainOp::Union(values) => builder.union_with(alloc, elements(alloc, values)?.as_slice()),
        PlainOp::Intersect(values) => {
            builder.intersect_with(alloc, elements(alloc, values)?.as_slice())
        }
        PlainOp::Except(values) => builder.except_with(alloc, elements(alloc, values)?.as_slice()),
        PlainOp::SymExcept(values) => {
            builder.sym_except_with(alloc, elements(alloc, values)?.as_slice())
        }
        PlainOp::Clear => Ok(builder.clear()),
        _ => Ok(Step::Same),
    }
}
