//! Hash sets.
ghost use Rattle.std.specs.Prelude.{◌≡◌, true};
ghost use Rattle.imm_base.specs.Order.{eq_same, val_cmp};
ghost use Rattle.builders.specs.Changes.{CanCount};
ghost use Rattle.builders.specs.HashSets.{Changes};
ghost use Rattle.plain_model.specs.Plain.{set_op};
ghost use Rattle.plain_model.specs.Sources.{are_within, op_values};
ghost use Rattle.collections.specs.Kinds.{hash_set_of};
ghost use Rattle.collection_builders.specs.Builders.{built_map};

use crate::of_kind::BuilderOfKind;
use builders::HashSetBuilder;
use collections::{Collection, Judged, Repr, elements, judged};
use imm_base::{Memory, SetFault, Step, Val, ValEq};
use plain_model::{Kind, PlainOp};
use std::alloc::Global;

type Set = HashSetBuilder<Val, ValEq>;

impl BuilderOfKind for Set {
    ghost as_built = { built_map hash_set_of };

    fn version(&self) -> u64 {
        self.version()
    }

    fn kind(&self) -> Kind {
        Kind::HSet(self.comparer())
    }

    fn count(&self) -> u32 {
        self.count()
    }

    fn apply(&mut self, alloc: Global, op: &PlainOp) -> Judged<Step> {
        judged(change(self, alloc, op))
    }

    fn to_collection(&mut self, _alloc: Global) -> Result<Collection, Memory> {
        let set = self.to_immutable()?;
        Ok(Collection::of_repr(Repr::HSet(set)))
    }
}

// Makes the change that an operation gives. One that sets do not have makes none.
fn change(builder: &mut Set, alloc: Global, op: &PlainOp) -> Result<Step, SetFault>
    requires within { are_within (op_values op.now) ≡ true }
    requires counts { CanCount builder.old }
    ensures { Changes builder.old.contents.eq result
        (set_op val_cmp (eq_same builder.old.contents.eq) op.now builder.old.contents.items)
        builder.old builder.new }
{
    match op {
        PlainOp::Add(value) => builder.add(alloc, *value),
        PlainOp::Remove(value) => builder.remove(alloc, value),
        PlainOp::Union(values) => builder.union_with(alloc, elements(alloc, values)?.as_slice()),
        PlainOp::Intersect(values) => {
            builder.intersect_with(alloc, elements(alloc, values)?.as_slice())
        }
        PlainOp::Except(values) => builder.except_with(alloc, elements(alloc, values)?.as_slice()),
        PlainOp::SymExcept(values) => {
            builder.sym_except_with(alloc, elements(alloc, values)?.as_slice())
        }
        PlainOp::Clear => Ok(builder.clear()),
        _ => Ok(Step::Same),
    }
}
