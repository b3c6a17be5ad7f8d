//! Lists.
ghost use Rattle.std.specs.Prelude.{◌≡◌, true};
ghost use Rattle.builders.specs.Changes.{CanCount};
ghost use Rattle.builders.specs.Lists.{Changes};
ghost use Rattle.plain_model.specs.Kinds.{list_builder_takes};
ghost use Rattle.plain_model.specs.Plain.{list_op};
ghost use Rattle.plain_model.specs.Sources.{are_within, op_values};
ghost use Rattle.collections.specs.Kinds.{list_of};
ghost use Rattle.collection_builders.specs.Builders.{built_map};

use crate::of_kind::BuilderOfKind;
use builders::ListBuilder;
use collections::{Collection, Judged, Repr, elements, judged};
use imm_base::{Memory, Step, Val};
use imm_list::ListFault;
use plain_model::{Kind, PlainOp};
use std::alloc::Global;

type List = ListBuilder<Val>;

impl BuilderOfKind for List {
    ghost as_built = { built_map list_of };

    fn version(&self) -> u64 {
        self.version()
    }

    fn kind(&self) -> Kind {
        Kind::List
    }

    fn count(&self) -> u32 {
        self.count()
    }

    fn apply(&mut self, alloc: Global, op: &PlainOp) -> Judged<Step> {
        judged(change(self, alloc, op))
    }

    fn to_collection(&mut self, alloc: Global) -> Result<Collection, Memory> {
        let list = self.to_immutable(alloc)?;
        Ok(Collection::of_repr(Repr::List(list)))
    }
}

// Makes the change that an operation gives.
fn change(builder: &mut List, alloc: Global, op: &PlainOp) -> Result<Step, ListFault>
    requires within { are_within (op_values op.now) ≡ true }
    requires taken { list_builder_takes op.now ≡ true }
    requires counts { CanCount builder.old }
    ensures { Changes result (list_op op.now builder.old.contents) builder.old builder.new }
{
    match op {
        PlainOp::Add(value) => builder.add(alloc, *value),
        PlainOp::AddRange(values) => builder.add_range(alloc, elements(alloc, values)?.as_slice()),
        PlainOp::Insert(index, value) => builder.insert(alloc, *index, *value),
        PlainOp::InsertRange(index, values) => {
            builder.insert_range(alloc, *index, elements(alloc, values)?.as_slice())
        }
        PlainOp::RemoveAt(index) => builder.remove_at(alloc, *index),
        PlainOp::RemoveRange(index, count) => builder.remove_range(alloc, *index, *count),
        PlainOp::Remove(value) => builder.remove(alloc, value),
        PlainOp::RemoveAll(test) => builder.remove_all(alloc, test),
        PlainOp::Replace(old, value) => builder.replace(alloc, old, *value),
        PlainOp::SetItem(index, value) => builder.set_item(alloc, *index, *value),
        PlainOp::Reverse => builder.reverse(alloc),
        PlainOp::Sort(order) => builder.sort(alloc, order),
        PlainOp::Clear => Ok(builder.clear()),
        _ => unreachable!(),
    }
}
