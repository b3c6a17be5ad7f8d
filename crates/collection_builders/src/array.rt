//! Calls on the builder of arrays of values.
ghost use Rattle.std.specs.Prelude.{◌≡◌, true, None, Some, IfErr, IfOk, MatchResult};
ghost use Rattle.imm_base.specs.Arrays.{after_array_change, emptied_builder, new_array_builder};
ghost use Rattle.plain_model.specs.Kinds.{array_builder_takes};
ghost use Rattle.plain_model.specs.Plain.{elements, list_op, of_list};
ghost use Rattle.plain_model.specs.Sources.{are_within, op_values};
ghost use Rattle.collections.specs.Kinds.{array_of};
ghost use Rattle.imm_array.specs.Capacity.{Changes};
ghost use Rattle.collection_builders.specs.Arrays.{capacity_refusal, move_refusal};
ghost use Rattle.collection_builders.specs.Builders.{step_of};

use collections::{Collection, Judged, Repr, elements, judged};
use imm_array::{ArrayBuilder, ArrayFault};
use imm_base::{Memory, Step, Val};
use plain_model::{Kind, PlainOp, Refusal};
use std::alloc::Global;

/// A builder of copies of the array's elements. Its capacity is the count. O(n).
pub fn array_builder_of(alloc: Global, collection: &Collection) -> Result<ArrayBuilder<Val>, Memory>
    requires { collection.now.kind ≡ Kind.Array }
    ensures { IfOk result (λ b. b ≡ new_array_builder (elements collection.now.values)) }
{
    match collection.repr() {
        Repr::Array(array) => ArrayBuilder::from_array(alloc, array),
        _ => unreachable!(),
    }
}

/// Makes the change that an operation gives, and answers whether there is another array now. The
/// cost is that of the builder's own call.
pub fn change_array(builder: &mut ArrayBuilder<Val>, alloc: Global, op: &PlainOp) -> Judged<Step>
    requires within { are_within (op_values op.now) ≡ true }
    requires taken { array_builder_takes op.now ≡ true }
    ensures change { IfOk result (λ answer.
        (answer ≡ step_of (of_list (array_of builder.old.contents)
        (list_op op.now builder.old.contents)))
        × (builder.new
        ≡ after_array_change (list_op op.now builder.old.contents) builder.old)) }
    ensures memory { IfErr result (λ _. builder.new ≡ builder.old) }
{
    judged(change(builder, alloc, op))
}

// Makes the change that an operation gives.
fn change(builder: &mut ArrayBuilder<Val>, alloc: Global, op: &PlainOp) -> Result<Step, ArrayFault>
    requires within { are_within (op_values op.now) ≡ true }
    requires taken { array_builder_takes op.now ≡ true }
    ensures { Changes result (list_op op.now builder.old.contents) builder.old builder.new }
{
    match op {
        PlainOp::Add(value) => builder.add(*value),
        PlainOp::AddRange(values) => builder.add_range(elements(alloc, values)?.as_slice()),
        PlainOp::Insert(index, value) => builder.insert(*index, *value),
        PlainOp::RemoveAt(index) => builder.remove_at(*index),
        PlainOp::SetItem(index, value) => builder.set_item(*index, *value),
        PlainOp::Clear => Ok(builder.clear()),
        _ => unreachable!(),
    }
}

/// Sets the capacity. It is refused below the count, and then above the limit. O(n).
pub fn set_capacity(builder: &mut ArrayBuilder<Val>, wanted: u32) -> Judged<()>
    ensures answer { IfOk result (λ answer. MatchResult answer
        (λ _. (capacity_refusal wanted builder.old ≡ None)
        × (builder.new ≡ record builder.old { capacity = wanted }))
        (λ refusal. (capacity_refusal wanted builder.old ≡ Some refusal)
        × (builder.new ≡ builder.old))) }
    ensures memory { IfErr result (λ _. builder.new ≡ builder.old) }
{
    match builder.set_capacity(wanted) {
        Ok(()) => Ok(Ok(())),
        Err(ArrayFault::CapacityTooSmall { count, wanted }) => {
            Ok(Err(Refusal::Capacity { count, wanted }))
        }
        Err(ArrayFault::TooLarge { count }) => Ok(Err(Refusal::TooLarge { count })),
        Err(ArrayFault::Memory) => Err(Memory),
        Err(_) => unreachable!(),
    }
}

/// Moves the elements into an array, and leaves the count and the capacity 0. It is refused where
/// the count is not the capacity. O(1).
pub fn move_array(builder: &mut ArrayBuilder<Val>) -> Judged<Collection>
    ensures answer { IfOk result (λ answer. MatchResult answer
        (λ array. (move_refusal builder.old ≡ None) × (array ≡ array_of builder.old.contents)
        × (builder.new ≡ emptied_builder))
        (λ refusal. (move_refusal builder.old ≡ Some refusal) × (builder.new ≡ builder.old))) }
    ensures memory { IfErr result (λ _. builder.new ≡ builder.old) }
{
    match builder.move_to_immutable() {
        Ok(array) => Ok(Ok(Collection::of_repr(Repr::Array(array)))),
        Err(ArrayFault::NotFull { count, capacity }) => {
            Ok(Err(Refusal::NotFull { count, capacity }))
        }
        Err(ArrayFault::Memory) => Err(Memory),
        Err(_) => unreachable!(),
    }
}

/// Moves the elements into an array, and leaves the count and the capacity 0. O(1).
pub fn drain_array(builder: &mut ArrayBuilder<Val>) -> Result<Collection, Memory>
    ensures done { IfOk result (λ array. (array ≡ array_of builder.old.contents)
        × (builder.new ≡ emptied_builder)) }
    ensures memory { IfErr result (λ _. builder.new ≡ builder.old) }
{
    let array = builder.drain_to_immutable()?;
    Ok(Collection::of_repr(Repr::Array(array)))
}

/// An array of copies of the elements. O(n).
pub fn freeze_array(builder: &ArrayBuilder<Val>) -> Result<Collection, Memory>
    ensures { IfOk result (λ array. array ≡ array_of builder.now.contents) }
{
    let array = builder.to_immutable()?;
    Ok(Collection::of_repr(Repr::Array(array)))
}
