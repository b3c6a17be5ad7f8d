//! Arrays.
ghost use Rattle.std.specs.Prelude.{◌≡◌, ◌≤◌, true, List, Ok, IfOk, length};
ghost use Rattle.imm_array.specs.Answers.{Answers};
ghost use Rattle.imm_base.specs.declared.TheConstants.{LIMIT};
ghost use Rattle.plain_model.specs.Kinds.{array_answers, array_takes};
ghost use Rattle.plain_model.specs.Plain.{list_op, made, of_list};
ghost use Rattle.plain_model.specs.Queries.{list_answer};
ghost use Rattle.plain_model.specs.Sources.{are_within, is_within, op_values};
ghost use Rattle.collections.specs.Changes.{change_map, made_map};
ghost use Rattle.collections.specs.Kinds.{array_of};

use crate::Collection;
use crate::answers::{first_in, place_or_none, value_or};
use crate::arguments::elements;
use crate::collection::Repr;
use crate::of_kind::{Changed, Judged, OfKind, judged};
use imm_array::{ArrayFault, ImmArray};
use imm_base::{Edit, Memory, Val};
use imm_list::{ImmList, ListFault};
use plain_model::{Answer, Kind, Listed, PlainOp, Query, Refusal, Values};
use std::alloc::Global;

type Array = ImmArray<Val>;

impl OfKind for Array {
    ghost as_plain = { array_of };

    fn into_collection(self) -> Collection {
        Collection::of_repr(Repr::Array(self))
    }

    fn kind(&self) -> Kind {
        Kind::Array
    }

    fn to_values(&self, alloc: Global) -> Result<Values, Memory> {
        Ok(Values::List(Listed::from_vec(self.to_vec(alloc)?)))
    }

    fn apply(&self, alloc: Global, op: &PlainOp) -> Changed<Array> {
        if Kind::Array.takes(op) {
            judged(change(alloc, self, op))
        } else {
            change_as_list(alloc, self, op)
        }
    }

    fn answer(&self, _alloc: Global, query: &Query) -> Result<Answer, Memory> {
        Ok(answer(self, query))
    }

    fn preview(&self, alloc: Global) -> Result<Answer, Memory> {
        Ok(Answer::Shown {
            count: self.count(),
            first: Values::List(Listed::from_vec(first_in(alloc, self.as_slice())?)),
        })
    }
}

/// The array of these values.
pub(crate) fn array_of_values(alloc: Global, values: &Values) -> Judged<Array>
    requires { is_within values.now ≡ true }
    ensures { IfOk result (λ m. made_map array_of m ≡ made Kind.Array values.now) }
{
    let values = elements(alloc, values)?;
    judged(ImmArray::from_slice(alloc, values.as_slice()))
}

// What an operation gives of an array.
fn change(alloc: Global, array: &Array, op: &PlainOp) -> Result<Edit<Array>, ArrayFault>
    requires within { are_within (op_values op.now) ≡ true }
    requires taken { array_takes op.now ≡ true }
    ensures { Answers result (list_op op.now array.now) }
{
    match op {
        PlainOp::Add(value) => array.add(alloc, *value),
        PlainOp::AddRange(values) => array.add_range(alloc, elements(alloc, values)?.as_slice()),
        PlainOp::Insert(index, value) => array.insert(alloc, *index, *value),
        PlainOp::RemoveAt(index) => array.remove_at(alloc, *index),
        PlainOp::Remove(value) => array.remove(alloc, value),
        PlainOp::Replace(old, value) => array.replace(alloc, old, *value),
        PlainOp::SetItem(index, value) => array.set_item(alloc, *index, *value),
        PlainOp::Clear => Ok(array.clear()),
        _ => unreachable!(),
    }
}

// What an operation that arrays do not have gives: what it makes of the list of the same elements.
// No accepted script has one.
fn change_as_list(alloc: Global, array: &Array, op: &PlainOp) -> Changed<Array>
    requires { are_within (op_values op.now) ≡ true }
    ensures { IfOk result (λ c. change_map array_of c ≡ of_list (array_of array.now)
        (list_op op.now array.now)) }
{
    let list = list_of_elements(alloc, array.as_slice())?;
    let change = list.apply(alloc, op)?;
    let changed = array_change(alloc, change)?;
    Ok(changed)
}

// The same change of an array.
fn array_change(alloc: Global, change: Result<Edit<ImmList<Val>>, Refusal>) -> Changed<Array>
    requires { (other : List Val) → change ≡ Ok (Edit.New other) → length other ≤ LIMIT }
    ensures { IfOk result (λ c. c ≡ change) }
{
    match change {
        Ok(Edit::Same) => Ok(Ok(Edit::Same)),
        Ok(Edit::New(list)) => {
            let array = array_of_list(alloc, &list)?;
            Ok(Ok(Edit::New(array)))
        }
        Err(refusal) => Ok(Err(refusal)),
    }
}

fn list_of_elements(alloc: Global, elements: &[Val]) -> Result<ImmList<Val>, Memory>
    requires { length elements.now ≤ LIMIT }
    ensures { IfOk result (λ list. list ≡ elements.now) }
{
    match ImmList::from_slice(alloc, elements) {
        Ok(list) => Ok(list),
        Err(ListFault::Memory) => Err(Memory),
        Err(_) => unreachable!(),
    }
}

fn array_of_list(alloc: Global, list: &ImmList<Val>) -> Result<Array, Memory>
    requires { length list.now ≤ LIMIT }
    ensures { IfOk result (λ array. array ≡ list.now) }
{
    let elements = list.to_vec(alloc)?;
    match ImmArray::from_slice(alloc, elements.as_slice()) {
        Ok(array) => Ok(array),
        Err(ArrayFault::Memory) => Err(Memory),
        Err(_) => unreachable!(),
    }
}

// What a question about an array is answered.
fn answer(array: &Array, query: &Query) -> Answer
    requires { array_answers query.now ≡ true }
    ensures { result ≡ list_answer query.now array.now }
{
    match query {
        Query::Count => Answer::Count(u64::from(array.count())),
        Query::Get(index) => element(array, *index),
        Query::IndexOf(value) => place_or_none(array.index_of(value)),
        Query::LastIndexOf(value) => place_or_none(array.last_index_of(value)),
        Query::Contains(value) => Answer::Flag(array.contains(value)),
        _ => unreachable!(),
    }
}

fn element(array: &Array, index: u32) -> Answer
    ensures { result ≡ list_answer (Query.Get index) array.now }
{
    let count = array.count();
    let out_of_range = Answer::Refused(Refusal::OutOfRange { index, count });
    value_or(out_of_range, array.as_slice().get(index as usize))
}
