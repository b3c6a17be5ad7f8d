//! Lists.
ghost use Rattle.std.specs.Prelude.{◌≡◌, true, IfOk};
ghost use Rattle.imm_list.specs.Answers.{Answers};
ghost use Rattle.plain_model.specs.Plain.{list_op, made};
ghost use Rattle.plain_model.specs.Queries.{list_answer};
ghost use Rattle.plain_model.specs.Sources.{are_within, is_within, op_values};
ghost use Rattle.collections.specs.Changes.{made_map};
ghost use Rattle.collections.specs.Kinds.{list_of};

use crate::Collection;
use crate::answers::{first_of, place_or_none, value_or};
use crate::arguments::elements;
use crate::collection::Repr;
use crate::of_kind::{Changed, Judged, OfKind, judged};
use imm_base::{Edit, Memory, Val, ValOrder};
use imm_list::{ImmList, ListFault};
use plain_model::{Answer, Kind, Listed, PlainOp, Query, Refusal, Values};
use std::alloc::Global;

type List = ImmList<Val>;

impl OfKind for List {
    ghost as_plain = { list_of };

    fn into_collection(self) -> Collection {
        Collection::of_repr(Repr::List(self))
    }

    fn kind(&self) -> Kind {
        Kind::List
    }

    fn to_values(&self, alloc: Global) -> Result<Values, Memory> {
        Ok(Values::List(Listed::from_vec(self.to_vec(alloc)?)))
    }

    fn apply(&self, alloc: Global, op: &PlainOp) -> Changed<List> {
        judged(change(alloc, self, op))
    }

    fn answer(&self, _alloc: Global, query: &Query) -> Result<Answer, Memory> {
        Ok(answer(self, query))
    }

    fn preview(&self, alloc: Global) -> Result<Answer, Memory> {
        Ok(Answer::Shown {
            count: self.count(),
            first: Values::List(Listed::from_vec(first_of(alloc, self.tree())?)),
        })
    }
}

/// The list of these values.
pub(crate) fn list_of_values(alloc: Global, values: &Values) -> Judged<List>
    requires { is_within values.now ≡ true }
    ensures { IfOk result (λ m. made_map list_of m ≡ made Kind.List values.now) }
{
    let values = elements(alloc, values)?;
    judged(ImmList::from_slice(alloc, values.as_slice()))
}

// What an operation gives of a list. One that lists do not have leaves it as it is.
fn change(alloc: Global, list: &List, op: &PlainOp) -> Result<Edit<List>, ListFault>
    requires { are_within (op_values op.now) ≡ true }
    ensures { Answers result (list_op op.now list.now) }
{
    match op {
        PlainOp::Add(value) => list.add(alloc, *value),
        PlainOp::AddRange(values) => list.add_range(alloc, elements(alloc, values)?.as_slice()),
        PlainOp::Insert(index, value) => list.insert(alloc, *index, *value),
        PlainOp::InsertRange(index, values) => {
            list.insert_range(alloc, *index, elements(alloc, values)?.as_slice())
        }
        PlainOp::RemoveAt(index) => list.remove_at(alloc, *index),
        PlainOp::RemoveRange(index, count) => list.remove_range(alloc, *index, *count),
        PlainOp::Remove(value) => list.remove(alloc, value),
        PlainOp::RemoveAll(test) => list.remove_all(alloc, test),
        PlainOp::Replace(old, value) => list.replace(alloc, old, *value),
        PlainOp::SetItem(index, value) => list.set_item(alloc, *index, *value),
        PlainOp::GetRange(index, count) => list.get_range(alloc, *index, *count),
        PlainOp::Reverse => list.reverse(alloc),
        PlainOp::Sort(order) => list.sort(alloc, order),
        PlainOp::Clear => Ok(list.clear()),
        _ => Ok(Edit::Same),
    }
}

// What a question about a list is answered.
fn answer(list: &List, query: &Query) -> Answer
    ensures { result ≡ list_answer query.now list.now }
{
    match query {
        Query::Count => Answer::Count(u64::from(list.count())),
        Query::Get(index) => element(list, *index),
        Query::IndexOf(value) => place_or_none(list.index_of(value)),
        Query::LastIndexOf(value) => place_or_none(list.last_index_of(value)),
        Query::Search(order, value) => search(list, order, value),
        Query::Contains(value) => Answer::Flag(list.contains(value)),
        Query::Peek => value_or(Answer::Refused(Refusal::Empty), list.tree().first()),
        _ => Answer::Missing,
    }
}

fn element(list: &List, index: u32) -> Answer
    ensures { result ≡ list_answer (Query.Get index) list.now }
{
    let count = list.count();
    let out_of_range = Answer::Refused(Refusal::OutOfRange { index, count });
    value_or(out_of_range, list.tree().at(index))
}

fn search(list: &List, order: &ValOrder, value: &Val) -> Answer
    ensures { result ≡ list_answer (Query.Search order.now value.now) list.now }
{
    if list.is_sorted(order) {
        Answer::Index(list.binary_search(value, order))
    } else {
        Answer::Refused(Refusal::Unsorted)
    }
}
