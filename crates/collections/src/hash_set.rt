//! Hash sets.
ghost use Rattle.std.specs.Prelude.{◌≡◌, true, IfOk};
ghost use Rattle.imm_base.specs.Order.{eq_same, val_cmp};
ghost use Rattle.imm_base.specs.Sets.{relation};
ghost use Rattle.imm_dictionary.specs.Answers.{SetAnswers};
ghost use Rattle.plain_model.specs.Kinds.{hash_set_answers};
ghost use Rattle.plain_model.specs.Plain.{elements, made, set_op};
ghost use Rattle.plain_model.specs.Queries.{set_answer};
ghost use Rattle.plain_model.specs.Sources.{are_within, is_within, op_values, query_values};
ghost use Rattle.collections.specs.Changes.{made_map};
ghost use Rattle.collections.specs.Kinds.{hash_set_of};

use crate::Collection;
use crate::answers::{first_in, value_or_none};
use crate::arguments::elements;
use crate::collection::Repr;
use crate::of_kind::{Changed, HasComparer, Judged, OfKind, judged, or_unchanged};
use imm_base::{Edit, Memory, SetFault, SetTest, Val, ValEq};
use imm_dictionary::ImmHashSet;
use plain_model::{Answer, Comparer, Kind, Listed, PlainOp, Query, Values};
use std::alloc::Global;

type Set = ImmHashSet<Val, ValEq>;

impl OfKind for Set {
    ghost as_plain = { hash_set_of };

    fn into_collection(self) -> Collection {
        Collection::of_repr(Repr::HSet(self))
    }

    fn kind(&self) -> Kind {
        Kind::HSet(self.comparer())
    }

    fn to_values(&self, alloc: Global) -> Result<Values, Memory> {
        Ok(Values::List(Listed::from_vec(self.to_vec(alloc)?)))
    }

    fn apply(&self, alloc: Global, op: &PlainOp) -> Changed<Set> {
        judged(change(alloc, self, op))
    }

    fn answer(&self, alloc: Global, query: &Query) -> Result<Answer, Memory> {
        answer(alloc, self, query)
    }

    fn preview(&self, alloc: Global) -> Result<Answer, Memory> {
        let elements = self.to_vec(alloc)?;
        Ok(Answer::Shown {
            count: self.count(),
            first: Values::List(Listed::from_vec(first_in(alloc, elements.as_slice())?)),
        })
    }
}

impl HasComparer for Set {
    fn rekeyed(&self, alloc: Global, comparer: Comparer) -> Changed<Set> {
        match comparer.equality() {
            Some(eq) => judged(self.with_comparer(alloc, eq)),
            None => unreachable!(),
        }
    }
}

/// The set of these values: their union with the empty one.
pub(crate) fn hash_set_of_values(alloc: Global, eq: ValEq, values: &Values) -> Judged<Set>
    requires { is_within values.now ≡ true }
    ensures { IfOk result (λ m. made_map hash_set_of m ≡ made (Kind.HSet eq) values.now) }
{
    let values = elements(alloc, values)?;
    let empty = ImmHashSet::new(eq);
    let union = judged(empty.union_with(alloc, values.as_slice()))?;
    Ok(or_unchanged(empty, union))
}

// What an operation gives of a set. One that sets do not have leaves it as it is.
fn change(alloc: Global, set: &Set, op: &PlainOp) -> Result<Edit<Set>, SetFault>
    requires { are_within (op_values op.now) ≡ true }
    ensures { SetAnswers set.now.eq result (set_op val_cmp (eq_same set.now.eq) op.now set.now.items) }
{
    match op {
        PlainOp::Add(value) => set.add(alloc, *value),
        PlainOp::Remove(value) => set.remove(alloc, value),
        PlainOp::Union(values) => set.union_with(alloc, elements(alloc, values)?.as_slice()),
        PlainOp::Intersect(values) => {
            set.intersect_with(alloc, elements(alloc, values)?.as_slice())
        }
        PlainOp::Except(values) => set.except_with(alloc, elements(alloc, values)?.as_slice()),
        PlainOp::SymExcept(values) => {
            set.sym_except_with(alloc, elements(alloc, values)?.as_slice())
        }
        PlainOp::Clear => Ok(set.clear()),
        _ => Ok(Edit::Same),
    }
}

// What a question about a set is answered.
fn answer(alloc: Global, set: &Set, query: &Query) -> Result<Answer, Memory>
    requires within { are_within (query_values query.now) ≡ true }
    requires answered { hash_set_answers query.now ≡ true }
    ensures { IfOk result (λ a. a ≡ set_answer val_cmp (eq_same set.now.eq) query.now set.now.items) }
{
    match query {
        Query::Count => Ok(Answer::Count(u64::from(set.count()))),
        Query::Contains(value) => Ok(Answer::Flag(set.contains(value))),
        Query::Actual(value) => Ok(value_or_none(set.actual(value))),
        Query::Subset(values) => relation(alloc, set, SetTest::Subset, values),
        Query::Superset(values) => relation(alloc, set, SetTest::Superset, values),
        Query::ProperSubset(values) => relation(alloc, set, SetTest::ProperSubset, values),
        Query::ProperSuperset(values) => relation(alloc, set, SetTest::ProperSuperset, values),
        Query::Overlaps(values) => relation(alloc, set, SetTest::Overlaps, values),
        Query::SetEquals(values) => relation(alloc, set, SetTest::SetEquals, values),
        _ => unreachable!(),
    }
}

// Whether the set stands so to the set of the values.
fn relation(alloc: Global, set: &Set, which: SetTest, values: &Values) -> Result<Answer, Memory>
    requires { is_within values.now ≡ true }
    ensures { IfOk result (λ a. a ≡ Answer.Flag (relation (eq_same set.now.eq) which
        (elements values.now) set.now.items)) }
{
    let values = elements(alloc, values)?;
    Ok(Answer::Flag(set.relation(alloc, which, values.as_slice())?))
}
