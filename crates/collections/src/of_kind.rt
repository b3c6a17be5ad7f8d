//! What a collection of one kind does, whatever the kind.
ghost use Rattle.std.specs.Prelude.{◌≡◌, true, IfOk, Some, is_some};
ghost use Rattle.plain_model.specs.declared.plain.Plain.{Plain};
ghost use Rattle.imm_base.specs.Answers.{why_of};
ghost use Rattle.plain_model.specs.Comparers.{with_comparer};
ghost use Rattle.plain_model.specs.Kinds.{answers};
ghost use Rattle.plain_model.specs.Plain.{plain, refusal, shape_of};
ghost use Rattle.plain_model.specs.Queries.{shape_answer, shown};
ghost use Rattle.plain_model.specs.Sources.{are_within, is_within, op_values, query_values};
ghost use Rattle.collections.specs.Changes.{change_map, judged_by, or_unchanged, rekeyed_by};

use crate::Collection;
use imm_base::{Edit, Fault, Memory, Refused, Val};
use plain_model::{Answer, Comparer, Kind, PlainOp, Query, Refusal, Values};
use std::alloc::Global;

/// What is made, or a refusal, unless memory ran out.
pub type Judged<T> = Result<Result<T, Refusal>, Memory>;

/// What an operation gives: the collection as it was, another one, or a refusal.
pub type Changed<C> = Judged<Edit<C>>;

/// A collection of one kind. Each kind stands in a file of its own.
pub(crate) trait OfKind: Sized + Drop {
    /// The plain collection that it is.
    ghost as_plain: { Self → Plain };

    fn into_collection(self) -> Collection
        ensures { result ≡ as_plain self };

    fn kind(&self) -> Kind
        ensures { result ≡ (as_plain self.now).kind };

    /// Copies of the elements or pairs, in order.
    fn to_values(&self, alloc: Global) -> Result<Values, Memory>
        ensures values { IfOk result (λ v. v ≡ (as_plain self.now).values) }
        ensures within { IfOk result (λ v. is_within v ≡ true) };

    /// What an operation gives.
    fn apply(&self, alloc: Global, op: &PlainOp) -> Changed<Self>
        requires { are_within (op_values op.now) ≡ true }
        ensures { IfOk result (λ c. change_map as_plain c ≡ plain op.now (as_plain self.now)) };

    /// What a question is answered that the kind answers.
    fn answer(&self, alloc: Global, query: &Query) -> Result<Answer, Memory>
        requires within { are_within (query_values query.now) ≡ true }
        requires answered { answers (as_plain self.now).kind query.now ≡ true }
        ensures { IfOk result (λ a. a ≡ shape_answer (shape_of (as_plain self.now).kind) query.now
            (as_plain self.now)) };

    /// The count, and copies of the first elements or pairs.
    fn preview(&self, alloc: Global) -> Result<Answer, Memory>
        ensures { IfOk result (λ a. a ≡ shown (as_plain self.now).values) };
}

/// A collection of a kind that has a comparer.
pub(crate) trait HasComparer: OfKind {
    /// The collection under another comparer, which its kind may have.
    fn rekeyed(&self, alloc: Global, comparer: Comparer) -> Changed<Self>
        requires { is_some (with_comparer (Self.as_plain self.now).kind comparer) ≡ true }
        ensures { (kind : Kind) → with_comparer (Self.as_plain self.now).kind comparer ≡ Some kind →
            IfOk result (λ c. change_map Self.as_plain c ≡ rekeyed_by comparer kind (Self.as_plain self.now)) };
}

/// What a call of a crate of collections comes to.
pub fn judged<T: Drop, F: Fault<Val>>(called: Result<T, F>) -> Judged<T>
    ensures { result ≡ judged_by F.why called }
{
    match called {
        Ok(answer) => Ok(Ok(answer)),
        Err(fault) => match fault.refused() {
            Some(refused) => Ok(Err(refusal(refused))),
            None => Err(Memory),
        },
    }
}

/// Why an operation was refused, as a run tells it.
fn refusal(refused: Refused<Val>) -> Refusal
    ensures { result ≡ refusal (why_of refused) }
{
    match refused {
        Refused::OutOfRange { index, count } => Refusal::OutOfRange { index, count },
        Refused::NotFound => Refusal::NotFound,
        Refused::KeyExists { old } => Refusal::KeyExists { old },
        Refused::TooLarge { count } => Refusal::TooLarge { count },
        Refused::Empty => Refusal::Empty,
    }
}

/// The collection after a change of this one.
pub(crate) fn or_unchanged<C: Drop>(old: C, change: Result<Edit<C>, Refusal>) -> Result<C, Refusal>
    ensures { result ≡ or_unchanged old change }
{
    match change? {
        Edit::Same => Ok(old),
        Edit::New(other) => Ok(other),
    }
}
