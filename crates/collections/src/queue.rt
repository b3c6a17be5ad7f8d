//! Queues.
ghost use Rattle.std.specs.Prelude.{◌≡◌, ◌<◌, ◌∷◌, ◌++◌, [], true, IfOk, length};
ghost use Rattle.avl_node.specs.Rows.{list_made};
ghost use Rattle.imm_base.specs.declared.TheConstants.{LIMIT};
ghost use Rattle.imm_base.specs.Answers as base;
ghost use Rattle.imm_base.specs.Answers.{IsNew};
ghost use Rattle.plain_model.specs.Kinds.{end_answers};
ghost use Rattle.plain_model.specs.Plain.{made, queue_op};
ghost use Rattle.plain_model.specs.Queries.{list_answer};
ghost use Rattle.plain_model.specs.Sources.{is_within};
ghost use Rattle.queue_stack.specs.Answers.{Answers, end_why};
ghost use Rattle.collections.specs.Changes.{made_map};
ghost use Rattle.collections.specs.Kinds.{queue_of};

use crate::Collection;
use crate::answers::first_in;
use crate::arguments::elements;
use crate::collection::Repr;
use crate::of_kind::{Changed, Judged, OfKind, judged};
use imm_base::{Edit, LIMIT, Memory, Val};
use plain_model::{Answer, Kind, Listed, PlainOp, Query, Refusal, Values};
use queue_stack::{EndFault, ImmQueue};
use std::alloc::Global;

type Queue = ImmQueue<Val>;

impl OfKind for Queue {
    ghost as_plain = { queue_of };

    fn into_collection(self) -> Collection {
        Collection::of_repr(Repr::Queue(self))
    }

    fn kind(&self) -> Kind {
        Kind::Queue
    }

    fn to_values(&self, alloc: Global) -> Result<Values, Memory> {
        Ok(Values::List(Listed::from_vec(self.to_vec(alloc)?)))
    }

    fn apply(&self, alloc: Global, op: &PlainOp) -> Changed<Queue> {
        judged(change(alloc, self, op))
    }

    fn answer(&self, _alloc: Global, query: &Query) -> Result<Answer, Memory> {
        Ok(answer(self, query))
    }

    fn preview(&self, alloc: Global) -> Result<Answer, Memory> {
        let elements = self.to_vec(alloc)?;
        Ok(Answer::Shown {
            count: self.count(),
            first: Values::List(Listed::from_vec(first_in(alloc, elements.as_slice())?)),
        })
    }
}

/// The queue of these values, the first of them in front.
pub(crate) fn queue_of_values(alloc: Global, values: &Values) -> Judged<Queue>
    requires { is_within values.now ≡ true }
    ensures { IfOk result (λ m. made_map queue_of m ≡ made Kind.Queue values.now) }
{
    let values = elements(alloc, values)?;
    judged(queue_of_elements(alloc, values.as_slice()))
}

// The elements put one after another into the empty queue.
fn queue_of_elements(alloc: Global, elements: &[Val]) -> Result<Queue, EndFault>
    ensures { base.Answers end_why IsNew result (list_made elements.now) }
{
    if elements.len() > LIMIT as usize {
        return Err(EndFault::TooLarge { count: 0 });
    }
    let mut queue = ImmQueue::new();
    for value in elements {
        queue = enqueued(alloc, &queue, *value)?;
    }
    Ok(queue)
}

fn enqueued(alloc: Global, queue: &Queue, value: Val) -> Result<Queue, Memory>
    requires { length queue.now < LIMIT }
    ensures { IfOk result (λ longer. longer ≡ queue.now ++ value ∷ []) }
{
    match queue.enqueue(alloc, value) {
        Ok(Edit::New(longer)) => Ok(longer),
        Err(EndFault::Memory) => Err(Memory),
        _ => unreachable!(),
    }
}

// What an operation gives of a queue. One that queues do not have leaves it as it is.
fn change(alloc: Global, queue: &Queue, op: &PlainOp) -> Result<Edit<Queue>, EndFault>
    ensures { Answers result (queue_op op.now queue.now) }
{
    match op {
        PlainOp::Enqueue(value) => queue.enqueue(alloc, *value),
        PlainOp::Dequeue => queue.dequeue(alloc),
        PlainOp::Clear => Ok(queue.clear()),
        _ => Ok(Edit::Same),
    }
}

// What a question about a queue is answered.
fn answer(queue: &Queue, query: &Query) -> Answer
    requires { end_answers query.now ≡ true }
    ensures { result ≡ list_answer query.now queue.now }
{
    match query {
        Query::Count => Answer::Count(u64::from(queue.count())),
        Query::Peek => front(queue),
        _ => unreachable!(),
    }
}

fn front(queue: &Queue) -> Answer
    ensures { result ≡ list_answer Query.Peek queue.now }
{
    match queue.peek() {
        Ok(front) => Answer::Value(*front),
        Err(_) => Answer::Refused(Refusal::Empty),
    }
}
