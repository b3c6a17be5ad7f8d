//! Stacks.
ghost use Rattle.std.specs.Prelude.{◌≡◌, ◌<◌, ◌∷◌, true, IfOk, length, reverse};
ghost use Rattle.avl_node.specs.Rows.{list_made};
ghost use Rattle.imm_base.specs.declared.TheConstants.{LIMIT};
ghost use Rattle.imm_base.specs.Answers as base;
ghost use Rattle.imm_base.specs.Answers.{IsNew};
ghost use Rattle.plain_model.specs.Kinds.{end_answers};
ghost use Rattle.plain_model.specs.Plain.{made, stack_op};
ghost use Rattle.plain_model.specs.Queries.{list_answer};
ghost use Rattle.plain_model.specs.Sources.{is_within};
ghost use Rattle.queue_stack.specs.Answers.{Answers, end_why};
ghost use Rattle.collections.specs.Changes.{made_map};
ghost use Rattle.collections.specs.Kinds.{stack_of};

use crate::Collection;
use crate::answers::first_in;
use crate::arguments::elements;
use crate::collection::Repr;
use crate::of_kind::{Changed, Judged, OfKind, judged};
use imm_base::{Edit, LIMIT, Memory, Val};
use plain_model::{Answer, Kind, Listed, PlainOp, Query, Refusal, Values};
use queue_stack::{EndFault, ImmStack};
use std::alloc::Global;

type Stack = ImmStack<Val>;

impl OfKind for Stack {
    ghost as_plain = { stack_of };

    fn into_collection(self) -> Collection {
        Collection::of_repr(Repr::Stack(self))
    }

    fn kind(&self) -> Kind {
        Kind::Stack
    }

    fn to_values(&self, alloc: Global) -> Result<Values, Memory> {
        Ok(Values::List(Listed::from_vec(self.to_vec(alloc)?)))
    }

    fn apply(&self, alloc: Global, op: &PlainOp) -> Changed<Stack> {
        judged(change(alloc, self, op))
    }

    fn answer(&self, _alloc: Global, query: &Query) -> Result<Answer, Memory> {
        Ok(answer(self, query))
    }

    fn preview(&self, alloc: Global) -> Result<Answer, Memory> {
        let elements = self.to_vec(alloc)?;
        Ok(Answer::Shown {
            count: self.count(),
            first: Values::List(Listed::from_vec(first_in(alloc, elements.as_slice())?)),
        })
    }
}

/// The stack of these values, the last of them on top.
pub(crate) fn stack_of_values(alloc: Global, values: &Values) -> Judged<Stack>
    requires { is_within values.now ≡ true }
    ensures { IfOk result (λ m. made_map stack_of m ≡ made Kind.Stack values.now) }
{
    let values = elements(alloc, values)?;
    judged(stack_of_elements(alloc, values.as_slice()))
}

// The elements pushed one after another on the empty stack.
fn stack_of_elements(alloc: Global, elements: &[Val]) -> Result<Stack, EndFault>
    ensures { base.Answers end_why IsNew result (list_made (reverse elements.now)) }
{
    if elements.len() > LIMIT as usize {
        return Err(EndFault::TooLarge { count: 0 });
    }
    let mut stack = ImmStack::new();
    for value in elements {
        stack = pushed(alloc, &stack, *value)?;
    }
    Ok(stack)
}

fn pushed(alloc: Global, stack: &Stack, value: Val) -> Result<Stack, Memory>
    requires { length stack.now < LIMIT }
    ensures { IfOk result (λ higher. higher ≡ value ∷ stack.now) }
{
    match stack.push(alloc, value) {
        Ok(Edit::New(higher)) => Ok(higher),
        Err(EndFault::Memory) => Err(Memory),
        _ => unreachable!(),
    }
}

// What an operation gives of a stack. One that stacks do not have leaves it as it is.
fn change(alloc: Global, stack: &Stack, op: &PlainOp) -> Result<Edit<Stack>, EndFault>
    ensures { Answers result (stack_op op.now stack.now) }
{
    match op {
        PlainOp::Push(value) => stack.push(alloc, *value),
        PlainOp::Pop => stack.pop(alloc),
        PlainOp::Clear => Ok(stack.clear()),
        _ => Ok(Edit::Same),
    }
}

// What a question about a stack is answered.
fn answer(stack: &Stack, query: &Query) -> Answer
    requires { end_answers query.now ≡ true }
    ensures { result ≡ list_answer query.now stack.now }
{
    match query {
        Query::Count => Answer::Count(u64::from(stack.count())),
        Query::Peek => top(stack),
        _ => unreachable!(),
    }
}

fn top(stack: &Stack) -> Answer
    ensures { result ≡ list_answer Query.Peek stack.now }
{
    match stack.peek() {
        Ok(top) => Answer::Value(*top),
        Err(_) => Answer::Refused(Refusal::Empty),
    }
}
