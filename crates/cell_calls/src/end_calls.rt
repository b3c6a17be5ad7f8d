//! Calls on stacks and queues that take the first element off.
ghost use Rattle.std.specs.Prelude.{◌≡◌, IfOk};
ghost use Rattle.plain_model.specs.declared.commands.PlainCall.TheVariants as calls;
ghost use Rattle.plain_model.specs.Cell.{cell, is_queue, is_stack, try_take};
ghost use Rattle.plain_model.specs.Plain.{elements, shape_of};
ghost use Rattle.cell_calls.specs.Answers.{TakesFirst};
ghost use Rattle.cell_calls.specs.Outcomes.{plain_outcome};

use crate::answers::value_told;
use crate::outcome::{Outcome, answered, declined, installed, other_by};
use collections::Collection;
use imm_base::Memory;
use plain_model::{Kind, PlainOp, Query, Reply};
use std::alloc::Global;

fn is_stack(kind: Kind) -> bool
    ensures { result ≡ is_stack (shape_of kind) }
{
    match kind {
        Kind::Stack => true,
        _ => false,
    }
}

fn is_queue(kind: Kind) -> bool
    ensures { result ≡ is_queue (shape_of kind) }
{
    match kind {
        Kind::Queue => true,
        _ => false,
    }
}

/// Takes the first element off by this operation, if there is one.
fn take_first(alloc: Global, old: &Collection, op: &PlainOp) -> Result<Outcome, Memory>
    requires { TakesFirst op.now old.now }
    ensures { IfOk result (λ o. plain_outcome o ≡ try_take old.now (elements old.now.values)) }
{
    let answer = old.answer(alloc, &Query::Peek)?;
    match value_told(&answer) {
        Some(first) => {
            let rest = other_by(alloc, old, op)?;
            Ok(installed(rest, Reply::Taken(first)))
        }
        None => Ok(answered(Reply::Missing)),
    }
}

/// Takes the top of a stack off.
pub(crate) fn try_pop(alloc: Global, old: &Collection) -> Result<Outcome, Memory>
    ensures { IfOk result (λ o. plain_outcome o ≡ cell calls.TryPop old.now) }
{
    if is_stack(old.kind()) {
        return take_first(alloc, old, &PlainOp::Pop);
    }
    Ok(declined())
}

/// Takes the front of a queue off.
pub(crate) fn try_dequeue(alloc: Global, old: &Collection) -> Result<Outcome, Memory>
    ensures { IfOk result (λ o. plain_outcome o ≡ cell calls.TryDequeue old.now) }
{
    if is_queue(old.kind()) {
        return take_first(alloc, old, &PlainOp::Dequeue);
    }
    Ok(declined())
}
