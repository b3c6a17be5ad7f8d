//! Calls on a cell with a collection.
ghost use Rattle.std.specs.Prelude.{◌≡◌, true, IfOk};
ghost use Rattle.plain_model.specs.declared.commands.PlainCall.TheVariants as calls;
ghost use Rattle.plain_model.specs.Cell.{cell, update};
ghost use Rattle.plain_model.specs.Plain.{plain};
ghost use Rattle.plain_model.specs.Sources.{are_within, op_values};
ghost use Rattle.cell_calls.specs.Calls.{plain_call, Suits, PlainSuits};
ghost use Rattle.cell_calls.specs.Outcomes.{plain_outcome, KeepsKind};

use crate::end_calls::{try_dequeue, try_pop};
use crate::key_calls::{
    add_or_update, get_or_add, get_or_add_made, try_add, try_remove, try_update,
};
use crate::outcome::{Outcome, answered, installed, updated};
use collections::Collection;
use imm_base::{Dup, Memory};
use plain_model::{PlainCall, PlainOp, Reply};
use std::alloc::Global;

/// A call on a cell with a collection.
#[derive(Drop)]
pub enum CellCall {
    /// A call that brings no collection along.
    Plain(PlainCall),
    /// The collection that the cell has then.
    Publish(Collection),
}

impl CellCall {
    /// The call of the plain model that it is. O(1), and O(n) for a collection of n elements that is
    /// published, O(n log n) where that is a hash set or a dictionary.
    pub fn into_plain(self, alloc: Global) -> Result<PlainCall, Memory>
        ensures { IfOk result (λ call. call ≡ plain_call self) }
    {
        match self {
            CellCall::Plain(call) => Ok(call),
            CellCall::Publish(value) => Ok(PlainCall::Publish(value.plain(alloc)?)),
        }
    }

    /// What the call does at this collection, in the time of the collection's own operations: O(log n)
    /// for a call with a key, O(1) for one on a stack, and O(1) in the mean for one on a queue. A cell
    /// keeps its kind, with the comparer. A call that the kind does not have changes nothing.
    pub fn apply(&self, alloc: Global, old: &Collection) -> Result<Outcome, Memory>
        requires { Suits self.now old.now.kind }
        ensures outcome { IfOk result (λ o. plain_outcome o ≡ cell (plain_call self.now) old.now) }
        ensures kind { IfOk result (λ o. KeepsKind old.now.kind o.edit) }
    {
        match self {
            CellCall::Plain(call) => apply_plain(alloc, call, old),
            CellCall::Publish(value) => {
                let value = value.share()?;
                Ok(installed(value, Reply::Flag(true)))
            }
        }
    }
}

impl Dup for CellCall {
    fn dup(&self, alloc: Global) -> Result<Self, Memory> {
        Ok(match self {
            CellCall::Plain(call) => CellCall::Plain(call.dup(alloc)?),
            CellCall::Publish(value) => CellCall::Publish(value.share()?),
        })
    }
}

// An operation.
fn update(alloc: Global, op: &PlainOp, old: &Collection) -> Result<Outcome, Memory>
    requires { are_within (op_values op.now) ≡ true }
    ensures { IfOk result (λ o. plain_outcome o ≡ cell (calls.Update op.now) old.now) }
{
    // By its clause the collection is no unset array.
    let _count = old.count();
    let changed = old.apply(alloc, op)?;
    Ok(updated(changed))
}

// An operation that is a call of its own.
fn operate(alloc: Global, op: &PlainOp, old: &Collection) -> Result<Outcome, Memory>
    requires { are_within (op_values op.now) ≡ true }
    ensures { IfOk result (λ o. plain_outcome o ≡ update (plain op.now old.now)) }
{
    let changed = old.apply(alloc, op)?;
    Ok(updated(changed))
}

fn read(old: &Collection) -> Outcome
    ensures { plain_outcome result ≡ cell calls.Read old.now }
{
    answered(Reply::Count(old.count()))
}

// What a call does that brings no collection along.
fn apply_plain(alloc: Global, call: &PlainCall, old: &Collection) -> Result<Outcome, Memory>
    requires { PlainSuits call.now }
    ensures { IfOk result (λ o. plain_outcome o ≡ cell call.now old.now) }
{
    match call {
        PlainCall::Update(op) => update(alloc, op, old),
        PlainCall::Read => Ok(read(old)),
        PlainCall::GetOrAdd(key, value) => get_or_add(alloc, old, key, value),
        PlainCall::AddOrUpdate(key, value, transform) => {
            add_or_update(alloc, old, key, value, transform)
        }
        PlainCall::TryAdd(key, value) => try_add(alloc, old, key, value),
        PlainCall::TryUpdate(key, value, wanted) => try_update(alloc, old, key, value, wanted),
        PlainCall::TryRemove(key) => try_remove(alloc, old, key),
        PlainCall::Push(value) => operate(alloc, &PlainOp::Push(*value), old),
        PlainCall::TryPop => try_pop(alloc, old),
        PlainCall::Enqueue(value) => operate(alloc, &PlainOp::Enqueue(*value), old),
        PlainCall::TryDequeue => try_dequeue(alloc, old),
        PlainCall::GetOrAddMade(key, make, probe) => get_or_add_made(alloc, old, key, make, probe),
        PlainCall::AddOrUpdateMade(key, make, transform) => {
            add_or_update(alloc, old, key, &make.on(key), transform)
        }
        // These bring a collection or an array along.
        PlainCall::Publish(_) => unreachable!(),
        PlainCall::Exchange(_) => unreachable!(),
        PlainCall::CompareExchange(_, _) => unreachable!(),
        PlainCall::Initialize(_) => unreachable!(),
    }
}
