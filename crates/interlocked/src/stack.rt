//! Cells with a stack.
ghost use Rattle.std.specs.Prelude.{◌≡◌, ◌<◌, IfErr, IfOk, Some, slice_get};
ghost use Rattle.plain_model.specs.declared.plain.Kind.TheVariants.{Stack};
ghost use Rattle.plain_model.specs.declared.commands.PlainCall.TheVariants as calls;
ghost use Rattle.interlocked.specs.Called.{IsDone, IsOutOfMemory};
ghost use Rattle.interlocked.specs.Meanings.{listed, stack_call};
ghost use Rattle.interlocked.specs.Outcomes.{Applies};

use crate::answers::Stamp;
use crate::cell::{CellPass, ImmCell};
use crate::change::{Change, Outcome, Share};
use crate::outcomes::{answered, changed, refused};
use imm_base::{Dup, Memory, Val};
use plain_model::{Refusal, Reply};
use queue_stack::{EndFault, ImmStack};
use std::alloc::Global;
use std::sync::Wait;

/// A call on a cell with a stack.
#[derive(Debug, Drop)]
pub enum StackCall {
    Push { value: Val },
    TryPop,
}

impl Share for ImmStack<Val> {
    ghost plain = { listed Stack };

    fn share(&self) -> Result<Self, Memory> {
        self.share()
    }
}

impl Dup for StackCall {
    fn dup(&self, _: Global) -> Result<Self, Memory> {
        Ok(match self {
            StackCall::Push { value } => StackCall::Push { value: *value },
            StackCall::TryPop => StackCall::TryPop,
        })
    }
}

impl Change<ImmStack<Val>> for StackCall {
    ghost meaning = { stack_call };

    ghost suits = { λ _ _. Unit {0} };

    fn apply(&self, alloc: Global, old: &ImmStack<Val>) -> Result<Outcome<ImmStack<Val>>, Memory> {
        match self {
            StackCall::Push { value } => push(alloc, old, *value),
            StackCall::TryPop => try_pop(alloc, old),
        }
    }
}

fn push(alloc: Global, old: &ImmStack<Val>, value: Val) -> Result<Outcome<ImmStack<Val>>, Memory>
    ensures { IfOk result (Applies (listed Stack) (calls.Push value) (listed Stack old.now)) }
{
    match old.push(alloc, value) {
        Ok(edit) => Ok(changed(edit)),
        Err(EndFault::TooLarge { count }) => Ok(refused(Refusal::TooLarge { count })),
        Err(EndFault::Empty) => Ok(refused(Refusal::Empty)),
        Err(EndFault::Memory) => Err(Memory),
    }
}

fn try_pop(alloc: Global, old: &ImmStack<Val>) -> Result<Outcome<ImmStack<Val>>, Memory>
    ensures { IfOk result (Applies (listed Stack) calls.TryPop (listed Stack old.now)) }
{
    match old.peek() {
        Ok(top) => take_top(alloc, old, *top),
        Err(_) => Ok(answered(Reply::Missing)),
    }
}

fn take_top(alloc: Global, old: &ImmStack<Val>, top: Val) -> Result<Outcome<ImmStack<Val>>, Memory>
    requires { slice_get old.now 0 ≡ Some top }
    ensures { IfOk result (Applies (listed Stack) calls.TryPop (listed Stack old.now)) }
{
    match old.pop(alloc) {
        Ok(edit) => Ok(Outcome {
            edit,
            reply: Reply::Taken(top),
        }),
        Err(EndFault::Memory) => Err(Memory),
        Err(EndFault::Empty) => unreachable!(),
        Err(EndFault::TooLarge { .. }) => unreachable!(),
    }
}

impl ImmCell<ImmStack<Val>, StackCall> {
    /// Puts a value on top. Its reply is that it did, or the refusal of a full stack. O(1) a try.
    pub fn push<R: Wait>(
        &self,
        rt: &R,
        alloc: Global,
        pass: &mut CellPass<ImmStack<Val>, StackCall>,
        ordinal: u64,
        value: Val,
    ) -> Result<(Reply, Stamp), Memory>
        requires own { pass.old.table ≡ self.now.table }
        requires above { pass.old.last < ordinal }
        ensures done { IfOk result (λ t. IsDone pass.old ordinal (calls.Push value) pass.new t.0 t.1) }
        ensures memory { IfErr result (λ _. IsOutOfMemory pass.old pass.new) }
    {
        self.call(rt, alloc, pass, ordinal, &StackCall::Push { value })
    }

    /// Takes the top off. Its reply is the top, or that there is none. O(1) a try.
    pub fn try_pop<R: Wait>(
        &self,
        rt: &R,
        alloc: Global,
        pass: &mut CellPass<ImmStack<Val>, StackCall>,
        ordinal: u64,
    ) -> Result<(Reply, Stamp), Memory>
        requires own { pass.old.table ≡ self.now.table }
        requires above { pass.old.last < ordinal }
        ensures done { IfOk result (λ t. IsDone pass.old ordinal calls.TryPop pass.new t.0 t.1) }
        ensures memory { IfErr result (λ _. IsOutOfMemory pass.old pass.new) }
    {
        self.call(rt, alloc, pass, ordinal, &StackCall::TryPop)
    }
}
