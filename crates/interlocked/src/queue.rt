//! Cells with a queue.
ghost use Rattle.std.specs.Prelude.{◌≡◌, ◌<◌, IfErr, IfOk, Some, slice_get};
ghost use Rattle.plain_model.specs.declared.plain.Kind.TheVariants.{Queue};
ghost use Rattle.plain_model.specs.declared.commands.PlainCall.TheVariants as calls;
ghost use Rattle.interlocked.specs.Called.{IsDone, IsOutOfMemory};
ghost use Rattle.interlocked.specs.Meanings.{listed, queue_call};
ghost use Rattle.interlocked.specs.Outcomes.{Applies};

use crate::answers::Stamp;
use crate::cell::{CellPass, ImmCell};
use crate::change::{Change, Outcome, Share};
use crate::outcomes::{answered, changed, refused};
use imm_base::{Dup, Memory, Val};
use plain_model::{Refusal, Reply};
use queue_stack::{EndFault, ImmQueue};
use std::alloc::Global;
use std::sync::Wait;

/// A call on a cell with a queue.
#[derive(Debug, Drop)]
pub enum QueueCall {
    Enqueue { value: Val },
    TryDequeue,
}

impl Share for ImmQueue<Val> {
    ghost plain = { listed Queue };

    fn share(&self) -> Result<Self, Memory> {
        self.share()
    }
}

impl Dup for QueueCall {
    fn dup(&self, _: Global) -> Result<Self, Memory> {
        Ok(match self {
            QueueCall::Enqueue { value } => QueueCall::Enqueue { value: *value },
            QueueCall::TryDequeue => QueueCall::TryDequeue,
        })
    }
}

impl Change<ImmQueue<Val>> for QueueCall {
    ghost meaning = { queue_call };

    ghost suits = { λ _ _. Unit {0} };

    fn apply(&self, alloc: Global, old: &ImmQueue<Val>) -> Result<Outcome<ImmQueue<Val>>, Memory> {
        match self {
            QueueCall::Enqueue { value } => enqueue(alloc, old, *value),
            QueueCall::TryDequeue => try_dequeue(alloc, old),
        }
    }
}

fn enqueue(alloc: Global, old: &ImmQueue<Val>, value: Val) -> Result<Outcome<ImmQueue<Val>>, Memory>
    ensures { IfOk result (Applies (listed Queue) (calls.Enqueue value) (listed Queue old.now)) }
{
    match old.enqueue(alloc, value) {
        Ok(edit) => Ok(changed(edit)),
        Err(EndFault::TooLarge { count }) => Ok(refused(Refusal::TooLarge { count })),
        Err(EndFault::Empty) => Ok(refused(Refusal::Empty)),
        Err(EndFault::Memory) => Err(Memory),
    }
}

fn try_dequeue(alloc: Global, old: &ImmQueue<Val>) -> Result<Outcome<ImmQueue<Val>>, Memory>
    ensures { IfOk result (Applies (listed Queue) calls.TryDequeue (listed Queue old.now)) }
{
    match old.peek() {
        Ok(front) => take_front(alloc, old, *front),
        Err(_) => Ok(answered(Reply::Missing)),
    }
}

fn take_front(
    alloc: Global,
    old: &ImmQueue<Val>,
    front: Val,
) -> Result<Outcome<ImmQueue<Val>>, Memory>
    requires { slice_get old.now 0 ≡ Some front }
    ensures { IfOk result (Applies (listed Queue) calls.TryDequeue (listed Queue old.now)) }
{
    match old.dequeue(alloc) {
        Ok(edit) => Ok(Outcome {
            edit,
            reply: Reply::Taken(front),
        }),
        Err(EndFault::Memory) => Err(Memory),
        Err(EndFault::Empty) => unreachable!(),
        Err(EndFault::TooLarge { .. }) => unreachable!(),
    }
}

impl ImmCell<ImmQueue<Val>, QueueCall> {
    /// Puts a value at the end. Its reply is that it did, or the refusal of a full queue. O(1) a try.
    pub fn enqueue<R: Wait>(
        &self,
        rt: &R,
        alloc: Global,
        pass: &mut CellPass<ImmQueue<Val>, QueueCall>,
        ordinal: u64,
        value: Val,
    ) -> Result<(Reply, Stamp), Memory>
        requires own { pass.old.table ≡ self.now.table }
        requires above { pass.old.last < ordinal }
        ensures done { IfOk result (λ t. IsDone pass.old ordinal (calls.Enqueue value) pass.new t.0 t.1) }
        ensures memory { IfErr result (λ _. IsOutOfMemory pass.old pass.new) }
    {
        self.call(rt, alloc, pass, ordinal, &QueueCall::Enqueue { value })
    }

    /// Takes the front off. Its reply is the front, or that there is none. O(1) a try, and O(n) for each n elements where the back is turned round.
    pub fn try_dequeue<R: Wait>(
        &self,
        rt: &R,
        alloc: Global,
        pass: &mut CellPass<ImmQueue<Val>, QueueCall>,
        ordinal: u64,
    ) -> Result<(Reply, Stamp), Memory>
        requires own { pass.old.table ≡ self.now.table }
        requires above { pass.old.last < ordinal }
        ensures done { IfOk result (λ t. IsDone pass.old ordinal calls.TryDequeue pass.new t.0 t.1) }
        ensures memory { IfErr result (λ _. IsOutOfMemory pass.old pass.new) }
    {
        self.call(rt, alloc, pass, ordinal, &QueueCall::TryDequeue)
    }
}
