//! The calls of commands whose arguments alone say which.
ghost use Rattle.std.specs.Prelude.{◌≡◌, IfOk};
ghost use Rattle.plain_model.specs.Work.{call_of};

use imm_base::{Dup, Memory, Text24};
use plain_model::{Command, PlainCall};
use std::alloc::Global;

/// The call that a command makes, and on which cell, where its arguments alone say which.
pub(crate) fn call_of(
    alloc: Global,
    command: &Command,
) -> Result<Option<(Text24, PlainCall)>, Memory>
    ensures { IfOk result (λ call. call ≡ call_of command.now) }
{
    Ok(match command {
        Command::Update(cell, op) => Some((*cell, PlainCall::Update(op.dup(alloc)?))),
        Command::GetOrAdd(cell, key, value) => Some((*cell, PlainCall::GetOrAdd(*key, *value))),
        Command::AddOrUpdate(cell, key, value, transform) => {
            Some((*cell, PlainCall::AddOrUpdate(*key, *value, *transform)))
        }
        Command::TryAdd(cell, key, value) => Some((*cell, PlainCall::TryAdd(*key, *value))),
        Command::TryUpdate(cell, key, value, wanted) => {
            Some((*cell, PlainCall::TryUpdate(*key, *value, *wanted)))
        }
        Command::TryRemove(cell, key) => Some((*cell, PlainCall::TryRemove(*key))),
        Command::Push(cell, value) => Some((*cell, PlainCall::Push(*value))),
        Command::TryPop(cell) => Some((*cell, PlainCall::TryPop)),
        Command::Enqueue(cell, value) => Some((*cell, PlainCall::Enqueue(*value))),
        Command::TryDequeue(cell) => Some((*cell, PlainCall::TryDequeue)),
        Command::AddOrUpdateMade(cell, key, make, transform) => {
            Some((*cell, PlainCall::AddOrUpdateMade(*key, *make, *transform)))
        }
        _ => None,
    })
}
