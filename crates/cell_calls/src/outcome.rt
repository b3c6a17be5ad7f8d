//! What a call comes to.
ghost use Rattle.std.specs.Prelude.{◌≡◌, false, true, Ok, IfOk};
ghost use Rattle.imm_base.specs.declared.val.Edit.TheVariants.{New};
ghost use Rattle.plain_model.specs.declared.history.Reply.TheVariants.{Flag};
ghost use Rattle.plain_model.specs.Cell.{install_and_reply, reply_only, update};
ghost use Rattle.plain_model.specs.Plain.{plain};
ghost use Rattle.plain_model.specs.Sources.{are_within, op_values};
ghost use Rattle.cell_calls.specs.Outcomes.{GivesOther, plain_outcome};

use collections::Collection;
use imm_base::{Edit, Memory};
use plain_model::{PlainOp, Refusal, Reply};
use std::alloc::Global;

/// What a call gives: the collection as it was or another one, and the reply.
#[derive(Drop)]
pub struct Outcome {
    pub edit: Edit<Collection>,
    pub reply: Reply,
}

/// The collection stays, and this is the reply.
pub(crate) fn answered(reply: Reply) -> Outcome
    ensures { plain_outcome result ≡ reply_only reply }
{
    Outcome {
        edit: Edit::Same,
        reply,
    }
}

/// This is the collection then, and the reply.
pub(crate) fn installed(value: Collection, reply: Reply) -> Outcome
    ensures { plain_outcome result ≡ install_and_reply value reply }
{
    Outcome {
        edit: Edit::New(value),
        reply,
    }
}

/// The call does nothing, and its reply is false.
pub(crate) fn declined() -> Outcome
    ensures { plain_outcome result ≡ reply_only (Flag false) }
{
    answered(Reply::Flag(false))
}

/// What an operation comes to.
pub(crate) fn updated(changed: Result<Edit<Collection>, Refusal>) -> Outcome
    ensures { plain_outcome result ≡ update changed }
{
    match changed {
        Ok(Edit::New(value)) => installed(value, Reply::Flag(true)),
        Ok(Edit::Same) => answered(Reply::Flag(false)),
        Err(refusal) => answered(Reply::Refused(refusal)),
    }
}

/// The other collection, where an operation gives one.
pub(crate) fn other_by(alloc: Global, old: &Collection, op: &PlainOp) -> Result<Collection, Memory>
    requires within { are_within (op_values op.now) ≡ true }
    requires other { GivesOther (plain op.now old.now) }
    ensures { IfOk result (λ other. plain op.now old.now ≡ Ok (New other)) }
{
    match old.apply(alloc, op)? {
        Ok(Edit::New(other)) => Ok(other),
        Ok(Edit::Same) => unreachable!(),
        Err(_) => unreachable!(),
    }
}
