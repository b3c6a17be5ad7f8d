//! The outcomes of calls.
ghost use Rattle.std.specs.Prelude.{◌≡◌};
ghost use Rattle.imm_base.specs.declared.val.Edit.TheVariants.{Same};
ghost use Rattle.plain_model.specs.declared.history.Reply.TheVariants.{Flag, Refused};
ghost use Rattle.interlocked.specs.Outcomes.{is_new};

use crate::change::Outcome;
use imm_base::Edit;
use plain_model::{Refusal, Reply};

/// The collection stays, and this is the reply.
pub(crate) fn answered<C>(reply: Reply) -> Outcome<C>
    ensures { result ≡ record { edit = Same; reply = reply } }
{
    Outcome {
        edit: Edit::Same,
        reply,
    }
}

/// The operation was refused.
pub(crate) fn refused<C>(refusal: Refusal) -> Outcome<C>
    ensures { result ≡ record { edit = Same; reply = Refused refusal } }
{
    answered(Reply::Refused(refusal))
}

/// The operation was done, and the reply says whether it gave another collection.
pub(crate) fn changed<C>(edit: Edit<C>) -> Outcome<C>
    ensures { result ≡ record { edit = edit; reply = Flag (is_new edit) } }
{
    let is_new = matches!(&edit, Edit::New(_));
    Outcome {
        edit,
        reply: Reply::Flag(is_new),
    }
}
