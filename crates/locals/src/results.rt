//! What a local command answers and binds.
ghost use Rattle.std.specs.Prelude.{◌≡◌, true, Result, IfOk};
ghost use Rattle.plain_model.specs.declared.plain.Plain.{Plain};
ghost use Rattle.plain_model.specs.declared.history.Refusal.{Refusal};
ghost use Rattle.plain_model.specs.Locals.{new_given, let_given};

use crate::Bound;
use imm_base::{Edit, Memory, Text24};
use plain_model::{Answer, Kind, Refusal};
use std::alloc::Global;

/// A name, and what it is bound to.
pub(crate) type Binding = (Text24, Bound);

/// What a command answers, and the name that it binds.
#[derive(Drop)]
pub(crate) struct LocalResult {
    pub answer: Answer,
    pub binds: Option<Binding>,
}

/// An answer, and nothing bound.
pub(crate) fn answer_only(answer: Answer) -> LocalResult
    ensures { result ≡ record { answer = answer; binds = None } }
{
    LocalResult {
        answer,
        binds: None,
    }
}

/// An answer, and a name that is bound.
pub(crate) fn answer_and_bind(answer: Answer, name: Text24, value: Bound) -> LocalResult
    ensures { result ≡ record { answer = answer; binds = Some (name, value) } }
{
    LocalResult {
        answer,
        binds: Some((name, value)),
    }
}
