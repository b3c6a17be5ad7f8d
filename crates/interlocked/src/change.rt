//! Collections that a cell can keep, and calls on them.
ghost use Rattle.std.specs.Prelude.{◌≡◌, IfOk};
ghost use Rattle.plain_model.specs.declared.plain.Kind.{Kind};
ghost use Rattle.plain_model.specs.declared.plain.Plain.{Plain};
ghost use Rattle.plain_model.specs.declared.commands.PlainCall.{PlainCall};
ghost use Rattle.interlocked.specs.Outcomes.{Applies};

use imm_base::{Dup, Edit, Memory};
use plain_model::Reply;
use std::alloc::Global;

/// What a call gives: the collection as it was or another one, and the reply.
#[derive(Drop)]
pub struct Outcome<C> {
    pub edit: Edit<C>,
    pub reply: Reply,
}

/// A persistent collection.
pub trait Share: Sized + Drop {
    ghost plain: { Self → Plain };

    /// An equal value, which may share memory with this one.
    fn share(&self) -> Result<Self, Memory>
        ensures { IfOk result (λ r. plain r ≡ plain self.now) };
}

/// A call on a collection. Its meaning is a call of the plain model.
pub trait Change<C: Share>: Dup {
    ghost meaning: { Self → PlainCall };

    // The call may be made on collections of this kind: a whole collection that it hands in is of the kind itself.
    ghost suits: { Self → Kind → Type 0 };

    /// What the call does at this value. A value keeps its kind and its comparer.
    fn apply(&self, alloc: Global, old: &C) -> Result<Outcome<C>, Memory>
        requires { suits self.now (C.plain old.now).kind }
        ensures { IfOk result (Applies C.plain (meaning self.now) (C.plain old.now)) };
}
