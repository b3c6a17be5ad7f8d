//! What a builder of one kind does, whatever the kind.
ghost use Rattle.std.specs.Prelude.{◌≡◌, true, IfErr, IfOk};
ghost use Rattle.plain_model.specs.declared.plain.Plain.{Plain};
ghost use Rattle.plain_model.specs.Builders.{Built, after_change};
ghost use Rattle.plain_model.specs.Kinds.{builder_takes};
ghost use Rattle.plain_model.specs.Plain.{count, plain};
ghost use Rattle.plain_model.specs.Sources.{are_within, op_values};
ghost use Rattle.builders.specs.Changes.{CanCount};
ghost use Rattle.collection_builders.specs.Builders.{step_of};

use collections::{Collection, Judged};
use imm_base::{Memory, Step};
use plain_model::{Kind, PlainOp};
use std::alloc::Global;

/// A builder of one kind. Each kind stands in a file of its own.
pub(crate) trait BuilderOfKind: Sized + Drop {
    /// The builder of a plain collection that it is.
    ghost as_built: { Self → Built Plain };

    fn version(&self) -> u64
        ensures { result ≡ (as_built self.now).changes };

    fn kind(&self) -> Kind
        ensures { result ≡ (as_built self.now).contents.kind };

    fn count(&self) -> u32
        ensures { result ≡ count (as_built self.now).contents.values };

    /// Makes the change that an operation gives.
    fn apply(&mut self, alloc: Global, op: &PlainOp) -> Judged<Step>
        requires within { are_within (op_values op.now) ≡ true }
        requires taken { builder_takes (as_built self.old).contents.kind op.now ≡ true }
        requires counts { CanCount (as_built self.old) }
        ensures change { IfOk result (λ answer.
            (answer ≡ step_of (plain op.now (as_built self.old).contents))
            × (as_built self.new
            ≡ after_change (plain op.now (as_built self.old).contents) (as_built self.old))) }
        ensures memory { IfErr result (λ _. as_built self.new ≡ as_built self.old) };

    /// The contents as they are now.
    fn to_collection(&mut self, alloc: Global) -> Result<Collection, Memory>
        ensures published { IfOk result (λ c. c ≡ (as_built self.old).contents) }
        ensures same { as_built self.new ≡ as_built self.old };
}
