//! What holds of all builders.
ghost use Rattle.std.specs.Prelude.{◌≡◌, ◌+◌, ◌<◌, ◌≤◌, ◌^◌, length, IfOk};
ghost use Rattle.plain_model.specs.Builders.{Built};
ghost use Rattle.builders.specs.Changes.{CanCount};
ghost use Rattle.builders.specs.Laws.{IsCounted};

use imm_base::{Memory, Step};
use std::alloc::Global;

/// A builder of any kind, with what it publishes. `Change` is a changing call with its arguments.
pub trait Builder<Change>: Drop {
    /// The immutable collection.
    type Collection: Drop;

    /// Why a change is refused.
    type Fault: Drop;

    /// The contents, and the number of changes that gave other ones.
    ghost built: { Self → Built Self.Collection };

    /// Makes the change.
    fn apply(&mut self, alloc: Global, change: Change) -> Result<Step, Self::Fault>
        requires { CanCount (built self.old) }
        ensures { IsCounted result (built self.old) (built self.new) };

    /// The contents as they are now.
    fn publish(&mut self, alloc: Global) -> Result<Self::Collection, Memory>
        ensures published { IfOk result (λ c. c ≡ (built self.old).contents) }
        ensures same { built self.new ≡ built self.old };
}

/// What is published keeps its value through any later changes, in any order, whatever each of them
/// answers: it is what the builder had before them. Publishes the contents, makes the changes, and
/// answers what was published.
pub fn published_stays<Change: Drop, B: Builder<Change>>(
    alloc: Global,
    builder: &mut B,
    changes: Vec<Change>,
) -> Result<B::Collection, Memory>
    requires { (B.built builder.old).changes + length changes.items < 2 ^ 64 }
    ensures { IfOk result (λ c. c ≡ (B.built builder.old).contents) }
{
    let published = builder.publish(alloc)?;
    for change in changes {
        let _answer = builder.apply(alloc, change);
    }
    Ok(published)
}
