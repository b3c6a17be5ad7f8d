//! What can be walked along.
ghost use Rattle.std.specs.Prelude.{◌≡◌, ℕ, List, IfOk};
ghost use Rattle.plain_model.specs.declared.plain.Elem.{Elem};
ghost use Rattle.plain_model.specs.Places.{start_of};

use crate::rest::Rest;
use imm_base::Memory;
use std::alloc::Global;

/// A collection, or a builder of one.
pub trait Walked {
    // The elements, in the order in which a walk comes to them.
    ghost elements: { Self → List Elem };

    // How often it was changed; 0 for what does not change.
    ghost changes: { Self → ℕ };

    /// A share of the elements, before the first of them. It leaves the contents and the version as
    /// they are, also where memory is refused. O(1) for a collection. A builder publishes its
    /// contents first, O(k) for the k nodes that were made since it did so last.
    fn rest(&mut self, alloc: Global) -> Result<Rest, Memory>
        ensures start { IfOk result (λ rest. rest ≡ start_of (elements self.old)) }
        ensures same { self.new ≡ self.old };

    /// How often it was changed: 0 for a collection. A walk that has started at one version is
    /// refused at another. O(1).
    fn version(&self) -> u64
        ensures { result ≡ changes self.now };
}
