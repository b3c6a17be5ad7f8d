//! The elements of a collection of any kind, in the order of a walk.
ghost use Rattle.std.specs.Prelude.{◌≡◌, true, IfOk};
ghost use Rattle.plain_model.specs.Kinds.{is_walked};
ghost use Rattle.plain_model.specs.Locals.{walk_order};
ghost use Rattle.plain_model.specs.Places.{start_of};

use collections::{Collection, Repr};
use enumerators::{Rest, Walked};
use imm_base::Memory;
use std::alloc::Global;

/// A share of the elements of a collection, before the first of them in the order of a walk. O(1).
pub fn rest_of(alloc: Global, collection: &Collection) -> Result<Rest, Memory>
    requires { is_walked collection.now.kind ≡ true }
    ensures { IfOk result (λ rest.
        rest ≡ start_of (walk_order collection.now.kind collection.now.values)) }
{
    match collection.repr() {
        Repr::List(list) => list.share()?.rest(alloc),
        Repr::SSet(set) => set.share()?.rest(alloc),
        Repr::SMap(map) => map.share()?.rest(alloc),
        Repr::HSet(set) => set.share()?.rest(alloc),
        Repr::Dict(map) => map.share()?.rest(alloc),
        // No walk goes along these.
        Repr::Array(_) | Repr::Stack(_) | Repr::Queue(_) => unreachable!(),
    }
}
