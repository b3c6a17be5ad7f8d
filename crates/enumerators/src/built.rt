//! The five builders: a walk along one goes along what the builder had at the start, and the
//! builder's number of changes is its version.
ghost use Rattle.std.specs.Prelude.{◌≡◌, IfOk};
ghost use Rattle.plain_model.specs.Places.{start_of};
ghost use Rattle.enumerators.specs.Orders.{values_in_order, pairs_in_order, values_by_hash, pairs_by_hash};

use crate::rest::Rest;
use crate::walked::Walked;
use builders::{DictBuilder, HashSetBuilder, ListBuilder, MapBuilder, SetBuilder};
use imm_base::{HashEq, Memory, Order, Val};
use std::alloc::Global;

impl Walked for ListBuilder<Val> {
    ghost elements = { λ builder. values_in_order builder.contents };

    ghost changes = { λ builder. builder.changes };

    fn rest(&mut self, alloc: Global) -> Result<Rest, Memory> {
        rest_of(alloc, self.to_immutable(alloc)?)
    }

    fn version(&self) -> u64 {
        ListBuilder::version(self)
    }
}

impl<O: Order<Val>> Walked for SetBuilder<Val, O> {
    ghost elements = { λ builder. values_in_order builder.contents.items };

    ghost changes = { λ builder. builder.changes };

    fn rest(&mut self, alloc: Global) -> Result<Rest, Memory> {
        rest_of(alloc, self.to_immutable(alloc)?)
    }

    fn version(&self) -> u64 {
        SetBuilder::version(self)
    }
}

impl<O: Order<Val>> Walked for MapBuilder<Val, Val, O> {
    ghost elements = { λ builder. pairs_in_order builder.contents.pairs };

    ghost changes = { λ builder. builder.changes };

    fn rest(&mut self, alloc: Global) -> Result<Rest, Memory> {
        rest_of(alloc, self.to_immutable(alloc)?)
    }

    fn version(&self) -> u64 {
        MapBuilder::version(self)
    }
}

impl<H: HashEq<Val>> Walked for HashSetBuilder<Val, H> {
    ghost elements = { λ builder. values_by_hash (H.hash builder.contents.eq)
        builder.contents.items };

    ghost changes = { λ builder. builder.changes };

    fn rest(&mut self, alloc: Global) -> Result<Rest, Memory> {
        rest_of(alloc, self.to_immutable()?)
    }

    fn version(&self) -> u64 {
        HashSetBuilder::version(self)
    }
}

impl<H: HashEq<Val>> Walked for DictBuilder<Val, Val, H> {
    ghost elements = { λ builder. pairs_by_hash (H.hash builder.contents.eq)
        builder.contents.pairs };

    ghost changes = { λ builder. builder.changes };

    fn rest(&mut self, alloc: Global) -> Result<Rest, Memory> {
        rest_of(alloc, self.to_immutable()?)
    }

    fn version(&self) -> u64 {
        DictBuilder::version(self)
    }
}

// What is left to walk of what was published, before the first element.
fn rest_of<C: Walked + Drop>(alloc: Global, published: C) -> Result<Rest, Memory>
    ensures { IfOk result (λ rest. rest ≡ start_of (C.elements published)) }
{
    let mut published = published;
    published.rest(alloc)
}
