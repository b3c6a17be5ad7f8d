//! The five collections, which never change: a walk along one has the version 0 from its start to
//! its end.
ghost use Rattle.enumerators.specs.Orders.{values_in_order, pairs_in_order, values_by_hash, pairs_by_hash};

use crate::rest::{Elements, Rest};
use crate::series::Series;
use crate::walked::Walked;
use imm_base::{HashEq, Memory, Order, Val};
use imm_dictionary::{Dict, ImmHashSet};
use imm_list::ImmList;
use sorted_maps::SortedMap;
use sorted_sets::SortedSet;
use std::alloc::Global;

impl Walked for ImmList<Val> {
    ghost elements = { λ list. values_in_order list };

    ghost changes = { λ _. 0 };

    fn rest(&mut self, _alloc: Global) -> Result<Rest, Memory> {
        let tree = self.tree().share()?;
        Ok(Rest::of(Elements::Values(Series::of_list(tree))))
    }

    fn version(&self) -> u64 {
        0
    }
}

impl<O: Order<Val>> Walked for SortedSet<Val, O> {
    ghost elements = { λ set. values_in_order set.items };

    ghost changes = { λ _. 0 };

    fn rest(&mut self, _alloc: Global) -> Result<Rest, Memory> {
        let tree = self.tree().share()?;
        Ok(Rest::of(Elements::Values(Series::of_list(tree))))
    }

    fn version(&self) -> u64 {
        0
    }
}

impl<O: Order<Val>> Walked for SortedMap<Val, Val, O> {
    ghost elements = { λ m. pairs_in_order m.pairs };

    ghost changes = { λ _. 0 };

    fn rest(&mut self, _alloc: Global) -> Result<Rest, Memory> {
        let tree = self.tree().share()?;
        Ok(Rest::of(Elements::Pairs(Series::of_list(tree))))
    }

    fn version(&self) -> u64 {
        0
    }
}

impl<H: HashEq<Val>> Walked for ImmHashSet<Val, H> {
    ghost elements = { λ set. values_by_hash (H.hash set.eq) set.items };

    ghost changes = { λ _. 0 };

    fn rest(&mut self, _alloc: Global) -> Result<Rest, Memory> {
        let elements = self.elements();
        // (for the proof alone: how the elements are kept)
        let _count = elements.count();
        let series = Series::of_hashed(elements)?;
        Ok(Rest::of(Elements::Values(series)))
    }

    fn version(&self) -> u64 {
        0
    }
}

impl<H: HashEq<Val>> Walked for Dict<Val, Val, H> {
    ghost elements = { λ m. pairs_by_hash (H.hash m.eq) m.pairs };

    ghost changes = { λ _. 0 };

    fn rest(&mut self, _alloc: Global) -> Result<Rest, Memory> {
        // (for the proof alone: how the pairs are kept)
        let _map = self.count();
        let elements = self.elements();
        let _set = elements.count();
        let series = Series::of_hashed(elements)?;
        Ok(Rest::of(Elements::Pairs(series)))
    }

    fn version(&self) -> u64 {
        0
    }
}
