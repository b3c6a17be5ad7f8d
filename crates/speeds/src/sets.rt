// Sorted sets and hash sets.
use crate::measured::{Measured, changed, other, sum_of_all, sum_of_walk, value_behind, value_of};
use crate::row::Row;
use imm_base::{Val, ValEq, ValOrder};
use imm_dictionary::ImmHashSet;
use sorted_sets::SortedSet;
use std::alloc::Global;

impl Measured for SortedSet<Val, ValOrder> {
    const NAME: &'static str = "sorted set";

    fn build(alloc: Global, values: &[Val]) -> Option<Self> {
        other(SortedSet::new(ValOrder::Ordinal).union_with(alloc, values))
    }

    fn call(&mut self, alloc: Global, row: Row, number: u32) -> Option<u64> {
        match row {
            Row::Add => changed(self.add(alloc, value_behind(number))),
            Row::LookUp => Some(u64::from(self.contains(&value_of(number)))),
            Row::Remove => changed(self.remove(alloc, &value_of(number))),
            Row::Iterate => sum_of_all(self.to_vec(alloc)),
            Row::Walk => sum_of_walk(alloc, self),
            _ => None,
        }
    }
}

impl Measured for ImmHashSet<Val, ValEq> {
    const NAME: &'static str = "hash set";

    fn build(alloc: Global, values: &[Val]) -> Option<Self> {
        other(ImmHashSet::new(ValEq::Ordinal).union_with(alloc, values))
    }

    fn call(&mut self, alloc: Global, row: Row, number: u32) -> Option<u64> {
        match row {
            Row::Add => changed(self.add(alloc, value_behind(number))),
            Row::LookUp => Some(u64::from(self.contains(&value_of(number)))),
            Row::Remove => changed(self.remove(alloc, &value_of(number))),
            Row::Iterate => sum_of_all(self.to_vec(alloc)),
            Row::Walk => sum_of_walk(alloc, self),
            _ => None,
        }
    }
}
