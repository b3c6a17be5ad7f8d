// Sorted maps, dictionaries and frozen maps.
use crate::measured::{Measured, changed, other, sum_of_all, sum_of_walk, value_behind, value_of};
use crate::row::Row;
use frozen_sets::FrozenMap;
use imm_base::{LIMIT, Memory, Val, ValEq, ValOrder};
use imm_dictionary::Dict;
use sorted_maps::SortedMap;
use std::alloc::Global;

// Each value as a key with itself.
fn pairs_of(alloc: Global, values: &[Val]) -> Result<Vec<(Val, Val)>, Memory> {
    let mut pairs = Vec::new(alloc);
    for value in values {
        pairs.push((*value, *value))?;
    }
    Ok(pairs)
}

impl Measured for SortedMap<Val, Val, ValOrder> {
    const NAME: &'static str = "sorted map";

    fn build(alloc: Global, values: &[Val]) -> Option<Self> {
        let pairs = pairs_of(alloc, values).ok()?;
        other(SortedMap::new(ValOrder::Ordinal).set_items(alloc, pairs.as_slice()))
    }

    fn call(&mut self, alloc: Global, row: Row, number: u32) -> Option<u64> {
        match row {
            Row::Add => changed(self.add(alloc, value_behind(number), value_behind(number))),
            Row::LookUp => Some(u64::from(self.get(&value_of(number)).is_some())),
            Row::Remove => changed(self.remove(alloc, &value_of(number))),
            Row::Set => changed(self.set_item(alloc, value_of(number), value_behind(number))),
            Row::Iterate => sum_of_all(self.keys(alloc)),
            Row::Walk => sum_of_walk(alloc, self),
            _ => None,
        }
    }
}

impl Measured for Dict<Val, Val, ValEq> {
    const NAME: &'static str = "dictionary";

    fn build(alloc: Global, values: &[Val]) -> Option<Self> {
        let pairs = pairs_of(alloc, values).ok()?;
        other(Dict::new(ValEq::Ordinal).set_items(alloc, pairs.as_slice()))
    }

    fn call(&mut self, alloc: Global, row: Row, number: u32) -> Option<u64> {
        match row {
            Row::Add => changed(self.add(alloc, value_behind(number), value_behind(number))),
            Row::LookUp => Some(u64::from(self.get(&value_of(number)).is_some())),
            Row::Remove => changed(self.remove(alloc, &value_of(number))),
            Row::Set => changed(self.set_item(alloc, value_of(number), value_behind(number))),
            Row::Iterate => sum_of_all(self.keys(alloc)),
            Row::Walk => sum_of_walk(alloc, self),
            _ => None,
        }
    }
}

impl Measured for FrozenMap<Val> {
    const NAME: &'static str = "frozen map";

    fn build(alloc: Global, values: &[Val]) -> Option<Self> {
        let pairs = pairs_of(alloc, values).ok()?;
        if pairs.len() > LIMIT as usize {
            return None;
        }
        FrozenMap::from_list(alloc, pairs.as_slice(), ValEq::Ordinal).ok()
    }

    fn call(&mut self, alloc: Global, row: Row, number: u32) -> Option<u64> {
        match row {
            Row::LookUp => Some(u64::from(self.get(&value_of(number)).is_some())),
            Row::Iterate => sum_of_all(self.keys(alloc)),
            _ => None,
        }
    }
}
