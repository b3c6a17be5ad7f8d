// Lists and arrays.
use crate::measured::{Measured, changed, sum_of, sum_of_all, sum_of_walk, value_behind};
use crate::row::Row;
use imm_array::ImmArray;
use imm_base::Val;
use imm_list::ImmList;
use std::alloc::Global;

impl Measured for ImmList<Val> {
    const NAME: &'static str = "list";

    fn build(alloc: Global, values: &[Val]) -> Option<Self> {
        ImmList::from_slice(alloc, values).ok()
    }

    fn call(&mut self, alloc: Global, row: Row, number: u32) -> Option<u64> {
        match row {
            Row::Add => changed(self.add(alloc, value_behind(number))),
            Row::LookUp => Some(u64::from(self.get(number).is_ok())),
            Row::Remove => changed(self.remove_at(alloc, number)),
            Row::Set => changed(self.set_item(alloc, number, value_behind(number))),
            Row::Iterate => sum_of_all(self.to_vec(alloc)),
            Row::Walk => sum_of_walk(alloc, self),
            _ => None,
        }
    }
}

impl Measured for ImmArray<Val> {
    const NAME: &'static str = "array";

    fn build(alloc: Global, values: &[Val]) -> Option<Self> {
        ImmArray::from_slice(alloc, values).ok()
    }

    fn call(&mut self, alloc: Global, row: Row, number: u32) -> Option<u64> {
        match row {
            Row::Add => changed(self.add(alloc, value_behind(number))),
            Row::LookUp => Some(u64::from(self.get(number).is_ok())),
            Row::Remove => changed(self.remove_at(alloc, number)),
            Row::Set => changed(self.set_item(alloc, number, value_behind(number))),
            Row::Iterate => Some(sum_of(self.as_slice())),
            _ => None,
        }
    }
}
