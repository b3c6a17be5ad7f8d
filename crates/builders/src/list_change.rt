// The changes of a list's builder as values.
use crate::laws::Builder;
use crate::list::ListBuilder;
use imm_base::{Item, Memory, Order, Step, Test};
use imm_list::{ImmList, ListFault};
use std::alloc::Global;

/// A changing call of a list's builder, with its arguments.
#[derive(Drop)]
pub enum ListChange<T, Q, O> {
    Add(T),
    AddRange(Vec<T>),
    Insert { index: u32, value: T },
    InsertRange { index: u32, values: Vec<T> },
    RemoveAt { index: u32 },
    RemoveRange { index: u32, count: u32 },
    Remove(T),
    RemoveAll(Q),
    Replace { old: T, value: T },
    SetItem { index: u32, value: T },
    Reverse,
    Sort(O),
    Clear,
}

impl<T: Item, Q: Test<T> + Drop, O: Order<T> + Drop> Builder<ListChange<T, Q, O>>
    for ListBuilder<T> {
    type Collection = ImmList<T>;

    type Fault = ListFault;

    ghost built = { λ b. b };

    fn apply(&mut self, alloc: Global, change: ListChange<T, Q, O>) -> Result<Step, ListFault> {
        match change {
            ListChange::Add(value) => self.add(alloc, value),
            ListChange::AddRange(values) => self.add_range(alloc, values.as_slice()),
            ListChange::Insert { index, value } => self.insert(alloc, index, value),
            ListChange::InsertRange { index, values } => {
                self.insert_range(alloc, index, values.as_slice())
            }
            ListChange::RemoveAt { index } => self.remove_at(alloc, index),
            ListChange::RemoveRange { index, count } => self.remove_range(alloc, index, count),
            ListChange::Remove(value) => self.remove(alloc, &value),
            ListChange::RemoveAll(test) => self.remove_all(alloc, &test),
            ListChange::Replace { old, value } => self.replace(alloc, &old, value),
            ListChange::SetItem { index, value } => self.set_item(alloc, index, value),
            ListChange::Reverse => self.reverse(alloc),
            ListChange::Sort(order) => self.sort(alloc, &order),
            ListChange::Clear => Ok(self.clear()),
        }
    }

    fn publish(&mut self, alloc: Global) -> Result<ImmList<T>, Memory> {
        self.to_immutable(alloc)
    }
}
