// The changes of the builders of sets as values.
use crate::hash_set::HashSetBuilder;
use crate::laws::Builder;
use crate::set::SetBuilder;
use imm_base::{HashEq, Key, Memory, Order, SetFault, Step};
use imm_dictionary::ImmHashSet;
use sorted_sets::SortedSet;
use std::alloc::Global;

/// A changing call of a set's builder, with its arguments.
#[derive(Drop)]
pub enum SetChange<T> {
    Add(T),
    Remove(T),
    UnionWith(Vec<T>),
    IntersectWith(Vec<T>),
    ExceptWith(Vec<T>),
    SymExceptWith(Vec<T>),
    Clear,
}

impl<T: Key, O: Order<T>> Builder<SetChange<T>> for SetBuilder<T, O> {
    type Collection = SortedSet<T, O>;

    type Fault = SetFault;

    ghost built = { λ b. b };

    fn apply(&mut self, alloc: Global, change: SetChange<T>) -> Result<Step, SetFault> {
        match change {
            SetChange::Add(value) => self.add(alloc, value),
            SetChange::Remove(value) => self.remove(alloc, &value),
            SetChange::UnionWith(values) => self.union_with(alloc, values.as_slice()),
            SetChange::IntersectWith(values) => self.intersect_with(alloc, values.as_slice()),
            SetChange::ExceptWith(values) => self.except_with(alloc, values.as_slice()),
            SetChange::SymExceptWith(values) => self.sym_except_with(alloc, values.as_slice()),
            SetChange::Clear => Ok(self.clear()),
        }
    }

    fn publish(&mut self, alloc: Global) -> Result<SortedSet<T, O>, Memory> {
        self.to_immutable(alloc)
    }
}

impl<T: Key, H: HashEq<T>> Builder<SetChange<T>> for HashSetBuilder<T, H> {
    type Collection = ImmHashSet<T, H>;

    type Fault = SetFault;

    ghost built = { λ b. b };

    fn apply(&mut self, alloc: Global, change: SetChange<T>) -> Result<Step, SetFault> {
        match change {
            SetChange::Add(value) => self.add(alloc, value),
            SetChange::Remove(value) => self.remove(alloc, &value),
            SetChange::UnionWith(values) => self.union_with(alloc, values.as_slice()),
            SetChange::IntersectWith(values) => self.intersect_with(alloc, values.as_slice()),
            SetChange::ExceptWith(values) => self.except_with(alloc, values.as_slice()),
            SetChange::SymExceptWith(values) => self.sym_except_with(alloc, values.as_slice()),
            SetChange::Clear => Ok(self.clear()),
        }
    }

    fn publish(&mut self, _alloc: Global) -> Result<ImmHashSet<T, H>, Memory> {
        self.to_immutable()
    }
}
