// Changes of a set that is built: of one element in place, and of many by the set's own calls.
ghost use Rattle.std.specs.Ordering.{eq_by_cmp};
ghost use Rattle.imm_base.specs.Sets.{set_add, set_except, set_intersect, set_remove, set_symmetric_except, set_union};
ghost use Rattle.builders.specs.Changes.{CanCount};
ghost use Rattle.builders.specs.Sets.{Changes};

use crate::set::SetBuilder;
use imm_base::{Item, Key, LIMIT, Order, SetFault, Step};
use std::alloc::Global;

impl<T: Item, O: Order<T>> SetBuilder<T, O> {
    /// Puts the value in its place. A same element that is present stays as it is spelled. O(log
    /// n).
    pub fn add(&mut self, alloc: Global, value: T) -> Result<Step, SetFault>
        requires { CanCount self.old }
        ensures { Changes self.old.contents.order result
            (set_add (O.order self.old.contents.order)
            (eq_by_cmp (O.order self.old.contents.order)) value self.old.contents.items)
            self.old self.new }
    {
        let Err(place) = self.search(&value) else {
            return Ok(Step::Same);
        };
        let count = self.count();
        if count >= LIMIT {
            return Err(SetFault::TooLarge { count });
        }
        self.insert(alloc, place, value)?;
        Ok(Step::New)
    }

    /// Takes out the element that is the same as the value. O(log n).
    pub fn remove(&mut self, alloc: Global, value: &T) -> Result<Step, SetFault>
        requires { CanCount self.old }
        ensures { Changes self.old.contents.order result
            (set_remove (eq_by_cmp (O.order self.old.contents.order)) value.now
            self.old.contents.items)
            self.old self.new }
    {
        let Ok(place) = self.search(value) else {
            return Ok(Step::Same);
        };
        self.remove_at(alloc, place)?;
        Ok(Step::New)
    }
}

impl<T: Key, O: Order<T>> SetBuilder<T, O> {
    /// Puts in each of the values that is absent. Of same ones it takes the first. O(m log n) for m
    /// values, besides what `to_immutable` takes.
    pub fn union_with(&mut self, alloc: Global, values: &[T]) -> Result<Step, SetFault>
        requires { CanCount self.old }
        ensures { Changes self.old.contents.order result
            (set_union T.eq (O.order self.old.contents.order)
            (eq_by_cmp (O.order self.old.contents.order)) values.now self.old.contents.items)
            self.old self.new }
    {
        let edit = self.to_immutable(alloc)?.union_with(alloc, values)?;
        Ok(self.adopt(edit)?)
    }

    /// Takes out the elements that are the same as none of the values. O(m log n) for m values,
    /// besides what `to_immutable` takes.
    pub fn intersect_with(&mut self, alloc: Global, values: &[T]) -> Result<Step, SetFault>
        requires { CanCount self.old }
        ensures { Changes self.old.contents.order result
            (set_intersect T.eq (eq_by_cmp (O.order self.old.contents.order)) values.now
            self.old.contents.items)
            self.old self.new }
    {
        let edit = self.to_immutable(alloc)?.intersect_with(alloc, values)?;
        Ok(self.adopt(edit)?)
    }

    /// Takes out the elements that are the same as one of the values. O(m log n) for m values,
    /// besides what `to_immutable` takes.
    pub fn except_with(&mut self, alloc: Global, values: &[T]) -> Result<Step, SetFault>
        requires { CanCount self.old }
        ensures { Changes self.old.contents.order result
            (set_except T.eq (eq_by_cmp (O.order self.old.contents.order)) values.now
            self.old.contents.items)
            self.old self.new }
    {
        let edit = self.to_immutable(alloc)?.except_with(alloc, values)?;
        Ok(self.adopt(edit)?)
    }

    /// Takes out the elements that are the same as one of the values, and puts in the values that
    /// are the same as none. Of same values it takes the first. O(m log n) for m values, besides
    /// what `to_immutable` takes.
    pub fn sym_except_with(&mut self, alloc: Global, values: &[T]) -> Result<Step, SetFault>
        requires { CanCount self.old }
        ensures { Changes self.old.contents.order result
            (set_symmetric_except T.eq (O.order self.old.contents.order)
            (eq_by_cmp (O.order self.old.contents.order)) values.now self.old.contents.items)
            self.old self.new }
    {
        let edit = self.to_immutable(alloc)?.sym_except_with(alloc, values)?;
        Ok(self.adopt(edit)?)
    }
}
