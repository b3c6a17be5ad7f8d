// Changes of many elements. Each publishes the list, and takes what the list's own call gives.
ghost use Rattle.imm_base.specs.Lists.{list_add_range, list_insert_range, list_remove_all, list_remove_range, list_reverse};
ghost use Rattle.builders.specs.Changes.{CanCount};
ghost use Rattle.builders.specs.Lists.{Changes};

use crate::list::ListBuilder;
use imm_base::{Item, Step, Test};
use imm_list::ListFault;
use std::alloc::Global;

impl<T: Item> ListBuilder<T> {
    /// Puts copies of the values behind the elements. O(m + log n) for m values, besides what
    /// `to_immutable` takes.
    pub fn add_range(&mut self, alloc: Global, values: &[T]) -> Result<Step, ListFault>
        requires { CanCount self.old }
        ensures { Changes result (list_add_range values.now self.old.contents) self.old self.new }
    {
        let edit = self.to_immutable(alloc)?.add_range(alloc, values)?;
        Ok(self.adopt(edit)?)
    }

    /// Puts copies of the values before the element at `index`, which may be the count. O(m + log
    /// n) for m values, besides what `to_immutable` takes.
    pub fn insert_range(
        &mut self,
        alloc: Global,
        index: u32,
        values: &[T],
    ) -> Result<Step, ListFault>
        requires { CanCount self.old }
        ensures { Changes result (list_insert_range index values.now self.old.contents)
            self.old self.new }
    {
        let edit = self
            .to_immutable(alloc)?
            .insert_range(alloc, index, values)?;
        Ok(self.adopt(edit)?)
    }

    /// Takes out the `count` elements from `index` on. O(log n), besides what `to_immutable` takes.
    pub fn remove_range(&mut self, alloc: Global, index: u32, count: u32) -> Result<Step, ListFault>
        requires { CanCount self.old }
        ensures { Changes result (list_remove_range index count self.old.contents)
            self.old self.new }
    {
        let edit = self.to_immutable(alloc)?.remove_range(alloc, index, count)?;
        Ok(self.adopt(edit)?)
    }

    /// Takes out the elements that pass the test. O(n).
    pub fn remove_all<Q: Test<T>>(&mut self, alloc: Global, test: &Q) -> Result<Step, ListFault>
        requires { CanCount self.old }
        ensures { Changes result (list_remove_all (Q.passes test.now) self.old.contents)
            self.old self.new }
    {
        let edit = self.to_immutable(alloc)?.remove_all(alloc, test)?;
        Ok(self.adopt(edit)?)
    }

    /// Turns the list round. O(n).
    pub fn reverse(&mut self, alloc: Global) -> Result<Step, ListFault>
        requires { CanCount self.old }
        ensures { Changes result (list_reverse self.old.contents) self.old self.new }
    {
        let edit = self.to_immutable(alloc)?.reverse(alloc)?;
        Ok(self.adopt(edit)?)
    }
}
