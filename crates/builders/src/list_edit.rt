// Changes of one element, in place.
ghost use Rattle.imm_base.specs.Lists.{list_add, list_insert, list_remove, list_remove_at, list_replace, list_set_item};
ghost use Rattle.builders.specs.Changes.{CanCount};
ghost use Rattle.builders.specs.Lists.{Changes};

use crate::list::ListBuilder;
use imm_base::{Item, LIMIT, Step};
use imm_list::ListFault;
use std::alloc::Global;

impl<T: Item> ListBuilder<T> {
    /// Puts the value behind the elements. O(log n).
    pub fn add(&mut self, alloc: Global, value: T) -> Result<Step, ListFault>
        requires { CanCount self.old }
        ensures { Changes result (list_add value self.old.contents) self.old self.new }
    {
        let count = self.count();
        if count >= LIMIT {
            return Err(ListFault::TooLarge { count });
        }
        self.built.insert(alloc, count, value)?;
        Ok(Step::New)
    }

    /// Puts the value before the element at `index`, which may be the count. O(log n).
    pub fn insert(&mut self, alloc: Global, index: u32, value: T) -> Result<Step, ListFault>
        requires { CanCount self.old }
        ensures { Changes result (list_insert index value self.old.contents) self.old self.new }
    {
        let count = self.count();
        if index > count {
            return Err(ListFault::OutOfRange { index, count });
        }
        if count >= LIMIT {
            return Err(ListFault::TooLarge { count });
        }
        self.built.insert(alloc, index, value)?;
        Ok(Step::New)
    }

    /// Takes out the element at `index`. O(log n).
    pub fn remove_at(&mut self, alloc: Global, index: u32) -> Result<Step, ListFault>
        requires { CanCount self.old }
        ensures { Changes result (list_remove_at index self.old.contents) self.old self.new }
    {
        let count = self.count();
        if index >= count {
            return Err(ListFault::OutOfRange { index, count });
        }
        self.built.remove(alloc, index)?;
        Ok(Step::New)
    }

    /// Puts the value in place of the element at `index`. O(log n).
    pub fn set_item(&mut self, alloc: Global, index: u32, value: T) -> Result<Step, ListFault>
        requires { CanCount self.old }
        ensures { Changes result (list_set_item index value self.old.contents) self.old self.new }
    {
        let count = self.count();
        if index >= count {
            return Err(ListFault::OutOfRange { index, count });
        }
        self.built.replace(alloc, index, value)?;
        Ok(Step::New)
    }

    /// Takes out the first element that equals the value. O(n).
    pub fn remove(&mut self, alloc: Global, value: &T) -> Result<Step, ListFault>
        requires { CanCount self.old }
        ensures { Changes result (list_remove T.eq value.now self.old.contents) self.old self.new }
    {
        let Some(index) = self.index_of(value) else {
            return Ok(Step::Same);
        };
        self.built.remove(alloc, index)?;
        Ok(Step::New)
    }

    /// Puts the value in place of the first element that equals `old`. O(n).
    pub fn replace(&mut self, alloc: Global, old: &T, value: T) -> Result<Step, ListFault>
        requires { CanCount self.old }
        ensures { Changes result (list_replace T.eq old.now value self.old.contents)
            self.old self.new }
    {
        let Some(index) = self.index_of(old) else {
            return Err(ListFault::NotFound);
        };
        self.built.replace(alloc, index, value)?;
        Ok(Step::New)
    }
}
