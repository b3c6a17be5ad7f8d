// The builder of arrays.
ghost use Rattle.std.specs.Prelude.{◌≡◌, ◌≢◌, ◌≤◌, Ok, None, Some, IfErr, IfOk, MatchResult, length, slice_get};
ghost use Rattle.imm_base.specs.Lists.{clear, list_add, list_add_range, list_insert, list_remove_at, list_set_item};
ghost use Rattle.imm_base.specs.Arrays.{new_array_builder, capacity_for, emptied_builder};
ghost use Rattle.imm_array.specs.Capacity.{Changes, IsFault, capacity_fault, move_fault};

use crate::array::ImmArray;
use crate::copies::copied;
use crate::fault::ArrayFault;
use imm_base::{Item, LIMIT, Memory, Step};
use std::alloc::Global;
use std::marker::Model;
use std::mem;

/// An array that is built in place: contracts see its elements and its capacity, a number that is at
/// least the count and at most `LIMIT`. A refused call, and one without memory, leaves both as they were.
#[derive(Drop)]
pub struct ArrayBuilder<T> {
    items: Vec<T>,
    capacity: u32,
    alloc: Global,
}

impl<T> Model for ArrayBuilder<T> {
    ghost use Rattle.std.specs.Prelude.{◌≤◌, vec_len};
    ghost use Rattle.imm_base.specs.declared.TheConstants.{LIMIT};
    ghost use Rattle.imm_base.specs.Arrays.{ArrayBuilt};

    ghost Value = { ArrayBuilt T };

    ghost view = { λ a. record { contents = a.items.items; capacity = a.capacity } };

    ghost invariant = { λ a. (vec_len a.items ≤ a.capacity) × (a.capacity ≤ LIMIT) };
}

impl<T> ArrayBuilder<T> {
    /// How many elements there are. O(1).
    pub fn count(&self) -> u32
        ensures count { result ≡ length self.now.contents }
        ensures room { length self.now.contents ≤ self.now.capacity }
    {
        self.items.len() as u32
    }

    /// For how many elements there is room before the capacity grows. O(1).
    pub fn capacity(&self) -> u32
        ensures capacity { result ≡ self.now.capacity }
        ensures limit { self.now.capacity ≤ LIMIT }
    {
        self.capacity
    }

    /// The element at `index`. O(1).
    pub fn get(&self, index: u32) -> Result<&T, ArrayFault>
        ensures { MatchResult result (λ value. slice_get self.now.contents index ≡ Some value.now) (λ fault. (fault ≡ ArrayFault.OutOfRange index (length self.now.contents)) × (length self.now.contents ≤ index)) }
    {
        let count = self.count();
        if index >= count {
            return Err(ArrayFault::OutOfRange { index, count });
        }
        Ok(&self.items[index as usize])
    }

    // The capacity of a builder with so many elements.
    fn capacity_for(&self, needed: u32) -> u32
        requires { needed ≤ LIMIT }
        ensures capacity { result ≡ capacity_for needed self.now.capacity }
        ensures room { needed ≤ result }
        ensures limit { result ≤ LIMIT }
    {
        if needed <= self.capacity {
            self.capacity
        } else {
            LIMIT.min((2 * self.capacity).max(needed))
        }
    }

    // Takes memory for so many elements. What contracts see stays as it was.
    fn reserve(&mut self, capacity: u32) -> Result<(), Memory>
        ensures { self.new ≡ self.old }
    {
        let count = self.items.len();
        if capacity as usize > count {
            self.items.reserve(capacity as usize - count)?;
        }
        Ok(())
    }
}

impl<T: Item> ArrayBuilder<T> {
    /// A builder of copies of the elements. Its capacity is the count. O(n).
    pub fn from_array(alloc: Global, array: &ImmArray<T>) -> Result<ArrayBuilder<T>, Memory>
        ensures { IfOk result (λ built. built ≡ new_array_builder array.now) }
    {
        let capacity = array.count();
        let items = array.to_vec(alloc)?;
        Ok(ArrayBuilder {
            items,
            capacity,
            alloc,
        })
    }

    /// Puts the value behind the elements. O(1) for each of many calls.
    pub fn add(&mut self, value: T) -> Result<Step, ArrayFault>
        ensures { Changes result (list_add value self.old.contents) self.old self.new }
    {
        let count = self.count();
        if count >= LIMIT {
            return Err(ArrayFault::TooLarge { count });
        }
        let capacity = self.capacity_for(count + 1);
        self.reserve(capacity)?;
        if self.items.push(value).is_err() {
            return Err(ArrayFault::Memory);
        }
        self.capacity = capacity;
        Ok(Step::New)
    }

    /// Puts copies of the values behind the elements. O(m) for each of many calls.
    pub fn add_range(&mut self, values: &[T]) -> Result<Step, ArrayFault>
        ensures { Changes result (list_add_range values.now self.old.contents) self.old self.new }
    {
        let count = self.count();
        if values.len() > (LIMIT - count) as usize {
            return Err(ArrayFault::TooLarge { count });
        }
        if values.is_empty() {
            return Ok(Step::Same);
        }
        let capacity = self.capacity_for(count + values.len() as u32);
        let mut copies = copied(self.alloc, values, 0)?;
        self.reserve(capacity)?;
        if self.items.append(&mut copies).is_err() {
            return Err(ArrayFault::Memory);
        }
        self.capacity = capacity;
        Ok(Step::New)
    }

    /// Puts the value before the element at `index`, which may be the count. O(n).
    pub fn insert(&mut self, index: u32, value: T) -> Result<Step, ArrayFault>
        ensures { Changes result (list_insert index value self.old.contents) self.old self.new }
    {
        let count = self.count();
        if index > count {
            return Err(ArrayFault::OutOfRange { index, count });
        }
        if count >= LIMIT {
            return Err(ArrayFault::TooLarge { count });
        }
        let capacity = self.capacity_for(count + 1);
        self.reserve(capacity)?;
        if self.items.insert(index as usize, value).is_err() {
            return Err(ArrayFault::Memory);
        }
        self.capacity = capacity;
        Ok(Step::New)
    }

    /// Takes out the element at `index`. It takes no memory. O(n).
    pub fn remove_at(&mut self, index: u32) -> Result<Step, ArrayFault>
        ensures change { Changes result (list_remove_at index self.old.contents) self.old self.new }
        ensures memory { IfErr result (λ fault. fault ≢ ArrayFault.Memory) }
    {
        let count = self.count();
        if index >= count {
            return Err(ArrayFault::OutOfRange { index, count });
        }
        let _removed = self.items.remove(index as usize);
        Ok(Step::New)
    }

    /// Puts the value in place of the element at `index`. It takes no memory. O(1).
    pub fn set_item(&mut self, index: u32, value: T) -> Result<Step, ArrayFault>
        ensures change { Changes result (list_set_item index value self.old.contents) self.old self.new }
        ensures memory { IfErr result (λ fault. fault ≢ ArrayFault.Memory) }
    {
        let count = self.count();
        if index >= count {
            return Err(ArrayFault::OutOfRange { index, count });
        }
        self.items[index as usize] = value;
        Ok(Step::New)
    }

    /// Takes out all elements. The capacity stays. O(n).
    pub fn clear(&mut self) -> Step
        ensures { Changes (Ok result) (clear self.old.contents) self.old self.new }
    {
        if self.count() == 0 {
            return Step::Same;
        }
        self.items.clear();
        Step::New
    }

    /// Sets the capacity. It is refused below the count, and then above `LIMIT`. O(n).
    pub fn set_capacity(&mut self, wanted: u32) -> Result<(), ArrayFault>
        ensures done { IfOk result (λ _. (capacity_fault wanted self.old ≡ None) × (self.new ≡ record self.old { capacity = wanted })) }
        ensures refused { IfErr result (λ fault. IsFault fault (capacity_fault wanted self.old) × (self.new ≡ self.old)) }
    {
        let count = self.count();
        if wanted < count {
            return Err(ArrayFault::CapacityTooSmall { count, wanted });
        }
        if wanted > LIMIT {
            return Err(ArrayFault::TooLarge { count });
        }
        self.reserve(wanted)?;
        self.capacity = wanted;
        Ok(())
    }

    /// An array of copies of the elements. O(n).
    pub fn to_immutable(&self) -> Result<ImmArray<T>, Memory>
        ensures { IfOk result (λ array. array ≡ self.now.contents) }
    {
        let _capacity = self.capacity();
        let copies = copied(self.alloc, self.items.as_slice(), 0)?;
        Ok(ImmArray::of_vec(self.alloc, copies)?)
    }

    /// Moves the elements into an array, and leaves the count and the capacity 0. It is refused where
    /// the count is not the capacity. O(1).
    pub fn move_to_immutable(&mut self) -> Result<ImmArray<T>, ArrayFault>
        ensures done { IfOk result (λ array. (move_fault self.old ≡ None) × (array ≡ self.old.contents) × (self.new ≡ emptied_builder)) }
        ensures refused { IfErr result (λ fault. IsFault fault (move_fault self.old) × (self.new ≡ self.old)) }
    {
        let (count, capacity) = (self.count(), self.capacity());
        if count != capacity {
            return Err(ArrayFault::NotFull { count, capacity });
        }
        match self.drain_to_immutable() {
            Ok(array) => Ok(array),
            Err(Memory) => Err(ArrayFault::Memory),
        }
    }

    /// Moves the elements into an array, and leaves the count and the capacity 0. O(1).
    pub fn drain_to_immutable(&mut self) -> Result<ImmArray<T>, Memory>
        ensures done { IfOk result (λ array. (array ≡ self.old.contents) × (self.new ≡ emptied_builder)) }
        ensures memory { IfErr result (λ _. self.new ≡ self.old) }
    {
        let items = mem::replace(&mut self.items, Vec::new(self.alloc));
        match ImmArray::of_vec(self.alloc, items) {
            Ok(array) => {
                self.capacity = 0;
                Ok(array)
            }
            Err(failed) => {
                self.items = failed.value;
                Err(Memory)
            }
        }
    }
}
