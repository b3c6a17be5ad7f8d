// Changes of one element.
ghost use Rattle.std.specs.Prelude.{◌≡◌, ◌+◌, ◌<◌, ◌≤◌, ◌^◌, length, insert, remove, IfOk};
ghost use Rattle.std.specs.Ordering.{eq_by_cmp};
ghost use Rattle.imm_base.specs.Kept.{IsSet};
ghost use Rattle.imm_base.specs.Sets.{set_add, set_remove};
ghost use Rattle.sorted_sets.specs.Answers.{Answers};

use crate::set::SortedSet;
use imm_base::{Edit, Item, LIMIT, Memory, Order, SetFault};
use std::alloc::Global;

impl<T: Item, O: Order<T>> SortedSet<T, O> {
    /// The set with the value in its place. A same element that is present stays as it is spelled.
    /// O(log n).
    pub fn add(&self, alloc: Global, value: T) -> Result<Edit<SortedSet<T, O>>, SetFault>
        ensures { Answers self.now.order result
            (set_add (O.order self.now.order)
            (eq_by_cmp (O.order self.now.order)) value self.now.items) }
    {
        let Err(place) = self.search(&value) else {
            return Ok(Edit::Same);
        };
        let count = self.count();
        if count >= LIMIT {
            return Err(SetFault::TooLarge { count });
        }
        let set = self.inserted(alloc, place, value)?;
        Ok(Edit::New(set))
    }

    /// The set without the element that is the same as the value. O(log n).
    pub fn remove(&self, alloc: Global, value: &T) -> Result<Edit<SortedSet<T, O>>, SetFault>
        ensures { Answers self.now.order result
            (set_remove (eq_by_cmp (O.order self.now.order)) value.now self.now.items) }
    {
        let Ok(place) = self.search(value) else {
            return Ok(Edit::Same);
        };
        let set = self.removed(alloc, place)?;
        Ok(Edit::New(set))
    }

    // The set with the value before the element at the place.
    pub(crate) fn inserted(
        &self,
        alloc: Global,
        place: u32,
        value: T,
    ) -> Result<SortedSet<T, O>, Memory>
        requires in_range { place ≤ length self.now.items }
        requires count_fits { length self.now.items + 1 < 2 ^ 32 }
        requires set { IsSet (O.order self.now.order) (eq_by_cmp (O.order self.now.order))
            (insert self.now.items place value) }
        ensures items { IfOk result (λ set. set.items ≡ insert self.now.items place value) }
        ensures order { IfOk result (λ set. set.order ≡ self.now.order) }
    {
        let tree = self.tree().inserted(alloc, place, value)?;
        Ok(SortedSet::of_tree(tree, self.order()))
    }

    // The set without the element at the place.
    pub(crate) fn removed(&self, alloc: Global, place: u32) -> Result<SortedSet<T, O>, Memory>
        requires in_range { place < length self.now.items }
        requires set { IsSet (O.order self.now.order) (eq_by_cmp (O.order self.now.order))
            (remove self.now.items place) }
        ensures items { IfOk result (λ set. set.items ≡ remove self.now.items place) }
        ensures order { IfOk result (λ set. set.order ≡ self.now.order) }
    {
        // (for the proof alone: that the count fits 32 bits)
        let _count = self.count();
        let tree = self.tree().removed(alloc, place)?;
        Ok(SortedSet::of_tree(tree, self.order()))
    }
}
