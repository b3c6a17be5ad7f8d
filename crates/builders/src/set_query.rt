// Questions about a set that is built.
ghost use Rattle.std.specs.Prelude.{◌≡◌, ◌-◌, ◌≤◌, length, slice_get, Some, IfOk, MatchResult};
ghost use Rattle.std.specs.Option.{option_copied};
ghost use Rattle.std.specs.Ordering.{eq_by_cmp};
ghost use Rattle.imm_base.specs.Lists.{search_place};
ghost use Rattle.imm_base.specs.Sets.{has, relation, same_in};
ghost use Rattle.sorted_sets.specs.Placed.{IsAbsentAt, IsAt};

use crate::set::SetBuilder;
use avl_node::Tree;
use imm_base::{Item, Memory, Order, SetFault, SetTest};
use sorted_sets::SortedSet;
use std::alloc::Global;

impl<T: Item, O: Order<T>> SetBuilder<T, O> {
    /// The element at `index`. O(log n).
    pub fn get(&self, index: u32) -> Result<&T, SetFault>
        ensures { MatchResult result (λ x. slice_get self.now.contents.items index ≡ Some x.now)
            (λ fault. (fault ≡ SetFault.OutOfRange index (length self.now.contents.items)) ×
            (length self.now.contents.items ≤ index)) }
    {
        match self.link().at(index) {
            Some(value) => Ok(value),
            None => Err(SetFault::OutOfRange {
                index,
                count: self.count(),
            }),
        }
    }

    // The place of the element that is the same, or the place that the value would have.
    pub(crate) fn search(&self, value: &T) -> Result<u32, u32>
        ensures { MatchResult result
            (IsAt (O.order self.now.contents.order) value.now self.now.contents.items)
            (IsAbsentAt (O.order self.now.contents.order) value.now self.now.contents.items) }
    {
        self.link().search_by(value, &self.order())
    }

    /// Whether an element is the same as the value. O(log n).
    pub fn contains(&self, value: &T) -> bool
        ensures { result ≡ has
            (eq_by_cmp (O.order self.now.contents.order)) value.now self.now.contents.items }
    {
        self.search(value).is_ok()
    }

    /// The element that is the same as the value, in its own spelling. O(log n).
    pub fn actual(&self, value: &T) -> Option<&T>
        ensures { option_copied result ≡ same_in
            (eq_by_cmp (O.order self.now.contents.order)) value.now self.now.contents.items }
    {
        match self.search(value) {
            Ok(place) => self.link().at(place),
            Err(_) => None,
        }
    }

    /// The place of the element that is the same as the value, or `-k - 1` where there is none and
    /// `k` elements are less. O(log n).
    pub fn index_of(&self, value: &T) -> i64
        ensures { result ≡ search_place
            (O.order self.now.contents.order) value.now self.now.contents.items }
    {
        match self.search(value) {
            Ok(place) => i64::from(place),
            Err(place) => -1 - i64::from(place),
        }
    }

    /// The first element. O(log n).
    pub fn min(&self) -> Option<&T>
        ensures { option_copied result ≡ slice_get self.now.contents.items 0 }
    {
        self.link().first()
    }

    /// The last element. O(log n).
    pub fn max(&self) -> Option<&T>
        ensures { option_copied result ≡ slice_get
            self.now.contents.items (length self.now.contents.items - 1) }
    {
        self.link().last()
    }

    /// Whether the set stands so to the set of the values. O(n + m log n) for m values.
    pub fn relation(&self, alloc: Global, which: SetTest, values: &[T]) -> Result<bool, Memory>
        ensures { IfOk result (λ stands. stands ≡ relation
            (eq_by_cmp (O.order self.now.contents.order)) which values.now
            self.now.contents.items) }
    {
        self.copied(alloc)?.relation(alloc, which, values)
    }

    // A set of copies of the elements.
    fn copied(&self, alloc: Global) -> Result<SortedSet<T, O>, Memory>
        ensures { IfOk result (λ set. set ≡ self.now.contents) }
    {
        // (for the proof alone: that the count fits 32 bits, and that the elements rise)
        let link = self.link();
        let _count = link.count();
        let values = link.to_vec(alloc)?;
        let tree = Tree::of_slice(alloc, values.as_slice())?;
        Ok(SortedSet::of_tree(tree, self.order()))
    }
}
