// Questions about a set.
ghost use Rattle.std.specs.Prelude.{◌≡◌, ◌-◌, ◌≤◌, length, slice_get, Some, MatchResult};
ghost use Rattle.std.specs.Option.{option_copied};
ghost use Rattle.std.specs.Ordering.{eq_by_cmp};
ghost use Rattle.imm_base.specs.Lists.{search_place};
ghost use Rattle.imm_base.specs.Sets.{has, same_in};
ghost use Rattle.sorted_sets.specs.Placed.{IsAbsentAt, IsAt};

use crate::set::SortedSet;
use imm_base::{Item, Order, SetFault};

impl<T: Item, O: Order<T>> SortedSet<T, O> {
    /// The element at `index`. O(log n).
    pub fn get(&self, index: u32) -> Result<&T, SetFault>
        ensures { MatchResult result (λ x. slice_get self.now.items index ≡ Some x.now)
            (λ fault. (fault ≡ SetFault.OutOfRange index (length self.now.items)) ×
            (length self.now.items ≤ index)) }
    {
        match self.tree().at(index) {
            Some(value) => Ok(value),
            None => Err(SetFault::OutOfRange {
                index,
                count: self.count(),
            }),
        }
    }

    // The place of the element that is the same, or the place that the value would have.
    pub(crate) fn search(&self, value: &T) -> Result<u32, u32>
        ensures { MatchResult result (λ i. IsAt (O.order self.now.order) value.now self.now.items i)
            (λ i. IsAbsentAt (O.order self.now.order) value.now self.now.items i) }
    {
        self.tree().search_by(value, &self.order())
    }

    /// Whether an element is the same as the value. O(log n).
    pub fn contains(&self, value: &T) -> bool
        ensures { result ≡ has (eq_by_cmp (O.order self.now.order)) value.now self.now.items }
    {
        self.search(value).is_ok()
    }

    /// The element that is the same as the value, in its own spelling. O(log n).
    pub fn actual(&self, value: &T) -> Option<&T>
        ensures { option_copied result ≡ same_in
            (eq_by_cmp (O.order self.now.order)) value.now self.now.items }
    {
        match self.search(value) {
            Ok(place) => self.tree().at(place),
            Err(_) => None,
        }
    }

    /// The place of the element that is the same as the value, or `-k - 1` where there is none and
    /// `k` elements are less. O(log n).
    pub fn index_of(&self, value: &T) -> i64
        ensures { result ≡ search_place (O.order self.now.order) value.now self.now.items }
    {
        match self.search(value) {
            Ok(place) => i64::from(place),
            Err(place) => -1 - i64::from(place),
        }
    }

    /// The first element. O(log n).
    pub fn min(&self) -> Option<&T>
        ensures { option_copied result ≡ slice_get self.now.items 0 }
    {
        self.tree().first()
    }

    /// The last element. O(log n).
    pub fn max(&self) -> Option<&T>
        ensures { option_copied result ≡ slice_get self.now.items (length self.now.items - 1) }
    {
        self.tree().last()
    }
}
