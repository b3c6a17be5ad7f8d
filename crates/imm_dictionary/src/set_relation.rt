// How a set stands to some values.
ghost use Rattle.std.specs.Prelude.{◌≡◌, IfOk};
ghost use Rattle.std.specs.List.{list_any};
ghost use Rattle.imm_base.specs.Sets.{has, is_subset, overlaps, relation};

use crate::set::ImmHashSet;
use imm_base::{HashEq, Key, Memory, SetTest};
use std::alloc::Global;

impl<T: Key, H: HashEq<T>> ImmHashSet<T, H> {
    /// Whether the set stands so to the set of the values. For m values it costs no more than m calls of
    /// `remove` do.
    pub fn relation(&self, alloc: Global, which: SetTest, values: &[T]) -> Result<bool, Memory>
        ensures { IfOk result (λ stands. stands ≡ relation (H.same self.now.eq) which values.now
            self.now.items) }
    {
        match which {
            SetTest::Subset => self.is_subset(alloc, values),
            SetTest::Superset => Ok(self.is_superset(values)),
            SetTest::ProperSubset => {
                Ok(self.is_subset(alloc, values)? && !self.is_superset(values))
            }
            SetTest::ProperSuperset => {
                Ok(!self.is_subset(alloc, values)? && self.is_superset(values))
            }
            SetTest::Overlaps => Ok(self.overlaps(values)),
            SetTest::SetEquals => Ok(self.is_subset(alloc, values)? && self.is_superset(values)),
        }
    }

    // Whether each element is same to one of the values.
    fn is_subset(&self, alloc: Global, values: &[T]) -> Result<bool, Memory>
        ensures { IfOk result (λ is. is ≡ is_subset (H.same self.now.eq) self.now.items
            values.now) }
    {
        let others = self.without(alloc, values)?;
        Ok(others.count() == 0)
    }

    // Whether each of the values is same to an element.
    fn is_superset(&self, values: &[T]) -> bool
        ensures { result ≡ is_subset (H.same self.now.eq) values.now self.now.items }
    {
        values.iter().all(|value| self.contains(value))
    }

    // Whether some element is same to one of the values.
    fn overlaps(&self, values: &[T]) -> bool
        ensures { result ≡ overlaps (H.same self.now.eq) self.now.items values.now }
    {
        self.contains_any(values)
    }

    // Whether one of the values is same to an element.
    fn contains_any(&self, values: &[T]) -> bool
        ensures { result ≡ list_any (λ value. has (H.same self.now.eq) value self.now.items)
            values.now }
    {
        values.iter().any(|value| self.contains(value))
    }
}
