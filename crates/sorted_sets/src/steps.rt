// Many elements, one after another.
ghost use Rattle.std.specs.Prelude.{◌≡◌, ◌<◌, ◌≤◌, ◌∷◌, [], length, IfOk, MatchOption};
ghost use Rattle.std.specs.Ordering.{eq_by_cmp};
ghost use Rattle.imm_base.specs.Sets.{difference, intersection, union, with_element};
ghost use Rattle.sorted_sets.specs.InCommon.{with_same};
ghost use Rattle.sorted_sets.specs.Ordered.{kept};

use crate::set::SortedSet;
use imm_base::{Item, Memory, Order};
use std::alloc::Global;

impl<T: Item, O: Order<T>> SortedSet<T, O> {
    // The set with each of the values that is absent, the first of same ones, or nothing where it
    // would have more than `most` elements.
    pub(crate) fn with_all(
        self,
        alloc: Global,
        values: &[T],
        most: u32,
    ) -> Result<Option<SortedSet<T, O>>, Memory>
        ensures { IfOk result
            (λ o. MatchOption o
            (most < length
            (union (O.order self.order) (eq_by_cmp (O.order self.order)) self.items values.now))
            (λ set.
            (set ≡ kept self.order
            (union (O.order self.order) (eq_by_cmp (O.order self.order)) self.items values.now)) ×
            (length set.items ≤ most))) }
    {
        let mut set = self;
        for value in values {
            let Some(more) = set.with(alloc, value, most)? else {
                return Ok(None);
            };
            set = more;
        }
        if set.count() > most {
            return Ok(None);
        }
        Ok(Some(set))
    }

    // The set with the value, where it is absent, or nothing where there would be more than `most`
    // elements then.
    fn with(self, alloc: Global, value: &T, most: u32) -> Result<Option<SortedSet<T, O>>, Memory>
        ensures { IfOk result
            (λ o. MatchOption o
            (most < length
            (with_element (O.order self.order)
            (eq_by_cmp (O.order self.order)) value.now self.items))
            (λ set. set ≡ kept self.order
            (with_element (O.order self.order)
            (eq_by_cmp (O.order self.order)) value.now self.items))) }
    {
        let Err(place) = self.search(value) else {
            return Ok(Some(self));
        };
        if self.count() >= most {
            return Ok(None);
        }
        let set = self.inserted(alloc, place, value.dup(alloc)?)?;
        Ok(Some(set))
    }

    // The elements that are the same as one of the values.
    pub(crate) fn within(&self, alloc: Global, values: &[T]) -> Result<SortedSet<T, O>, Memory>
        ensures { IfOk result
            (λ set. set ≡ kept self.now.order
            (intersection (eq_by_cmp (O.order self.now.order)) self.now.items values.now)) }
    {
        // (for the proof alone: that the elements rise)
        let _elements = self.tree();
        let mut set = SortedSet::new(self.order());
        for value in values {
            let Some(more) = set.with_same(alloc, value, self)? else {
                unreachable!()
            };
            set = more;
        }
        Ok(set)
    }

    // The set with the element of the other one that is the same as the value, where there is one, or
    // nothing where there would be more elements than in the other one.
    fn with_same(
        self,
        alloc: Global,
        value: &T,
        other: &SortedSet<T, O>,
    ) -> Result<Option<SortedSet<T, O>>, Memory>
        requires { self.order ≡ other.now.order }
        ensures { IfOk result
            (λ o. MatchOption o
            (length other.now.items < length
            (with_same (O.order self.order) value.now other.now.items self.items))
            (λ set. set ≡ kept self.order
            (with_same (O.order self.order) value.now other.now.items self.items))) }
    {
        match other.actual(value) {
            Some(element) => self.with(alloc, element, other.count()),
            None => Ok(Some(self)),
        }
    }

    // The set without the elements that are the same as one of the values.
    pub(crate) fn without(&self, alloc: Global, values: &[T]) -> Result<SortedSet<T, O>, Memory>
        ensures { IfOk result
            (λ set. set ≡ kept self.now.order
            (difference (eq_by_cmp (O.order self.now.order)) self.now.items values.now)) }
    {
        let mut set = self.share()?;
        for value in values {
            set = set.without_one(alloc, value)?;
        }
        Ok(set)
    }

    // The set without the element that is the same as the value.
    fn without_one(self, alloc: Global, value: &T) -> Result<SortedSet<T, O>, Memory>
        ensures { IfOk result
            (λ set. set ≡ kept self.order
            (difference (eq_by_cmp (O.order self.order)) self.items (value.now ∷ []))) }
    {
        match self.search(value) {
            Ok(place) => self.removed(alloc, place),
            Err(_) => Ok(self),
        }
    }
}
