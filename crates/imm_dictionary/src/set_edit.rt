// Changes of one element, and another equality.
ghost use Rattle.std.specs.Prelude.{◌≡◌, ◌<◌, ◌≤◌, ◌∷◌, ◌^◌, [], length, IfOk, MatchOption};
ghost use Rattle.imm_base.specs.Lists.{sorted};
ghost use Rattle.imm_base.specs.Rekey.{set_rekey};
ghost use Rattle.imm_base.specs.Sets.{set_add, set_remove, difference, union, with_element};
ghost use Rattle.imm_dictionary.specs.Answers.{SetAnswers};
ghost use Rattle.imm_dictionary.specs.Kept.{kept};

use crate::set::ImmHashSet;
use imm_base::{Edit, HashEq, Key, LIMIT, Memory, SetFault};
use std::alloc::Global;

impl<T: Key, H: HashEq<T>> ImmHashSet<T, H> {
    /// The set with the value. A same element that is present stays as it is spelled. In time and memory
    /// it is O(log n + k) for n elements, of which k have the hash of the value.
    pub fn add(&self, alloc: Global, value: T) -> Result<Edit<ImmHashSet<T, H>>, SetFault>
        ensures { SetAnswers self.now.eq result (set_add T.cmp (H.same self.now.eq) value
            self.now.items) }
    {
        if self.contains(&value) {
            return Ok(Edit::Same);
        }
        let count = self.count();
        if count >= LIMIT {
            return Err(SetFault::TooLarge { count });
        }
        Ok(Edit::New(self.inserted(alloc, value)?))
    }

    /// The set without the element that is same to the value. It costs what `add` does.
    pub fn remove(&self, alloc: Global, value: &T) -> Result<Edit<ImmHashSet<T, H>>, SetFault>
        ensures { SetAnswers self.now.eq result (set_remove (H.same self.now.eq) value.now
            self.now.items) }
    {
        if self.contains(value) {
            Ok(Edit::New(self.removed(alloc, value)?))
        } else {
            Ok(Edit::Same)
        }
    }

    /// The set under this equality. Of elements that are same then it takes the first in ordinal order.
    /// For n elements it costs what n calls of `add` do, and O(n log n).
    pub fn with_comparer(&self, alloc: Global, eq: H) -> Result<Edit<ImmHashSet<T, H>>, SetFault>
        ensures { SetAnswers eq result (set_rekey T.cmp T.cmp (H.same eq) (H.eq eq self.now.eq)
            self.now.items) }
    {
        if eq == self.comparer() {
            return Ok(Edit::Same);
        }
        let values = self.in_own_order(alloc)?;
        let set = ImmHashSet::of_values(alloc, eq, values.as_slice())?;
        Ok(Edit::New(set))
    }

    // Copies of the elements, in their own order.
    fn in_own_order(&self, alloc: Global) -> Result<Vec<T>, Memory>
        ensures items { IfOk result (λ v. v.items ≡ sorted T.cmp self.now.items) }
        ensures fits { IfOk result (λ v. length v.items < 2 ^ 32) }
    {
        // (for the proof alone: that the count fits 32 bits, and that the elements rise)
        let _count = self.count();
        self.to_vec(alloc)
    }

    // The set of these values, the first of same ones.
    fn of_values(alloc: Global, eq: H, values: &[T]) -> Result<ImmHashSet<T, H>, Memory>
        requires { length values.now < 2 ^ 32 }
        ensures { IfOk result (λ set. set ≡ kept eq (union T.cmp (H.same eq) [] values.now)) }
    {
        let empty = ImmHashSet::new(eq);
        match empty.with_all(alloc, values, u32::MAX)? {
            Some(set) => Ok(set),
            None => unreachable!(),
        }
    }

    // The set with each of the values that is absent, the first of same ones, or nothing where it
    // would have more than `most` elements.
    pub(crate) fn with_all(
        self,
        alloc: Global,
        values: &[T],
        most: u32,
    ) -> Result<Option<ImmHashSet<T, H>>, Memory>
        ensures { IfOk result (λ o. MatchOption o
            (most < length (union T.cmp (H.same self.eq) self.items values.now))
            (λ set. (set ≡ kept self.eq (union T.cmp (H.same self.eq) self.items values.now)) ×
            (length set.items ≤ most))) }
    {
        let mut set = self;
        for value in values {
            let Some(more) = set.with(alloc, value, most)? else {
                return Ok(None);
            };
            set = more;
        }
        if set.count() > most {
            return Ok(None);
        }
        Ok(Some(set))
    }

    // The set with the value, where it is absent, or nothing where there would be more than `most`
    // elements then.
    pub(crate) fn with(
        self,
        alloc: Global,
        value: &T,
        most: u32,
    ) -> Result<Option<ImmHashSet<T, H>>, Memory>
        ensures { IfOk result (λ o. MatchOption o
            (most < length (with_element T.cmp (H.same self.eq) value.now self.items))
            (λ set. set ≡ kept self.eq (with_element T.cmp (H.same self.eq) value.now
            self.items))) }
    {
        if self.contains(value) {
            return Ok(Some(self));
        }
        if self.count() >= most {
            return Ok(None);
        }
        let set = self.inserted(alloc, value.dup(alloc)?)?;
        Ok(Some(set))
    }

    // The set without the elements that are same to one of the values.
    pub(crate) fn without(&self, alloc: Global, values: &[T]) -> Result<ImmHashSet<T, H>, Memory>
        ensures { IfOk result (λ set. set ≡ kept self.now.eq (difference (H.same self.now.eq)
            self.now.items values.now)) }
    {
        let mut set = self.share()?;
        for value in values {
            set = set.without_one(alloc, value)?;
        }
        Ok(set)
    }

    // The set without the element that is same to the value.
    fn without_one(self, alloc: Global, value: &T) -> Result<ImmHashSet<T, H>, Memory>
        ensures { IfOk result (λ set. set ≡ kept self.eq (difference (H.same self.eq) self.items
            (value.now ∷ []))) }
    {
        if self.contains(value) {
            self.removed(alloc, value)
        } else {
            Ok(self)
        }
    }
}
