// Changes of many elements.
ghost use Rattle.std.specs.Prelude.{◌≡◌, ◌<◌, length, IfOk, MatchOption, Ok};
ghost use Rattle.imm_base.specs.Edits.{edit};
ghost use Rattle.imm_base.specs.Sets.{difference, intersection, set_except, set_intersect, set_symmetric_except, set_union};
ghost use Rattle.imm_dictionary.specs.Answers.{SetAnswers};
ghost use Rattle.imm_dictionary.specs.Kept.{kept, with_common};

use crate::set::ImmHashSet;
use imm_base::{Edit, HashEq, Key, LIMIT, Memory, SetFault};
use std::alloc::Global;

impl<T: Key, H: HashEq<T>> ImmHashSet<T, H> {
    /// The set with each of the values that is absent. Of same ones it takes the first. For m values it
    /// costs what m calls of `add` do.
    pub fn union_with(
        &self,
        alloc: Global,
        values: &[T],
    ) -> Result<Edit<ImmHashSet<T, H>>, SetFault>
        ensures { SetAnswers self.now.eq result (set_union T.eq T.cmp (H.same self.now.eq)
            values.now self.now.items) }
    {
        let count = self.count();
        let Some(set) = self.share()?.with_all(alloc, values, LIMIT)? else {
            return Err(SetFault::TooLarge { count });
        };
        Ok(self.changed_to(set))
    }

    /// The elements that are same to one of the values. For m values it costs what m calls of `add` do.
    pub fn intersect_with(
        &self,
        alloc: Global,
        values: &[T],
    ) -> Result<Edit<ImmHashSet<T, H>>, SetFault>
        ensures { SetAnswers self.now.eq result (set_intersect T.eq (H.same self.now.eq)
            values.now self.now.items) }
    {
        let set = self.within(alloc, values)?;
        Ok(self.changed_to(set))
    }

    /// The elements that are same to none of the values. For m values it costs what m calls of `remove`
    /// do.
    pub fn except_with(
        &self,
        alloc: Global,
        values: &[T],
    ) -> Result<Edit<ImmHashSet<T, H>>, SetFault>
        ensures { SetAnswers self.now.eq result (set_except T.eq (H.same self.now.eq) values.now
            self.now.items) }
    {
        let set = self.without(alloc, values)?;
        Ok(self.changed_to(set))
    }

    /// The elements that are same to none of the values, and the values that are same to none of the
    /// elements. Of same values it takes the first. For m values it costs what m calls of `remove` and m
    /// of `add` do.
    pub fn sym_except_with(
        &self,
        alloc: Global,
        values: &[T],
    ) -> Result<Edit<ImmHashSet<T, H>>, SetFault>
        ensures { SetAnswers self.now.eq result (set_symmetric_except T.eq T.cmp (H.same
            self.now.eq) values.now self.now.items) }
    {
        let count = self.count();
        let absent = self.absent(alloc, values)?;
        let rest = self.without(alloc, values)?;
        let Some(set) = rest.with_all(alloc, absent.as_slice(), LIMIT)? else {
            return Err(SetFault::TooLarge { count });
        };
        if values.is_empty() {
            return Ok(Edit::Same);
        }
        Ok(Edit::New(set))
    }

    // The other set, where it is not this one: it is this one where it has as many elements.
    fn changed_to(&self, set: ImmHashSet<T, H>) -> Edit<ImmHashSet<T, H>>
        requires eq { set.eq ≡ self.now.eq }
        requires whole { length set.items ≡ length self.now.items → set.items ≡ self.now.items }
        ensures { SetAnswers self.now.eq (Ok result) (edit T.eq self.now.items set.items) }
    {
        if set.count() == self.count() {
            Edit::Same
        } else {
            Edit::New(set)
        }
    }

    // Copies of the values that are same to no element.
    fn absent(&self, alloc: Global, values: &[T]) -> Result<Vec<T>, Memory>
        ensures { IfOk result (λ v. v.items ≡ difference (H.same self.now.eq) values.now
            self.now.items) }
    {
        let mut absent = Vec::new(alloc);
        for value in values {
            if !self.contains(value) {
                absent.push(value.dup(alloc)?)?;
            }
        }
        Ok(absent)
    }

    // The elements that are same to one of the values.
    fn within(&self, alloc: Global, values: &[T]) -> Result<ImmHashSet<T, H>, Memory>
        ensures { IfOk result (λ set. set ≡ kept self.now.eq (intersection (H.same self.now.eq)
            self.now.items values.now)) }
    {
        let _count = self.count();
        let mut set = ImmHashSet::new(self.comparer());
        for value in values {
            let Some(more) = set.with_common(alloc, value, self)? else {
                unreachable!()
            };
            set = more;
        }
        Ok(set)
    }

    // The set with the element of the other one that is same to the value, where there is one, or nothing
    // where there would be more elements than in the other one.
    fn with_common(
        self,
        alloc: Global,
        value: &T,
        other: &ImmHashSet<T, H>,
    ) -> Result<Option<ImmHashSet<T, H>>, Memory>
        requires { self.eq ≡ other.now.eq }
        ensures { IfOk result (λ o. MatchOption o
            (length other.now.items < length (with_common T.cmp (H.same self.eq) value.now
            other.now.items self.items))
            (λ set. set ≡ kept self.eq (with_common T.cmp (H.same self.eq) value.now
            other.now.items self.items))) }
    {
        match other.actual(value) {
            Some(element) => self.with(alloc, element, other.count()),
            None => Ok(Some(self)),
        }
    }
}
