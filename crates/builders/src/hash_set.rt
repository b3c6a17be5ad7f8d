// The builder of hash sets.
ghost use Rattle.std.specs.Prelude.{◌≡◌, length, IfOk, Ok};
ghost use Rattle.std.specs.Option.{option_copied};
ghost use Rattle.imm_base.specs.Lists.{clear};
ghost use Rattle.imm_base.specs.Sets.{has, relation, same_in, set_add, set_except, set_intersect, set_remove, set_symmetric_except, set_union};
ghost use Rattle.plain_model.specs.Builders.{new_builder};
ghost use Rattle.builders.specs.Changes.{CanCount};
ghost use Rattle.builders.specs.HashSets.{Changes};

use crate::current::Current;
use imm_base::{HashEq, Key, Memory, SetFault, SetTest, Step};
use imm_dictionary::ImmHashSet;
use std::alloc::Global;
use std::marker::Model;

/// A set that is built, under an equality, with the calls of a hash set. Contracts see its
/// elements, in ordinal order, its equality, and the number of changes that gave another set.
///
/// A refused change, and one without memory, leaves them as they were. A change has the condition
/// that `version()` is below the greatest `u64`. It makes the next set, which shares its nodes with
/// the one before, and costs what the call of the set does.
#[derive(Drop)]
pub struct HashSetBuilder<T: Key, H: HashEq<T>> {
    current: Current<ImmHashSet<T, H>>,
}

impl<T: Key, H: HashEq<T>> Model for HashSetBuilder<T, H> {
    ghost use Rattle.hash_bucket.specs.Hashed.{Hashed};
    ghost use Rattle.plain_model.specs.Builders.{Built};

    ghost Value = { Built (Hashed T H) };

    ghost view = { λ a. a.current };
}

impl<T: Key, H: HashEq<T>> HashSetBuilder<T, H> {
    /// A builder of the set, whose nodes it shares. O(1).
    pub fn from(set: &ImmHashSet<T, H>) -> Result<HashSetBuilder<T, H>, Memory>
        ensures { IfOk result (λ builder. builder ≡ new_builder set.now) }
    {
        Ok(HashSetBuilder {
            current: Current::new(set.share()?),
        })
    }

    /// How many changes gave another set. O(1).
    pub fn version(&self) -> u64
        ensures { result ≡ self.now.changes }
    {
        self.current.version()
    }

    /// The set as it is now, which no later change alters. O(1).
    pub fn to_immutable(&mut self) -> Result<ImmHashSet<T, H>, Memory>
        ensures published { IfOk result (λ set. set ≡ self.old.contents) }
        ensures same { self.new ≡ self.old }
    {
        self.current.collection().share()
    }

    // The set as it is now.
    fn set(&self) -> &ImmHashSet<T, H>
        ensures { result.now ≡ self.now.contents }
    {
        self.current.collection()
    }

    /// The equality that says which elements are same. O(1).
    pub fn comparer(&self) -> H
        ensures { result ≡ self.now.contents.eq }
    {
        self.set().comparer()
    }

    /// How many elements there are. O(1).
    pub fn count(&self) -> u32
        ensures { result ≡ length self.now.contents.items }
    {
        self.set().count()
    }

    /// Whether an element is same to the value. O(log n + k) for n elements, of which k have the
    /// hash of the value.
    pub fn contains(&self, value: &T) -> bool
        ensures { result ≡ has (H.same self.now.contents.eq) value.now self.now.contents.items }
    {
        self.set().contains(value)
    }

    /// The element that is same to the value, in its own spelling. It costs what `contains` does.
    pub fn actual(&self, value: &T) -> Option<&T>
        ensures { option_copied result ≡ same_in
            (H.same self.now.contents.eq) value.now self.now.contents.items }
    {
        self.set().actual(value)
    }

    /// Whether the set stands so to the set of the values, as the set's own call says.
    pub fn relation(&self, alloc: Global, which: SetTest, values: &[T]) -> Result<bool, Memory>
        ensures { IfOk result (λ stands. stands ≡ relation
            (H.same self.now.contents.eq) which values.now self.now.contents.items) }
    {
        self.set().relation(alloc, which, values)
    }

    /// Copies of the elements, in ordinal order. O(n log n).
    pub fn to_vec(&self, alloc: Global) -> Result<Vec<T>, Memory>
        ensures { IfOk result (λ v. v.items ≡ self.now.contents.items) }
    {
        self.set().to_vec(alloc)
    }

    /// Takes out all elements. O(1), besides the nodes that nobody shares.
    pub fn clear(&mut self) -> Step
        requires { CanCount self.old }
        ensures { Changes self.old.contents.eq (Ok result) (clear self.old.contents.items)
            self.old self.new }
    {
        let edit = self.set().clear();
        self.current.adopt(edit)
    }

    /// Puts in the value. A same element that is present stays as it is spelled. O(log n + k) for n
    /// elements, of which k have the hash of the value.
    pub fn add(&mut self, alloc: Global, value: T) -> Result<Step, SetFault>
        requires { CanCount self.old }
        ensures { Changes self.old.contents.eq result
            (set_add T.cmp (H.same self.old.contents.eq) value self.old.contents.items)
            self.old self.new }
    {
        let edit = self.set().add(alloc, value)?;
        Ok(self.current.adopt(edit))
    }

    /// Takes out the element that is same to the value. It costs what `add` does.
    pub fn remove(&mut self, alloc: Global, value: &T) -> Result<Step, SetFault>
        requires { CanCount self.old }
        ensures { Changes self.old.contents.eq result
            (set_remove (H.same self.old.contents.eq) value.now self.old.contents.items)
            self.old self.new }
    {
        let edit = self.set().remove(alloc, value)?;
        Ok(self.current.adopt(edit))
    }

    /// Puts in each of the values that is absent. Of same ones it takes the first. It costs what
    /// `add` does for each of the values.
    pub fn union_with(&mut self, alloc: Global, values: &[T]) -> Result<Step, SetFault>
        requires { CanCount self.old }
        ensures { Changes self.old.contents.eq result
            (set_union T.eq T.cmp (H.same self.old.contents.eq) values.now
            self.old.contents.items)
            self.old self.new }
    {
        let edit = self.set().union_with(alloc, values)?;
        Ok(self.current.adopt(edit))
    }

    /// Takes out the elements that are same to none of the values. It costs what `add` does for
    /// each of the values.
    pub fn intersect_with(&mut self, alloc: Global, values: &[T]) -> Result<Step, SetFault>
        requires { CanCount self.old }
        ensures { Changes self.old.contents.eq result
            (set_intersect T.eq (H.same self.old.contents.eq) values.now
            self.old.contents.items)
            self.old self.new }
    {
        let edit = self.set().intersect_with(alloc, values)?;
        Ok(self.current.adopt(edit))
    }

    /// Takes out the elements that are same to one of the values. It costs what `add` does for each
    /// of the values.
    pub fn except_with(&mut self, alloc: Global, values: &[T]) -> Result<Step, SetFault>
        requires { CanCount self.old }
        ensures { Changes self.old.contents.eq result
            (set_except T.eq (H.same self.old.contents.eq) values.now
            self.old.contents.items)
            self.old self.new }
    {
        let edit = self.set().except_with(alloc, values)?;
        Ok(self.current.adopt(edit))
    }

    /// Takes out the elements that are same to one of the values, and puts in the values that are
    /// same to none. Of same values it takes the first. It costs what `add` does for each of the
    /// values.
    pub fn sym_except_with(&mut self, alloc: Global, values: &[T]) -> Result<Step, SetFault>
        requires { CanCount self.old }
        ensures { Changes self.old.contents.eq result
            (set_symmetric_except T.eq T.cmp (H.same self.old.contents.eq) values.now
            self.old.contents.items)
            self.old self.new }
    {
        let edit = self.set().sym_except_with(alloc, values)?;
        Ok(self.current.adopt(edit))
    }
}
