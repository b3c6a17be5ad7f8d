// The set, and the tree of buckets that holds it. All other calls go by those of this file.
ghost use Rattle.std.specs.Prelude.{◌≡◌, ◌∷◌, [], length, IfOk, Ok, true, false};
ghost use Rattle.std.specs.Option.{option_copied};
ghost use Rattle.imm_base.specs.Kept.{IsSet};
ghost use Rattle.imm_base.specs.Lists.{clear, insert_sorted, sorted};
ghost use Rattle.imm_base.specs.Sets.{has, same_in, difference};
ghost use Rattle.imm_dictionary.specs.Answers.{SetAnswers};
ghost use Rattle.imm_dictionary.specs.Kept.{kept};

use hash_bucket::{HashTree, SameAs};
use imm_base::{Edit, HashEq, Key, Memory};
use std::alloc::Global;
use std::marker::Model;

/// A persistent set under an equality: elements that are same are one element of the set. Two sets may
/// share nodes, also in different threads. Contracts see the elements, in ordinal order, and the
/// equality.
///
/// A changing call answers `Edit::Same` where the set stays as it is, and otherwise another set, under
/// the same equality; this one stays in any case.
#[derive(Drop)]
pub struct ImmHashSet<T: Key, H: HashEq<T>> {
    elements: HashTree<T, H>,
}

impl<T: Key, H: HashEq<T>> Model for ImmHashSet<T, H> {
    ghost use Rattle.hash_bucket.specs.Hashed.{Hashed, hashed_code};

    ghost Value = { Hashed T H };

    ghost coded = { hashed_code T.code H.code };

    ghost use Rattle.imm_base.specs.Lists.{sorted};

    ghost view = { λ a. record { eq = a.elements.eq; items = sorted T.cmp a.elements.items } };
}

impl<T: Key, H: HashEq<T>> ImmHashSet<T, H> {
    /// The empty set, under this equality. O(1).
    pub fn new(eq: H) -> ImmHashSet<T, H>
        ensures items { result.items ≡ [] }
        ensures eq { result.eq ≡ eq }
    {
        ImmHashSet {
            elements: HashTree::new(eq),
        }
    }

    /// The set of these elements. O(1).
    pub fn of_elements(elements: HashTree<T, H>) -> ImmHashSet<T, H>
        ensures items { result.items ≡ sorted T.cmp elements.items }
        ensures eq { result.eq ≡ elements.eq }
    {
        ImmHashSet { elements }
    }

    /// The elements, by their hashes. O(1).
    pub fn elements(&self) -> &HashTree<T, H>
        ensures items { sorted T.cmp result.now.items ≡ self.now.items }
        ensures eq { result.now.eq ≡ self.now.eq }
    {
        &self.elements
    }

    /// The equality that says which elements are same. O(1).
    pub fn comparer(&self) -> H
        ensures { result ≡ self.now.eq }
    {
        self.elements().comparer()
    }

    /// How many elements there are. O(1).
    pub fn count(&self) -> u32
        ensures count { result ≡ length self.now.items }
        ensures set { IsSet T.cmp (H.same self.now.eq) self.now.items }
    {
        self.elements().count()
    }

    /// An equal set that shares the nodes. O(1).
    pub fn share(&self) -> Result<ImmHashSet<T, H>, Memory>
        ensures { IfOk result (λ set. set ≡ self.now) }
    {
        let elements = self.elements().share()?;
        Ok(ImmHashSet::of_elements(elements))
    }

    /// The empty set. O(1).
    pub fn clear(&self) -> Edit<ImmHashSet<T, H>>
        ensures { SetAnswers self.now.eq (Ok result) (clear self.now.items) }
    {
        if self.count() == 0 {
            Edit::Same
        } else {
            Edit::New(ImmHashSet::new(self.comparer()))
        }
    }

    /// Whether an element is same to the value. It compares the value to those of its hash alone, in
    /// O(log n + k) for n elements, of which k have this hash.
    pub fn contains(&self, value: &T) -> bool
        ensures { result ≡ has (H.same self.now.eq) value.now self.now.items }
    {
        self.elements().has(value)
    }

    /// The element that is same to the value, in its own spelling. It compares the value to those of its
    /// hash alone, in O(log n + k) for n elements, of which k have this hash.
    pub fn actual(&self, value: &T) -> Option<&T>
        ensures { option_copied result ≡ same_in (H.same self.now.eq) value.now self.now.items }
    {
        let elements = self.elements();
        // (for the proof alone: that no two elements are same)
        let _count = elements.count();
        elements.find(value)
    }

    /// Copies of the elements, in ordinal order, in O(n log n).
    pub fn to_vec(&self, alloc: Global) -> Result<Vec<T>, Memory>
        ensures { IfOk result (λ v. v.items ≡ self.now.items) }
    {
        self.elements().in_own_order(alloc)
    }

    // The set with the value, which no element is same to.
    pub(crate) fn inserted(&self, alloc: Global, value: T) -> Result<ImmHashSet<T, H>, Memory>
        requires { has (H.same self.now.eq) value self.now.items ≡ false }
        ensures items { IfOk result (λ set. set.items ≡ insert_sorted T.cmp value self.now.items) }
        ensures eq { IfOk result (λ set. set.eq ≡ self.now.eq) }
    {
        let elements = self.elements().with(alloc, value)?;
        Ok(ImmHashSet::of_elements(elements))
    }

    // The set without the element that is same to the value.
    pub(crate) fn removed(&self, alloc: Global, value: &T) -> Result<ImmHashSet<T, H>, Memory>
        requires { has (H.same self.now.eq) value.now self.now.items ≡ true }
        ensures items { IfOk result (λ set. set.items ≡ difference (H.same self.now.eq)
            self.now.items (value.now ∷ [])) }
        ensures eq { IfOk result (λ set. set.eq ≡ self.now.eq) }
    {
        let elements = self.elements();
        let eq = elements.comparer();
        let rest = elements.without(alloc, &SameAs { value, eq })?;
        Ok(ImmHashSet::of_elements(rest))
    }
}
