// The elements of one hash.
ghost use Rattle.std.specs.Prelude.{◌≡◌, ◌≤◌, [], ◌∷◌, false, find, length, nat_eq, true, IfOk, IsTrue, ◌↔◌};
ghost use Rattle.std.specs.Option.{option_copied};
ghost use Rattle.std.specs.Ordering.{int_eq, on, eq_of_both, is_lt};
ghost use Rattle.std.specs.Cmp.Lexicographic.{pointwise, lists_per, lists_equiv};
ghost use Rattle.std.specs.Cmp.{on_per, and_per, on_equiv, and_equiv, int_eq_equiv, partial_equiv_from_equiv};
ghost use Rattle.imm_base.specs.Lists.{insert_sorted, place_for};
ghost use Rattle.hash_bucket.specs.Rows.{others, with_same};

use crate::seek::{SameAs, Seek};
use imm_base::{Dup, HashEq, Item, Key, Memory};
use std::alloc::Global;
use std::cmp::Ordering;
use std::marker::Model;
use std::sync::Arc;

/// Elements with one hash, in their own order. Two buckets may share them, also in different threads.
#[derive(Drop)]
pub struct Bucket<T> {
    hash: i32,
    items: Arc<Vec<T>, Global>,
}

impl<T> Model for Bucket<T> {
    ghost use Rattle.hash_bucket.specs.Bucketed.{Bucketed, bucketed_code};

    ghost Value = { Bucketed T };

    ghost coded = { bucketed_code T.code };

    ghost view = { λ a. record { hash = a.hash; items = a.items.value.items } };
}

impl<T: PartialEq> PartialEq for Bucket<T> {
    ghost eq = { eq_of_both (on (λ b. b.hash) int_eq) (on (λ b. b.items) (pointwise T.eq)) };

    ghost laws = { and_per (on_per (λ b. b.hash) (partial_equiv_from_equiv int_eq_equiv)) (on_per (λ b. b.items) (lists_per T.laws)) };

    fn eq(&self, other: &Bucket<T>) -> bool {
        self.hash == other.hash && self.items() == other.items()
    }
}

impl<T: Eq> Eq for Bucket<T> {
    ghost laws = { and_equiv (on_equiv (λ b. b.hash) int_eq_equiv) (on_equiv (λ b. b.items) (lists_equiv T.Eq.laws)) };
}

impl<T: Drop> Dup for Bucket<T> {
    fn dup(&self, _alloc: Global) -> Result<Bucket<T>, Memory> {
        Ok(Bucket {
            hash: self.hash,
            items: Arc::try_clone(&self.items)?,
        })
    }
}

impl<T: Item> Item for Bucket<T> {}

impl<T> Bucket<T> {
    /// The hash of each element. O(1).
    pub fn hash(&self) -> i32
        ensures { result ≡ self.now.hash }
    {
        self.hash
    }

    /// The elements, in their own order. O(1).
    pub fn items(&self) -> &[T]
        ensures { result.now ≡ self.now.items }
    {
        self.items.as_slice()
    }

    // Whether there is no element.
    pub(crate) fn is_empty(&self) -> bool
        ensures { IsTrue result ↔ (self.now.items ≡ []) }
    {
        self.items().is_empty()
    }

    // The first element that is looked for.
    pub(crate) fn find<S: Seek<T>>(&self, sought: &S) -> Option<&T>
        ensures { option_copied result ≡ find (S.meets sought.now) self.now.items }
    {
        self.items().iter().find(|x| sought.meets(x))
    }
}

impl<T: Key> Bucket<T> {
    /// The bucket of one element. O(1).
    pub fn one(alloc: Global, hash: i32, value: T) -> Result<Bucket<T>, Memory>
        ensures hash { IfOk result (λ b. b.hash ≡ hash) }
        ensures items { IfOk result (λ b. b.items ≡ value ∷ []) }
    {
        let mut items = Vec::with_capacity(alloc, 1)?;
        items.push(value)?;
        Bucket::of(alloc, hash, items)
    }

    // The bucket of these elements.
    fn of(alloc: Global, hash: i32, items: Vec<T>) -> Result<Bucket<T>, Memory>
        ensures hash { IfOk result (λ b. b.hash ≡ hash) }
        ensures items { IfOk result (λ b. b.items ≡ items.items) }
    {
        let items = Arc::new(alloc, items)?;
        Ok(Bucket { hash, items })
    }

    /// The bucket with the value in its place, and in place of the element that is same. In time and
    /// memory it is O(n) for a bucket of n elements.
    pub fn put<H: HashEq<T>>(&self, alloc: Global, value: T, eq: &H) -> Result<Bucket<T>, Memory>
        ensures hash { IfOk result (λ b. b.hash ≡ self.now.hash) }
        ensures items { IfOk result (λ b. b.items ≡ with_same T.cmp (H.same eq.now) value
            self.now.items) }
    {
        let sought = SameAs {
            value: &value,
            eq: *eq,
        };
        let items = copies(alloc, self.items(), &sought)?;
        let items = with(items, value)?;
        Bucket::of(alloc, self.hash, items)
    }

    /// The bucket without the element that is same to the value. In time and memory it is O(n) for a
    /// bucket of n elements.
    pub fn without<H: HashEq<T>>(
        &self,
        alloc: Global,
        value: &T,
        eq: &H,
    ) -> Result<Bucket<T>, Memory>
        ensures hash { IfOk result (λ b. b.hash ≡ self.now.hash) }
        ensures items { IfOk result (λ b. b.items ≡ others (H.same eq.now value.now)
            self.now.items) }
    {
        let sought = SameAs { value, eq: *eq };
        self.without_met(alloc, &sought)
    }

    // The bucket without the elements that are looked for.
    pub(crate) fn without_met<S: Seek<T>>(
        &self,
        alloc: Global,
        sought: &S,
    ) -> Result<Bucket<T>, Memory>
        ensures hash { IfOk result (λ b. b.hash ≡ self.now.hash) }
        ensures items { IfOk result (λ b. b.items ≡ others (S.meets sought.now) self.now.items) }
    {
        let items = copies(alloc, self.items(), sought)?;
        Bucket::of(alloc, self.hash, items)
    }
}

// Copies of the elements that are not looked for.
fn copies<T: Key, S: Seek<T>>(alloc: Global, items: &[T], sought: &S) -> Result<Vec<T>, Memory>
    ensures { IfOk result (λ v. v.items ≡ others (S.meets sought.now) items.now) }
{
    let mut kept = Vec::new(alloc);
    for item in items {
        if !sought.meets(item) {
            kept.push(item.dup(alloc)?)?;
        }
    }
    Ok(kept)
}

// The elements with the value in its place.
fn with<T: Key>(mut items: Vec<T>, value: T) -> Result<Vec<T>, Memory>
    ensures { IfOk result (λ v. v.items ≡ insert_sorted T.cmp value items.items) }
{
    let place = place_of(&items, &value);
    items.insert(place, value)?;
    Ok(items)
}

// The place of the first element that is greater than the value, or the end.
fn place_of<T: Ord>(items: &[T], value: &T) -> usize
    ensures within { result ≤ length items.now }
    ensures place { result ≡ place_for T.cmp value.now items.now }
{
    items
        .iter()
        .position(|item| value.cmp(item) == Ordering::Less)
        .unwrap_or(items.len())
}
