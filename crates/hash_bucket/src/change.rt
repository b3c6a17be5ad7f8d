// Trees of buckets with an element more or less.
ghost use Rattle.std.specs.Prelude.{◌≡◌, ◌+◌, length, true, IfOk};
ghost use Rattle.std.specs.List.{list_any};
ghost use Rattle.avl_node.specs.Shape.{Fits};
ghost use Rattle.imm_base.specs.Edits.{is_over};
ghost use Rattle.imm_base.specs.Lists.{list_remove_all};
ghost use Rattle.imm_base.specs.Sets.{has, set_add, set_remove};
ghost use Rattle.hash_bucket.specs.Answers.{Answers, AnswersNew};
ghost use Rattle.hash_bucket.specs.Buckets.{AreBuckets, elements, hash_order};
ghost use Rattle.hash_bucket.specs.Rows.{others, set_same, with_same};

use crate::bucket::Bucket;
use crate::find::{AtHash, locate};
use crate::seek::{SameAs, Seek};
use crate::tree::HashTree;
use avl_node::{Tree, TreeFault};
use imm_base::{Edit, HashEq, Key, LIMIT, Memory};
use std::alloc::Global;

impl<T: Key, H: HashEq<T>> HashTree<T, H> {
    /// The elements with the value, where no same one is present. In time and memory it is O(log n + k)
    /// for n elements, of which k have the hash of the value.
    pub fn add(&self, alloc: Global, value: T) -> Result<Edit<HashTree<T, H>>, TreeFault>
        ensures { Answers self.now.eq result (set_add (hash_order T.cmp (H.hash self.now.eq))
            (H.same self.now.eq) value self.now.items) }
    {
        if self.has(&value) {
            return Ok(Edit::Same);
        }
        if self.is_full() {
            let count = self.count();
            return Err(TreeFault::TooLarge { count });
        }
        Ok(Edit::New(self.with_found(alloc, value, false)?))
    }

    /// The elements with the value, in place of the same one where it is present. It costs what `add`
    /// does.
    pub fn set(&self, alloc: Global, value: T) -> Result<HashTree<T, H>, TreeFault>
        ensures { AnswersNew self.now.eq result (set_same (hash_order T.cmp (H.hash self.now.eq))
            (H.same self.now.eq) value self.now.items) }
    {
        let found = self.has(&value);
        if self.is_full() && !found {
            let count = self.count();
            return Err(TreeFault::TooLarge { count });
        }
        Ok(self.with_found(alloc, value, found)?)
    }

    /// The elements without the one that is same to the value. It costs what `add` does.
    pub fn remove(&self, alloc: Global, value: &T) -> Result<Edit<HashTree<T, H>>, TreeFault>
        ensures { Answers self.now.eq result (set_remove (H.same self.now.eq) value.now
            self.now.items) }
    {
        let eq = self.comparer();
        self.remove_where(alloc, &SameAs { value, eq })
    }

    /// The elements without the one that is looked for, where all that pass the test have its hash and
    /// are same to each other. It costs what `add` does.
    pub fn remove_where<S: Seek<T>>(
        &self,
        alloc: Global,
        sought: &S,
    ) -> Result<Edit<HashTree<T, H>>, TreeFault>
        requires alike { (x : T) → S.meets sought.now x ≡ true → S.hash sought.now ≡ H.hash
            self.now.eq x }
        requires alone { (x y : T) → S.meets sought.now x ≡ true → S.meets sought.now y ≡ true →
            H.same self.now.eq x y ≡ true }
        ensures { Answers self.now.eq result (list_remove_all (S.meets sought.now) self.now.items) }
    {
        if self.has_where(sought) {
            Ok(Edit::New(self.without(alloc, sought)?))
        } else {
            Ok(Edit::Same)
        }
    }

    // Whether one element more would be too many.
    fn is_full(&self) -> bool
        ensures { result ≡ is_over (length self.now.items + 1) }
    {
        self.count() >= LIMIT
    }

    /// The elements with the value, in place of the same one where it is present, however many there
    /// are. A count is of 32 bits: where it might pass them, there is no memory. It costs what `add`
    /// does.
    pub fn with(&self, alloc: Global, value: T) -> Result<HashTree<T, H>, Memory>
        ensures items { IfOk result (λ t. t.items ≡ with_same (hash_order T.cmp (H.hash
            self.now.eq)) (H.same self.now.eq) value self.now.items) }
        ensures eq { IfOk result (λ t. t.eq ≡ self.now.eq) }
    {
        let found = self.has(&value);
        self.with_found(alloc, value, found)
    }

    // The same, where it is known whether a same element is present.
    fn with_found(&self, alloc: Global, value: T, found: bool) -> Result<HashTree<T, H>, Memory>
        requires { found ≡ has (H.same self.now.eq) value self.now.items }
        ensures items { IfOk result (λ t. t.items ≡ with_same (hash_order T.cmp (H.hash
            self.now.eq)) (H.same self.now.eq) value self.now.items) }
        ensures eq { IfOk result (λ t. t.eq ≡ self.now.eq) }
    {
        let eq = self.comparer();
        let count = self.count();
        if count == u32::MAX {
            return Err(Memory);
        }
        let tree = with_value(alloc, self.tree(), value, &eq)?;
        if found {
            return Ok(HashTree::of_tree(tree, count, eq));
        }
        Ok(HashTree::of_tree(tree, count + 1, eq))
    }

    /// The elements without the one that is looked for, which is present. It costs what `add` does.
    pub fn without<S: Seek<T>>(&self, alloc: Global, sought: &S) -> Result<HashTree<T, H>, Memory>
        requires alike { (x : T) → S.meets sought.now x ≡ true → S.hash sought.now ≡ H.hash
            self.now.eq x }
        requires alone { (x y : T) → S.meets sought.now x ≡ true → S.meets sought.now y ≡ true →
            H.same self.now.eq x y ≡ true }
        requires there { list_any (S.meets sought.now) self.now.items ≡ true }
        ensures items { IfOk result (λ t. t.items ≡ others (S.meets sought.now) self.now.items) }
        ensures eq { IfOk result (λ t. t.eq ≡ self.now.eq) }
    {
        let eq = self.comparer();
        let count = self.count();
        let tree = without_met(alloc, self.tree(), sought, &eq)?;
        Ok(HashTree::of_tree(tree, count - 1, eq))
    }
}

// The buckets with the value, in place of the same element where it is present.
fn with_value<T: Key, H: HashEq<T>>(
    alloc: Global,
    tree: &Tree<Bucket<T>>,
    value: T,
    eq: &H,
) -> Result<Tree<Bucket<T>>, Memory>
    requires are { AreBuckets T.cmp (H.same eq.now) (H.hash eq.now) tree.now.items }
    requires count_fits { Fits (length tree.now.items + 1) }
    ensures buckets { IfOk result (λ t. AreBuckets T.cmp (H.same eq.now) (H.hash eq.now) t.items) }
    ensures items { IfOk result (λ t. elements t.items ≡ with_same (hash_order T.cmp (H.hash
        eq.now)) (H.same eq.now) value (elements tree.now.items)) }
{
    let at = AtHash::of(&SameAs {
        value: &value,
        eq: *eq,
    });
    match locate(tree, &at) {
        Ok((place, bucket)) => {
            let bucket = bucket.put(alloc, value, eq)?;
            tree.replaced(alloc, place, bucket)
        }
        Err(place) => {
            let bucket = Bucket::one(alloc, at.hash, value)?;
            tree.inserted(alloc, place, bucket)
        }
    }
}

// The buckets without the elements that are looked for.
fn without_met<T: Key, H: HashEq<T>, S: Seek<T>>(
    alloc: Global,
    tree: &Tree<Bucket<T>>,
    sought: &S,
    _eq: &H,
) -> Result<Tree<Bucket<T>>, Memory>
    requires are { AreBuckets T.cmp (H.same _eq.now) (H.hash _eq.now) tree.now.items }
    requires count_fits { Fits (length tree.now.items) }
    requires alike { (x : T) → S.meets sought.now x ≡ true → S.hash sought.now ≡ H.hash _eq.now x }
    ensures buckets { IfOk result (λ t. AreBuckets T.cmp (H.same _eq.now) (H.hash _eq.now)
        t.items) }
    ensures items { IfOk result (λ t. elements t.items ≡ others (S.meets sought.now) (elements
        tree.now.items)) }
{
    let at = AtHash::of(sought);
    let Ok((place, bucket)) = locate(tree, &at) else {
        return tree.share();
    };
    let rest = bucket.without_met(alloc, sought)?;
    if rest.is_empty() {
        tree.removed(alloc, place)
    } else {
        tree.replaced(alloc, place, rest)
    }
}
