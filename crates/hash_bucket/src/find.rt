// What is looked for in a tree of buckets.
ghost use Rattle.std.specs.Prelude.{◌≡◌, find, true, MatchResult};
ghost use Rattle.std.specs.List.{list_any};
ghost use Rattle.std.specs.Option.{option_copied};
ghost use Rattle.std.specs.Ordering.{int_cmp};
ghost use Rattle.imm_base.specs.Sets.{has, same_in};
ghost use Rattle.imm_base.specs.Kept.{Rises};
ghost use Rattle.hash_bucket.specs.Buckets.{bucket_cmp};
ghost use Rattle.hash_bucket.specs.Places.{IsBucketAt, IsNoBucketAt};

use crate::bucket::Bucket;
use crate::seek::{SameAs, Seek};
use crate::tree::HashTree;
use avl_node::{Probe, Tree};
use imm_base::{HashEq, Key, Test};
use std::cmp::Ordering;

// A hash that is looked for among buckets.
#[derive(Drop)]
pub(crate) struct AtHash {
    pub(crate) hash: i32,
}

impl AtHash {
    // The hash of what is looked for.
    pub(crate) fn of<T, S: Seek<T>>(sought: &S) -> AtHash
        ensures { result.hash ≡ S.hash sought.now }
    {
        AtHash {
            hash: sought.hash(),
        }
    }
}

impl<T> Probe<Bucket<T>> for AtHash {
    ghost side = { λ at b. int_cmp b.hash at.hash };

    fn side(&self, bucket: &Bucket<T>) -> Ordering {
        bucket.hash().cmp(&self.hash)
    }
}

// The place of the bucket of a hash, with that bucket, or the place that it would have.
pub(crate) fn locate<'a, T: Key>(
    tree: &'a Tree<Bucket<T>>,
    at: &AtHash,
) -> Result<(u32, &'a Bucket<T>), u32>
    requires { Rises bucket_cmp tree.now.items }
    ensures { MatchResult result (λ r. IsBucketAt at.now.hash tree.now.items r.1.now r.0) (λ i.
        IsNoBucketAt at.now.hash tree.now.items i) }
{
    tree.locate(at)
}

// Whether some element of a bucket passes a test.
#[derive(Drop)]
struct InBucket<'a, Q> {
    test: &'a Q,
}

impl<T, Q: Test<T>> Test<Bucket<T>> for InBucket<'_, Q> {
    ghost passes = { λ within b. list_any (Q.passes within.test.now) b.items };

    fn holds(&self, bucket: &Bucket<T>) -> bool {
        bucket.items().iter().any(|item| self.test.holds(item))
    }
}

impl<T: Key, H: HashEq<T>> HashTree<T, H> {
    /// The element that is looked for, where all that pass the test have its hash. It tests elements of
    /// one bucket alone, each no more than once, which no clause says. O(log n + k) for n elements, of
    /// which k have the hash.
    pub fn find_where<S: Seek<T>>(&self, sought: &S) -> Option<&T>
        requires { (x : T) → S.meets sought.now x ≡ true → S.hash sought.now ≡ H.hash self.now.eq
            x }
        ensures { option_copied result ≡ find (S.meets sought.now) self.now.items }
    {
        let at = AtHash::of(sought);
        match locate(self.tree(), &at) {
            Ok((_, bucket)) => bucket.find(sought),
            Err(_) => None,
        }
    }

    /// Whether an element is looked for. It costs what `find_where` does.
    pub fn has_where<S: Seek<T>>(&self, sought: &S) -> bool
        requires { (x : T) → S.meets sought.now x ≡ true → S.hash sought.now ≡ H.hash self.now.eq
            x }
        ensures { result ≡ list_any (S.meets sought.now) self.now.items }
    {
        self.find_where(sought).is_some()
    }

    /// The element that is same to the value. It costs what `find_where` does.
    pub fn find(&self, value: &T) -> Option<&T>
        ensures { option_copied result ≡ same_in (H.same self.now.eq) value.now self.now.items }
    {
        let eq = self.comparer();
        self.find_where(&SameAs { value, eq })
    }

    /// Whether an element is same to the value. It costs what `find_where` does.
    pub fn has(&self, value: &T) -> bool
        ensures { result ≡ has (H.same self.now.eq) value.now self.now.items }
    {
        let eq = self.comparer();
        self.has_where(&SameAs { value, eq })
    }

    /// Whether some element passes the test, in O(n).
    pub fn any<Q: Test<T>>(&self, test: &Q) -> bool
        ensures { result ≡ list_any (Q.passes test.now) self.now.items }
    {
        self.tree().any(&InBucket { test })
    }
}
