// The tree of buckets. All other calls go by those of this file.
ghost use Rattle.std.specs.Prelude.{◌≡◌, [], length, IfOk};
ghost use Rattle.imm_base.specs.Kept.{IsSet};
ghost use Rattle.hash_bucket.specs.Buckets.{AreBuckets, AreCounted, elements, hash_order};

use crate::bucket::Bucket;
use avl_node::Tree;
use imm_base::{HashEq, Key, Memory};
use std::marker::Model;

/// Elements of which no two are same under an equality, by hash and then in their own order. Two
/// trees may share nodes, also in different threads.
///
/// A changing call answers `Edit::Same` where the elements stay as they are, and otherwise another
/// tree; this one stays in any case. Contracts see the elements and the equality.
#[derive(Drop)]
pub struct HashTree<T: Key, H: HashEq<T>> {
    tree: Tree<Bucket<T>>,
    count: u32,
    eq: H,
}

impl<T: Key, H: HashEq<T>> Model for HashTree<T, H> {
    ghost use Rattle.hash_bucket.specs.Hashed.{Hashed, hashed_code};

    ghost Value = { Hashed T H };

    ghost coded = { hashed_code T.code H.code };

    ghost use Rattle.hash_bucket.specs.Buckets.{AreCounted, elements};

    ghost view = { λ a. record { eq = a.eq; items = elements a.tree.items } };

    ghost invariant = { λ a. AreCounted T.cmp (H.same a.eq) (H.hash a.eq) a.tree.items a.count };
}

impl<T: Key, H: HashEq<T>> HashTree<T, H> {
    /// The tree of no elements, under this equality. O(1).
    pub fn new(eq: H) -> HashTree<T, H>
        ensures items { result.items ≡ [] }
        ensures eq { result.eq ≡ eq }
    {
        HashTree {
            tree: Tree::new(),
            count: 0,
            eq,
        }
    }

    /// The elements of these buckets, of which there are `count`. O(1).
    pub fn of_tree(tree: Tree<Bucket<T>>, count: u32, eq: H) -> HashTree<T, H>
        requires buckets { AreBuckets T.cmp (H.same eq) (H.hash eq) tree.items }
        requires counted { count ≡ length (elements tree.items) }
        ensures items { result.items ≡ elements tree.items }
        ensures eq { result.eq ≡ eq }
    {
        HashTree { tree, count, eq }
    }

    /// The buckets. O(1).
    pub fn tree(&self) -> &Tree<Bucket<T>>
        ensures items { elements result.now.items ≡ self.now.items }
        ensures buckets { AreBuckets T.cmp (H.same self.now.eq) (H.hash self.now.eq)
            result.now.items }
    {
        &self.tree
    }

    /// The equality that says which elements are same. O(1).
    pub fn comparer(&self) -> H
        ensures { result ≡ self.now.eq }
    {
        self.eq
    }

    /// How many elements there are. O(1).
    pub fn count(&self) -> u32
        ensures count { result ≡ length self.now.items }
        ensures set { IsSet (hash_order T.cmp (H.hash self.now.eq)) (H.same self.now.eq)
            self.now.items }
    {
        self.count
    }

    /// Equal elements, which share the nodes. O(1).
    pub fn share(&self) -> Result<HashTree<T, H>, Memory>
        ensures { IfOk result (λ t. t ≡ self.now) }
    {
        let tree = self.tree().share()?;
        Ok(HashTree::of_tree(tree, self.count(), self.comparer()))
    }
}
