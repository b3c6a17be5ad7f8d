// The set, and the tree that holds it.
ghost use Rattle.std.specs.Prelude.{◌≡◌, length, [], IfOk};
ghost use Rattle.std.specs.Ordering.{eq_by_cmp};
ghost use Rattle.imm_base.specs.Kept.{IsSet, Rises};
ghost use Rattle.imm_base.specs.Lists.{clear};
ghost use Rattle.sorted_sets.specs.Answers.{Answers};

use avl_node::Tree;
use imm_base::{Edit, Item, Memory, Order};
use std::alloc::Global;
use std::marker::Model;

/// A persistent set, kept in an order. Elements that compare equal are one element of the set. Two
/// sets may share nodes, also in different threads.
///
/// A changing call answers `Edit::Same` where the set stays as it is, and otherwise another set,
/// kept in the same order; this one stays in any case.
#[derive(Drop)]
pub struct SortedSet<T, O: Order<T>> {
    tree: Tree<T>,
    order: O,
}

impl<T, O: Order<T>> Model for SortedSet<T, O> {
    ghost use Rattle.sorted_sets.specs.Ordered.{Ordered, ordered_code};

    ghost Value = { Ordered T O };

    ghost coded = { ordered_code T.code O.code };

    ghost use Rattle.std.specs.Ordering.{eq_by_cmp};
    ghost use Rattle.imm_base.specs.Kept.{IsSet};

    ghost view = { λ a. record { order = a.order; items = a.tree.items } };

    ghost invariant = { λ a. IsSet (O.order a.order) (eq_by_cmp (O.order a.order)) a.tree.items };
}

impl<T, O: Order<T>> SortedSet<T, O> {
    /// The empty set, to be kept in this order. O(1).
    pub fn new(order: O) -> SortedSet<T, O>
        ensures items { result.items ≡ [] }
        ensures order { result.order ≡ order }
    {
        SortedSet {
            tree: Tree::new(),
            order,
        }
    }

    /// The set that a tree holds, whose elements rise strictly in the order.
    pub fn of_tree(tree: Tree<T>, order: O) -> SortedSet<T, O>
        requires { Rises (O.order order) tree.items }
        ensures items { result.items ≡ tree.items }
        ensures order { result.order ≡ order }
    {
        SortedSet { tree, order }
    }

    /// The tree that holds the elements.
    pub fn tree(&self) -> &Tree<T>
        ensures items { result.now.items ≡ self.now.items }
        ensures set { IsSet (O.order self.now.order)
            (eq_by_cmp (O.order self.now.order)) self.now.items }
    {
        &self.tree
    }

    /// The order in which the set is kept.
    pub fn order(&self) -> O
        ensures { result ≡ self.now.order }
    {
        self.order
    }

    /// How many elements there are. O(1).
    pub fn count(&self) -> u32
        ensures { result ≡ length self.now.items }
    {
        self.tree().count()
    }

    /// An equal set that shares the nodes. O(1).
    pub fn share(&self) -> Result<SortedSet<T, O>, Memory>
        ensures { IfOk result (λ set. set ≡ self.now) }
    {
        let tree = self.tree().share()?;
        Ok(SortedSet::of_tree(tree, self.order()))
    }
}

impl<T: Drop, O: Order<T>> SortedSet<T, O> {
    /// The empty set of the same order. O(1), besides the nodes that nobody shares.
    pub fn clear(&self) -> Edit<SortedSet<T, O>>
        ensures { Answers self.now.order (Ok result) (clear self.now.items) }
    {
        if self.count() == 0 {
            Edit::Same
        } else {
            Edit::New(SortedSet::new(self.order()))
        }
    }
}

impl<T: Item, O: Order<T>> SortedSet<T, O> {
    /// Copies of the elements. O(n).
    pub fn to_vec(&self, alloc: Global) -> Result<Vec<T>, Memory>
        ensures { IfOk result (λ v. v.items ≡ self.now.items) }
    {
        self.tree().to_vec(alloc)
    }
}
