// The map, and the tree that holds it. All other calls go by those of this file.
ghost use Rattle.std.specs.Prelude.{◌≡◌, [], length, IfOk, Ok};
ghost use Rattle.imm_base.specs.Lists.{clear};
ghost use Rattle.sorted_maps.specs.Answers.{Answers};
ghost use Rattle.sorted_maps.specs.Ordered.{KeysRise, entries};

use avl_node::Tree;
use imm_base::{Edit, Item, Memory, Order, Pair};
use std::marker::Model;

/// A persistent map whose keys rise in its order: keys are same where the order calls them equal.
/// Two maps may share nodes, also in different threads.
///
/// A changing call answers `Edit::Same` where the map stays as it is, and otherwise another map;
/// this one stays in any case. Contracts see the pairs and the order.
#[derive(Drop)]
pub struct SortedMap<K, V, O: Order<K>> {
    tree: Tree<Pair<K, V>>,
    order: O,
}

impl<K, V, O: Order<K>> Model for SortedMap<K, V, O> {
    ghost use Rattle.sorted_maps.specs.Ordered.{Ordered, KeysRise, entries};

    ghost Value = { Ordered K V O };

    ghost view = { λ a. record { order = a.order; pairs = entries a.tree.items } };

    ghost invariant = { λ a. KeysRise (O.order a.order) (entries a.tree.items) };
}

impl<K, V, O: Order<K>> SortedMap<K, V, O> {
    /// The empty map. O(1).
    pub fn new(order: O) -> SortedMap<K, V, O>
        ensures pairs { result.pairs ≡ [] }
        ensures order { result.order ≡ order }
    {
        SortedMap {
            tree: Tree::new(),
            order,
        }
    }

    /// The map that a tree holds.
    pub fn of_tree(tree: Tree<Pair<K, V>>, order: O) -> SortedMap<K, V, O>
        requires { KeysRise (O.order order) (entries tree.items) }
        ensures pairs { result.pairs ≡ entries tree.items }
        ensures order { result.order ≡ order }
    {
        SortedMap { tree, order }
    }

    /// The tree that holds the pairs.
    pub fn tree(&self) -> &Tree<Pair<K, V>>
        ensures pairs { entries result.now.items ≡ self.now.pairs }
        ensures rise { KeysRise (O.order self.now.order) self.now.pairs }
    {
        &self.tree
    }

    /// The order in which the keys rise.
    pub fn order(&self) -> O
        ensures { result ≡ self.now.order }
    {
        self.order
    }

    /// How many pairs there are. O(1).
    pub fn count(&self) -> u32
        ensures { result ≡ length self.now.pairs }
    {
        self.tree().count()
    }

    /// An equal map that shares the nodes. O(1).
    pub fn share(&self) -> Result<SortedMap<K, V, O>, Memory>
        ensures { IfOk result (λ map. map ≡ self.now) }
    {
        let tree = self.tree().share()?;
        Ok(SortedMap::of_tree(tree, self.order()))
    }
}

impl<K: Item, V: Item, O: Order<K>> SortedMap<K, V, O> {
    /// The empty map of the same order. O(1), besides the nodes that nobody shares.
    pub fn clear(&self) -> Edit<SortedMap<K, V, O>>
        ensures { Answers self.now.order (Ok result) (clear self.now.pairs) }
    {
        if self.count() == 0 {
            Edit::Same
        } else {
            Edit::New(SortedMap::new(self.order()))
        }
    }
}
