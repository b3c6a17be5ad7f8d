// A tree whose nodes are private, or shared and frozen.
ghost use Rattle.std.specs.Prelude.{◌≡◌, ◌≤◌, ◌-◌, ◌↔◌, IsTrue, true, length, [], slice_get};
ghost use Rattle.std.specs.Option.{option_copied};
ghost use Rattle.avl_node.specs.Shape.{least_count};
ghost use Rattle.avl_link.specs.Shape.{held_own, IsAvlNode};

use avl_node::Tree;
use std::marker::Model;

/// A list under construction. Each of its nodes is private, and is changed in place, or is shared
/// with frozen trees, and is copied before it is changed.
///
/// Contracts see its list and its height, whether its root is private, and whether the root's
/// higher side is private too. The last two decide which nodes may turn without memory.
#[cycle(link)]
#[derive(Drop)]
pub struct Link<T> {
    pub(crate) form: Form<T>,
}

#[cycle(link)]
#[derive(Drop)]
pub(crate) enum Form<T> {
    Empty,
    Owned(Box<Own<T>>),
    Frozen(Tree<T>),
}

#[cycle(link)]
#[derive(Drop)]
pub(crate) struct Own<T> {
    pub(crate) left: Link<T>,
    pub(crate) value: T,
    pub(crate) right: Link<T>,
    pub(crate) height: u32,
    pub(crate) count: u32,
}

impl<T> Model for Link<T> {
    ghost use Rattle.std.specs.Prelude.{length};
    ghost use Rattle.avl_link.specs.Held.{Held, held_code};

    ghost Value = { Held T };

    ghost coded = { held_code T.code };

    ghost use Rattle.avl_link.specs.Shape.{held, IsAvl};

    ghost view = { λ a. held a.form };

    ghost invariant = { λ a. IsAvl a.form };

    ghost size = { λ d. length d.items };

    ghost use Rattle.std.proofs.Common.{arith, length-append};

    ghost size_decreases = { λ a h. Prim.grind (arith, length-append) };
}

impl<T> Link<T> {
    /// The empty list. O(1).
    pub fn new() -> Link<T>
        ensures items { result.items ≡ [] }
        ensures height { result.height ≡ 0 }
    {
        Link { form: Form::Empty }
    }

    /// How many elements there are. O(1).
    pub fn count(&self) -> u32
        ensures { result ≡ length self.now.items }
    {
        match &self.form {
            Form::Empty => 0,
            Form::Owned(node) => node.count,
            Form::Frozen(tree) => tree.count(),
        }
    }

    /// The number of nodes on the longest way down. O(1).
    #[tactic(auto, using(avl_node::proofs::Height::height_bounds), unfolding(avl_node::specs::Shape::least_count))]
    pub fn height(&self) -> u32
        ensures answer { result ≡ self.now.height }
        ensures full { least_count self.now.height ≤ length self.now.items }
        ensures within { self.now.height ≤ length self.now.items }
    {
        match &self.form {
            Form::Empty => 0,
            Form::Owned(node) => node.height,
            Form::Frozen(tree) => tree.height(),
        }
    }

    /// Whether there is no element. O(1).
    pub fn is_empty(&self) -> bool
        ensures items { IsTrue result ↔ (self.now.items ≡ []) }
        ensures height { IsTrue result ↔ (self.now.height ≡ 0) }
    {
        match &self.form {
            Form::Empty => true,
            Form::Owned(_) => false,
            Form::Frozen(tree) => tree.is_empty(),
        }
    }

    /// The element at the index, if there is one. O(log n).
    pub fn at(&self, index: u32) -> Option<&T>
        ensures { option_copied result ≡ slice_get self.now.items index }
    {
        match &self.form {
            Form::Empty => None,
            Form::Frozen(tree) => tree.at(index),
            Form::Owned(node) => {
                let before = node.left.count();
                if index < before {
                    node.left.at(index)
                } else if index == before {
                    Some(&node.value)
                } else {
                    node.right.at(index - before - 1)
                }
            }
        }
    }

    /// The first element, if there is one. O(log n).
    pub fn first(&self) -> Option<&T>
        ensures { option_copied result ≡ slice_get self.now.items 0 }
    {
        self.at(0)
    }

    /// The last element, if there is one. O(log n).
    pub fn last(&self) -> Option<&T>
        ensures { option_copied result ≡ slice_get self.now.items (length self.now.items - 1) }
    {
        self.at(self.count().saturating_sub(1))
    }
}

impl<T> Link<T> {
    pub(crate) fn of_own(node: Box<Own<T>>) -> Link<T>
        requires { IsAvlNode node.value }
        ensures { result ≡ held_own node.value }
    {
        Link {
            form: Form::Owned(node),
        }
    }

    /// The list of a tree, whose nodes stay shared until they are changed. O(1).
    pub fn of_frozen(tree: Tree<T>) -> Link<T>
        ensures items { result.items ≡ tree.items }
        ensures height { result.height ≡ tree.height }
    {
        Link {
            form: Form::Frozen(tree),
        }
    }
}

impl<T: Drop> Link<T> {
    pub(crate) fn into_own(self) -> Box<Own<T>>
        requires { self.is_owned ≡ true }
        ensures same { held_own result.value ≡ self }
        ensures balanced { IsAvlNode result.value }
    {
        match self.form {
            Form::Owned(node) => node,
            _ => unreachable!(),
        }
    }
}
