// A link made from a tree, and the tree that a link becomes.
ghost use Rattle.std.specs.Prelude.{◌≡◌, ◌∷◌, ◌++◌, length, IfOk};
ghost use Rattle.avl_node.specs.Shape.{DifferByAtMost, Fits, IsNodeOf};

use crate::link::{Form, Link, Own};
use avl_node::Tree;
use imm_base::{Item, Memory};
use std::alloc::Global;

impl<T: Item> Link<T> {
    /// The tree's list. All its nodes stay shared until they are changed. O(1).
    pub fn of_tree(tree: &Tree<T>) -> Result<Link<T>, Memory>
        ensures { IfOk result (λ link. link.items ≡ tree.now.items) }
    {
        Ok(Link::of_frozen(tree.share()?))
    }

    /// The list as a tree of shared nodes. The link keeps the list, also where memory is refused;
    /// its nodes may then be partly frozen. O(k), where k nodes were made since the last freeze.
    pub fn freeze(&mut self, alloc: Global) -> Result<Tree<T>, Memory>
        ensures tree { IfOk result (λ t. t.items ≡ self.new.items) }
        ensures same_height { IfOk result (λ t. t.height ≡ self.new.height) }
        ensures items { self.new.items ≡ self.old.items }
        ensures height { self.new.height ≡ self.old.height }
    {
        let _count = self.count();
        match &mut self.form {
            Form::Empty => Ok(Tree::new()),
            Form::Frozen(tree) => tree.share(),
            Form::Owned(node) => {
                let own: &mut Own<T> = &mut *node;
                let left = own.left.freeze(alloc)?;
                let right = own.right.freeze(alloc)?;
                let (kept, given) = frozen_twice(alloc, left, &own.value, right)?;
                self.form = Form::Frozen(kept);
                Ok(given)
            }
        }
    }
}

// Two owners of the node with these sides.
fn frozen_twice<T: Item>(
    alloc: Global,
    left: Tree<T>,
    value: &T,
    right: Tree<T>,
) -> Result<(Tree<T>, Tree<T>), Memory>
    requires balanced { DifferByAtMost 1 left.height right.height }
    requires count_fits { Fits (length (left.items ++ value.now ∷ right.items)) }
    ensures kept { IfOk result (λ p. IsNodeOf p.0 left value.now right) }
    ensures given { IfOk result (λ p. p.1 ≡ p.0) }
{
    let tree = Tree::fork(alloc, left, value.dup(alloc)?, right)?;
    Ok((tree.share()?, tree))
}
