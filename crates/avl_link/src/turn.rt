// Owned nodes put in order. It needs no memory, since every node that turns is owned.
ghost use Rattle.std.specs.Prelude.{◌≡◌, ◌≤◌, ◌+◌, ◌<◌, true, max, length};
ghost use Rattle.avl_node.specs.Shape.{DifferByAtMost, Fits, IsHeightAfterRebalance};
ghost use Rattle.avl_link.specs.Shape.{held_own, items_of, IsAvlNode};

use crate::link::{Link, Own};
use std::mem;

/// The node in order, turned where one side is two levels higher.
pub(crate) fn rebalance<T: Drop>(node: Box<Own<T>>) -> Box<Own<T>>
    requires near { DifferByAtMost 2 node.value.left.height node.value.right.height }
    requires count_fits { Fits (length (items_of node.value.left node.value.value node.value.right)) }
    requires left_ready { node.value.right.height + 1 < node.value.left.height
        → (node.value.left.is_owned ≡ true) × (node.value.left.is_ready ≡ true) }
    requires right_ready { node.value.left.height + 1 < node.value.right.height
        → (node.value.right.is_owned ≡ true) × (node.value.right.is_ready ≡ true) }

    // The same list, as an AVL node.
    ensures balanced { IsAvlNode result.value }
    ensures items { (held_own result.value).items
        ≡ items_of node.value.left node.value.value node.value.right }
    ensures height { IsHeightAfterRebalance node.value.left.height node.value.right.height result.value.height }

    // It has the same sides, or it was turned and is ready.
    ensures level { DifferByAtMost 1 node.value.left.height node.value.right.height
        → (result.value.left ≡ node.value.left) × (result.value.right ≡ node.value.right) }
    ensures turned_right { node.value.right.height + 1 < node.value.left.height
        → (held_own result.value).is_ready ≡ true }
    ensures turned_left { node.value.left.height + 1 < node.value.right.height
        → (held_own result.value).is_ready ≡ true }
{
    let left_height = node.left.height();
    let right_height = node.right.height();
    if left_height > right_height + 1 {
        lean_left(node)
    } else if right_height > left_height + 1 {
        lean_right(node)
    } else {
        let (node, left, right) = apart(node);
        with_sides(node, left, right)
    }
}

// The node and its sides.
fn apart<T: Drop>(mut node: Box<Own<T>>) -> (Box<Own<T>>, Link<T>, Link<T>)
    ensures value { result.0.value.value ≡ node.value.value }
    ensures left { result.1 ≡ node.value.left }
    ensures right { result.2 ≡ node.value.right }
{
    let left = mem::replace(&mut node.left, Link::new());
    let right = mem::replace(&mut node.right, Link::new());
    (node, left, right)
}

// The node with other sides.
pub(crate) fn with_sides<T: Drop>(
    mut node: Box<Own<T>>,
    left: Link<T>,
    right: Link<T>,
) -> Box<Own<T>>
    requires balanced { DifferByAtMost 1 left.height right.height }
    requires count_fits { Fits (length (items_of left node.value.value right)) }
    ensures balanced { IsAvlNode result.value }
    ensures value { result.value.value ≡ node.value.value }
    ensures left { result.value.left ≡ left }
    ensures right { result.value.right ≡ right }
{
    set_sides(&mut *node, left, right);
    node
}

fn set_sides<T: Drop>(node: &mut Own<T>, left: Link<T>, right: Link<T>)
    requires balanced { DifferByAtMost 1 left.height right.height }
    requires count_fits { Fits (length (items_of left node.old.value right)) }
    ensures balanced { IsAvlNode node.new }
    ensures value { node.new.value ≡ node.old.value }
    ensures left { node.new.left ≡ left }
    ensures right { node.new.right ≡ right }
{
    node.height = left.height().max(right.height()) + 1;
    node.count = left.count() + 1 + right.count();
    node.left = left;
    node.right = right;
}

// The left side is two levels higher.
#[tactic(auto, using(avl_node::proofs::Turns::turns, crate::proofs::Ready::ready))]
fn lean_left<T: Drop>(node: Box<Own<T>>) -> Box<Own<T>>
    requires two_higher { node.value.left.height ≡ node.value.right.height + 2 }
    requires count_fits { Fits (length (items_of node.value.left node.value.value node.value.right)) }
    requires owned { node.value.left.is_owned ≡ true }
    requires ready { node.value.left.is_ready ≡ true }
    ensures balanced { IsAvlNode result.value }
    ensures items { (held_own result.value).items
        ≡ items_of node.value.left node.value.value node.value.right }
    ensures height { IsHeightAfterRebalance node.value.left.height node.value.right.height result.value.height }
    ensures ready { (held_own result.value).is_ready ≡ true }
{
    let (node, top, right) = apart(node);
    let (top, outer, inner) = apart(top.into_own());
    if outer.height() >= inner.height() {
        let lower = with_sides(node, inner, right);
        return with_sides(top, outer, Link::of_own(lower));
    }
    let (middle, before, after) = apart(inner.into_own());
    let left = with_sides(top, outer, before);
    let right = with_sides(node, after, right);
    with_sides(middle, Link::of_own(left), Link::of_own(right))
}

// The right side is two levels higher.
#[tactic(auto, using(avl_node::proofs::Turns::turns, crate::proofs::Ready::ready))]
fn lean_right<T: Drop>(node: Box<Own<T>>) -> Box<Own<T>>
    requires two_higher { node.value.right.height ≡ node.value.left.height + 2 }
    requires count_fits { Fits (length (items_of node.value.left node.value.value node.value.right)) }
    requires owned { node.value.right.is_owned ≡ true }
    requires ready { node.value.right.is_ready ≡ true }
    ensures balanced { IsAvlNode result.value }
    ensures items { (held_own result.value).items
        ≡ items_of node.value.left node.value.value node.value.right }
    ensures height { IsHeightAfterRebalance node.value.left.height node.value.right.height result.value.height }
    ensures ready { (held_own result.value).is_ready ≡ true }
{
    let (node, left, top) = apart(node);
    let (top, inner, outer) = apart(top.into_own());
    if outer.height() >= inner.height() {
        let lower = with_sides(node, left, inner);
        return with_sides(top, Link::of_own(lower), outer);
    }
    let (middle, before, after) = apart(inner.into_own());
    let left = with_sides(node, left, before);
    let right = with_sides(top, after, outer);
    with_sides(middle, Link::of_own(left), Link::of_own(right))
}
