// The edits of a link: in place on owned nodes, after copies of the frozen ones on the way.
ghost use Rattle.std.specs.Prelude.{◌≡◌, ◌≤◌, ◌+◌, ◌<◌, [], ◌∷◌, true, length, insert, slice_set, is_ok, if◌then◌else◌, IfOk, OnOk};
ghost use Rattle.imm_base.specs.Lists.{list_insert, list_set_item};
ghost use Rattle.avl_node.specs.Shape.{Fits};
ghost use Rattle.avl_link.specs.Changes.{Changes};

use crate::link::{Form, Link, Own};
use crate::turn::{rebalance, with_sides};
use avl_node::{Tree, TreeFault};
use imm_base::{Item, LIMIT, Memory};
use std::alloc::Global;
use std::mem;

impl<T: Item> Link<T> {
    /// Puts the value before the element at `index`, which may be the count. O(log n).
    pub fn insert_own(&mut self, alloc: Global, index: u32, value: T) -> Result<(), TreeFault>
        ensures { Changes result self.old.items self.new.items
            (list_insert index value self.old.items) }
    {
        let count = self.count();
        if index > count {
            return Err(TreeFault::OutOfRange { index, count });
        }
        if count >= LIMIT {
            return Err(TreeFault::TooLarge { count });
        }
        Ok(self.insert_within(alloc, index, value)?)
    }

    /// Puts the value in place of the element at `index`. O(log n).
    pub fn replace_own(&mut self, alloc: Global, index: u32, value: T) -> Result<(), TreeFault>
        ensures { Changes result self.old.items self.new.items
            (list_set_item index value self.old.items) }
    {
        let count = self.count();
        if index >= count {
            return Err(TreeFault::OutOfRange { index, count });
        }
        Ok(self.replace_within(alloc, index, value)?)
    }

    /// `replace_own` where the element is there.
    #[tactic(auto, using(avl_node::proofs::Edits::edits))]
    pub fn replace_within(&mut self, alloc: Global, index: u32, value: T) -> Result<(), Memory>
        requires { index < length self.old.items }
        ensures items { self.new.items ≡
            (if is_ok result then slice_set self.old.items index value else self.old.items) }
        ensures height { self.new.height ≡ self.old.height }
    {
        let is_empty = self.is_empty();
        prove!(!is_empty);
        self.own_root(alloc)?;
        let mut node = mem::replace(self, Link::new()).into_own();
        let before = node.left.count();
        if index < before {
            let answer = node.left.replace_within(alloc, index, value);
            *self = Link::of_own(node);
            answer
        } else if index > before {
            let answer = node.right.replace_within(alloc, index - before - 1, value);
            *self = Link::of_own(node);
            answer
        } else {
            node.value = value;
            *self = Link::of_own(node);
            Ok(())
        }
    }

    /// `insert_own` where there is room. What grew is ready to be turned by the node above.
    #[tactic(auto, using(avl_node::proofs::Edits::edits, crate::proofs::Ready::ready))]
    pub fn insert_within(&mut self, alloc: Global, index: u32, value: T) -> Result<(), Memory>
        requires in_range { index ≤ length self.old.items }
        requires count_fits { Fits (length self.old.items + 1) }
        ensures items { self.new.items ≡
            (if is_ok result then insert self.old.items index value else self.old.items) }
        ensures not_lower { self.old.height ≤ self.new.height }
        ensures at_most_one_higher { self.new.height ≤ self.old.height + 1 }
        ensures owned { self.old.height < self.new.height → self.new.is_owned ≡ true }
        ensures ready { self.old.height < self.new.height → self.new.is_ready ≡ true }
    {
        if self.is_empty() {
            *self = Link::leaf(alloc, value)?;
            return Ok(());
        }
        self.own_root(alloc)?;
        let mut node = mem::replace(self, Link::new()).into_own();
        let before = node.left.count();
        if index <= before {
            let answer = node.left.insert_within(alloc, index, value);
            *self = Link::of_own(rebalance(node));
            answer
        } else {
            let answer = node.right.insert_within(alloc, index - before - 1, value);
            *self = Link::of_own(rebalance(node));
            answer
        }
    }

    // A list of one element.
    #[tactic(auto, using(crate::proofs::Ready::ready))]
    fn leaf(alloc: Global, value: T) -> Result<Link<T>, Memory>
        ensures items { IfOk result (λ link. link.items ≡ value ∷ []) }
        ensures height { IfOk result (λ link. link.height ≡ 1) }
        ensures owned { IfOk result (λ link. link.is_owned ≡ true) }
        ensures ready { IfOk result (λ link. link.is_ready ≡ true) }
    {
        let node = Own {
            left: Link::new(),
            value,
            right: Link::new(),
            height: 1,
            count: 1,
        };
        let node = Box::new(alloc, node)?;
        let node = with_sides(node, Link::new(), Link::new());
        Ok(Link::of_own(node))
    }

    // Makes the root an owned node, which takes memory where it is frozen.
    pub(crate) fn own_root(&mut self, alloc: Global) -> Result<(), Memory>
        requires { 0 < self.old.height }
        ensures owned { OnOk result (self.new.is_owned ≡ true) }
        ensures items { self.new.items ≡ self.old.items }
        ensures height { self.new.height ≡ self.old.height }
    {
        if let Form::Frozen(tree) = &self.form {
            *self = thawed(alloc, tree)?;
        }
        Ok(())
    }
}

// An owned node with the tree's sides, which stay frozen.
#[tactic(auto, using(avl_node::proofs::Height::height_bounds))]
fn thawed<T: Item>(alloc: Global, tree: &Tree<T>) -> Result<Link<T>, Memory>
    requires { 0 < tree.now.height }
    ensures items { IfOk result (λ link. link.items ≡ tree.now.items) }
    ensures height { IfOk result (λ link. link.height ≡ tree.now.height) }
    ensures owned { IfOk result (λ link. link.is_owned ≡ true) }
{
    let height = tree.height();
    let count = tree.count();
    let parts = tree.share()?.into_parts(alloc)?;
    let node = Own {
        left: Link::of_frozen(parts.left),
        value: parts.value,
        right: Link::of_frozen(parts.right),
        height,
        count,
    };
    Ok(Link::of_own(Box::new(alloc, node)?))
}
