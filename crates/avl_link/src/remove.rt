// The removal of an element of a link, in place.
ghost use Rattle.std.specs.Prelude.{◌≡◌, ◌≤◌, ◌+◌, ◌<◌, ◌∷◌, true, length, remove, is_ok, if◌then◌else◌, IfOk, OnOk, OnErr};
ghost use Rattle.imm_base.specs.Lists.{list_remove_at};
ghost use Rattle.avl_node.specs.Shape.{Fits};
ghost use Rattle.avl_link.specs.Changes.{Changes};

use crate::link::{Link, Own};
use crate::turn::rebalance;
use avl_node::TreeFault;
use imm_base::{Item, Memory};
use std::alloc::Global;
use std::mem;

impl<T: Item> Link<T> {
    /// Takes out the element at `index`. O(log n).
    pub fn remove_own(&mut self, alloc: Global, index: u32) -> Result<(), TreeFault>
        ensures { Changes result self.old.items self.new.items
            (list_remove_at index self.old.items) }
    {
        let count = self.count();
        if index >= count {
            return Err(TreeFault::OutOfRange { index, count });
        }
        Ok(self.remove_within(alloc, index)?)
    }

    /// `remove_own` where the element is there. Before anything changes, the side that may have to
    /// turn is made private.
    #[tactic(auto, using(avl_node::proofs::Edits::edits))]
    pub fn remove_within(&mut self, alloc: Global, index: u32) -> Result<(), Memory>
        requires in_range { index < length self.old.items }
        requires count_fits { Fits (length self.old.items) }
        ensures items { self.new.items ≡
            (if is_ok result then remove self.old.items index else self.old.items) }
        ensures not_higher { self.new.height ≤ self.old.height }
        ensures at_most_one_lower { self.old.height ≤ self.new.height + 1 }
    {
        let is_empty = self.is_empty();
        prove!(!is_empty);
        self.own_root(alloc)?;
        let mut node = mem::replace(self, Link::new()).into_own();
        let before = node.left.count();
        if index < before {
            let left_height = node.left.height();
            if let Err(memory) = node.right.make_steady(alloc, left_height) {
                *self = Link::of_own(node);
                return Err(memory);
            }
            let answer = node.left.remove_within(alloc, index);
            *self = Link::of_own(rebalance(node));
            return answer;
        }
        let right_height = node.right.height();
        if let Err(memory) = node.left.make_steady(alloc, right_height) {
            *self = Link::of_own(node);
            return Err(memory);
        }
        if index > before {
            let answer = node.right.remove_within(alloc, index - before - 1);
            *self = Link::of_own(rebalance(node));
            return answer;
        }
        if node.right.is_empty() {
            *self = mem::replace(&mut node.left, Link::new());
            return Ok(());
        }
        match node.right.take_first(alloc) {
            Ok(first) => {
                node.value = first;
                *self = Link::of_own(rebalance(node));
                Ok(())
            }
            Err(memory) => {
                *self = Link::of_own(rebalance(node));
                Err(memory)
            }
        }
    }

    // Takes out the first element.
    fn take_first(&mut self, alloc: Global) -> Result<T, Memory>
        requires some { 0 < self.old.height }
        requires count_fits { Fits (length self.old.items) }
        ensures ok { IfOk result (λ first. self.old.items ≡ first ∷ self.new.items) }
        ensures err { OnErr result (self.new.items ≡ self.old.items) }
        ensures not_higher { self.new.height ≤ self.old.height }
        ensures at_most_one_lower { self.old.height ≤ self.new.height + 1 }
    {
        self.own_root(alloc)?;
        let mut node = mem::replace(self, Link::new()).into_own();
        if node.left.is_empty() {
            let Own { value, right, .. } = Box::into_inner(node);
            *self = right;
            return Ok(value);
        }
        let left_height = node.left.height();
        if let Err(memory) = node.right.make_steady(alloc, left_height) {
            *self = Link::of_own(node);
            return Err(memory);
        }
        let answer = node.left.take_first(alloc);
        *self = Link::of_own(rebalance(node));
        answer
    }

    // Makes the root and its higher side owned, where the link is higher than the one beside it.
    fn make_steady(&mut self, alloc: Global, beside: u32) -> Result<(), Memory>
        ensures owned { OnOk result (beside < self.old.height → self.new.is_owned ≡ true) }
        ensures ready { OnOk result (beside < self.old.height → self.new.is_ready ≡ true) }
        ensures items { self.new.items ≡ self.old.items }
        ensures height { self.new.height ≡ self.old.height }
    {
        if self.height() <= beside {
            return Ok(());
        }
        self.make_ready(alloc)
    }

    // Makes the root and its higher side owned.
    #[tactic(auto, using(crate::proofs::Ready::ready))]
    fn make_ready(&mut self, alloc: Global) -> Result<(), Memory>
        requires { 0 < self.old.height }
        ensures owned { OnOk result (self.new.is_owned ≡ true) }
        ensures ready { OnOk result (self.new.is_ready ≡ true) }
        ensures items { self.new.items ≡ self.old.items }
        ensures height { self.new.height ≡ self.old.height }
    {
        self.own_root(alloc)?;
        let mut node = mem::replace(self, Link::new()).into_own();
        let left_height = node.left.height();
        let right_height = node.right.height();
        if left_height > right_height {
            if let Err(memory) = node.left.own_root(alloc) {
                *self = Link::of_own(node);
                return Err(memory);
            }
            *self = Link::of_own(node);
            return Ok(());
        }
        if right_height > left_height {
            if let Err(memory) = node.right.own_root(alloc) {
                *self = Link::of_own(node);
                return Err(memory);
            }
            *self = Link::of_own(node);
            return Ok(());
        }
        *self = Link::of_own(node);
        Ok(())
    }
}
