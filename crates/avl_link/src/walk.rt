// Walks over all elements of a link. A part that is frozen is walked as the tree that it is.
ghost use Rattle.std.specs.Prelude.{◌≡◌, ◌<◌, ◌≤◌, ◌++◌, length, position, not, IfOk, IfSome, OnOk};
ghost use Rattle.std.specs.List.{list_any, position_or_len, suffix_len};
ghost use Rattle.imm_base.specs.Lists.{last_position, is_unsorted};
ghost use Rattle.avl_node.specs.Ends.{is_last_greater, is_greater_than_first};

use crate::link::{Form, Link, Own};
use imm_base::{Item, Memory, Order, Test};
use std::alloc::Global;
use std::cmp::Ordering;

impl<T: Item> Link<T> {
    /// Copies of the elements. O(n).
    pub fn to_vec(&self, alloc: Global) -> Result<Vec<T>, Memory>
        ensures { IfOk result (λ v. v.items ≡ self.now.items) }
    {
        let mut copies = Vec::new(alloc);
        self.push_to(alloc, &mut copies)?;
        Ok(copies)
    }

    // Copies of the elements, behind those that are there.
    fn push_to(&self, alloc: Global, copies: &mut Vec<T>) -> Result<(), Memory>
        ensures { OnOk result (copies.new.items ≡ copies.old.items ++ self.now.items) }
    {
        match &self.form {
            Form::Empty => Ok(()),
            Form::Frozen(tree) => tree.push_to(alloc, copies),
            Form::Owned(held) => {
                let node: &Own<T> = held;
                node.left.push_to(alloc, copies)?;
                copies.push(node.value.dup(alloc)?)?;
                node.right.push_to(alloc, copies)
            }
        }
    }

    /// Whether some element passes the test. O(n).
    pub fn any<Q: Test<T>>(&self, test: &Q) -> bool
        ensures { result ≡ list_any (Q.passes test.now) self.now.items }
    {
        match &self.form {
            Form::Empty => false,
            Form::Frozen(tree) => tree.any(test),
            Form::Owned(held) => {
                let node: &Own<T> = held;
                if node.left.any(test) || test.holds(&node.value) {
                    return true;
                }
                node.right.any(test)
            }
        }
    }

    /// The first place whose element passes the test. O(n).
    pub fn position<Q: Test<T>>(&self, test: &Q) -> Option<u32>
        ensures place { result ≡ position (Q.passes test.now) self.now.items }
        ensures within { IfSome result (λ place. place < length self.now.items) }
    {
        let place = self.before_first(test);
        if place < self.count() {
            Some(place)
        } else {
            None
        }
    }

    /// The last place whose element passes the test. O(n).
    pub fn last_position<Q: Test<T>>(&self, test: &Q) -> Option<u32>
        ensures { result ≡ last_position (Q.passes test.now) self.now.items }
    {
        let behind = self.behind_last(test);
        let count = self.count();
        if behind < count {
            Some(count - 1 - behind)
        } else {
            None
        }
    }

    // How many elements stand before the first that passes the test.
    #[tactic(auto, using(avl_node::proofs::Walks::firsts))]
    fn before_first<Q: Test<T>>(&self, test: &Q) -> u32
        ensures place { result ≡ position_or_len (Q.passes test.now) self.now.items }
        ensures within { result ≤ length self.now.items }
    {
        // (for the proof alone: that the count fits 32 bits)
        let _count = self.count();
        match &self.form {
            Form::Empty => 0,
            Form::Frozen(tree) => tree.before_first(test),
            Form::Owned(held) => {
                let node: &Own<T> = held;
                let before = node.left.count();
                let place = node.left.before_first(test);
                if place < before {
                    return place;
                }
                if test.holds(&node.value) {
                    return before;
                }
                before + 1 + node.right.before_first(test)
            }
        }
    }

    // How many elements stand behind the last that passes the test.
    #[tactic(auto, using(avl_node::proofs::Walks::lasts))]
    fn behind_last<Q: Test<T>>(&self, test: &Q) -> u32
        ensures place { result ≡ suffix_len (λ x. not (Q.passes test.now x)) self.now.items }
        ensures within { result ≤ length self.now.items }
    {
        // (for the proof alone: that the count fits 32 bits)
        let _count = self.count();
        match &self.form {
            Form::Empty => 0,
            Form::Frozen(tree) => tree.behind_last(test),
            Form::Owned(held) => {
                let node: &Own<T> = held;
                let after = node.right.count();
                let place = node.right.behind_last(test);
                if place < after {
                    return place;
                }
                if test.holds(&node.value) {
                    return after;
                }
                after + 1 + node.left.behind_last(test)
            }
        }
    }

    /// Whether no element is greater than the next. O(n).
    pub fn is_sorted<O: Order<T>>(&self, order: &O) -> bool
        ensures { result ≡ not (is_unsorted (O.order order.now) self.now.items) }
    {
        !self.is_unsorted(order)
    }

    // Whether some element is greater than the next.
    #[tactic(auto, using(avl_node::proofs::Sortedness::unsorted))]
    fn is_unsorted<O: Order<T>>(&self, order: &O) -> bool
        ensures { result ≡ is_unsorted (O.order order.now) self.now.items }
    {
        match &self.form {
            Form::Empty => false,
            Form::Frozen(tree) => !tree.is_sorted(order),
            Form::Owned(held) => {
                let node: &Own<T> = held;
                if node.left.is_unsorted(order) || node.left.ends_above(&node.value, order) {
                    return true;
                }
                if node.right.begins_below(&node.value, order) {
                    return true;
                }
                node.right.is_unsorted(order)
            }
        }
    }

    // Whether the last element is greater than the value.
    fn ends_above<O: Order<T>>(&self, value: &T, order: &O) -> bool
        ensures { result ≡ is_last_greater (O.order order.now) self.now.items value.now }
    {
        match self.last() {
            Some(last) => order.compare(last, value) == Ordering::Greater,
            None => false,
        }
    }

    // Whether the value is greater than the first element.
    fn begins_below<O: Order<T>>(&self, value: &T, order: &O) -> bool
        ensures { result ≡ is_greater_than_first (O.order order.now) value.now self.now.items }
    {
        match self.first() {
            Some(first) => order.compare(value, first) == Ordering::Greater,
            None => false,
        }
    }
}
