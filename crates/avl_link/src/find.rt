// The place of something in a link, by the side on which it has each element.
ghost use Rattle.std.specs.Prelude.{◌≡◌, ◌≤◌, length, false, MatchResult};
ghost use Rattle.imm_base.specs.Lists.{is_unsorted};
ghost use Rattle.avl_node.specs.Search.{IsFoundAt, IsMissingAt};
ghost use Rattle.avl_node.specs.Sides.{lower_bound, is_equal_at, SidesAscend};

use crate::link::{Form, Link, Own};
use avl_node::Probe;
use imm_base::{Item, Order};
use std::cmp::Ordering;

// A value, by an order.
#[derive(Drop)]
struct Sought<'a, T, O> {
    value: &'a T,
    order: &'a O,
}

impl<T, O: Order<T>> Probe<T> for Sought<'_, T, O> {
    ghost side = { λ sought x. O.order sought.order.now x sought.value.now };

    fn side(&self, element: &T) -> Ordering {
        self.order.compare(element, self.value)
    }
}

impl<T: Item> Link<T> {
    /// The place of the first element that compares equal to the value, or the place that the value
    /// would have where none does. O(log n): it compares at most one element a level, which no
    /// clause says.
    pub fn search_by<O: Order<T>>(&self, value: &T, order: &O) -> Result<u32, u32>
        requires { is_unsorted (O.order order.now) self.now.items ≡ false }
        ensures { MatchResult result
            (IsFoundAt (λ x. O.order order.now x value.now) self.now.items)
            (IsMissingAt (λ x. O.order order.now x value.now) self.now.items) }
    {
        let sought = Sought { value, order };
        self.search(&sought)
    }

    /// The place of the first element that is equal to what is looked for, or the place that it
    /// would have where none is. O(log n): it looks at at most one element a level, which no clause
    /// says.
    pub fn search<P: Probe<T>>(&self, probe: &P) -> Result<u32, u32>
        requires { SidesAscend (P.side probe.now) self.now.items }
        ensures { MatchResult result (IsFoundAt (P.side probe.now) self.now.items)
            (IsMissingAt (P.side probe.now) self.now.items) }
    {
        let (place, found) = self.find_in(probe);
        if found { Ok(place) } else { Err(place) }
    }

    // The first place whose element is not before what is looked for, and whether that element is
    // equal to it. It says nothing of the place where the sides do not ascend.
    fn find_in<P: Probe<T>>(&self, probe: &P) -> (u32, bool)
        ensures within { result.0 ≤ length self.now.items }
        ensures place { SidesAscend (P.side probe.now) self.now.items →
            result.0 ≡ lower_bound (P.side probe.now) self.now.items }
        ensures found { SidesAscend (P.side probe.now) self.now.items →
            result.1 ≡ is_equal_at (P.side probe.now) self.now.items result.0 }
    {
        // (for the proof alone: that the count fits 32 bits)
        let _count = self.count();
        match &self.form {
            Form::Empty => (0, false),
            Form::Frozen(tree) => tree.find_in(probe),
            Form::Owned(held) => {
                let node: &Own<T> = held;
                let before = node.left.count();
                match probe.side(&node.value) {
                    Ordering::Less => {
                        let (place, found) = node.right.find_in(probe);
                        (before + 1 + place, found)
                    }
                    Ordering::Equal => {
                        let (place, _) = node.left.find_in(probe);
                        (place, true)
                    }
                    Ordering::Greater => node.left.find_in(probe),
                }
            }
        }
    }
}
