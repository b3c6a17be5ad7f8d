// The place of something in a tree, by the side on which it has each element.
ghost use Rattle.std.specs.Prelude.{◌≡◌, ◌≤◌, length, false, MatchResult};
ghost use Rattle.std.specs.Option.{option_copied};
ghost use Rattle.std.specs.declared.cmp.Ordering.{Ordering};
ghost use Rattle.imm_base.specs.Lists.{is_unsorted};
ghost use Rattle.avl_node.specs.Search.{IsElementAt, IsFoundAt, IsMissingAt};
ghost use Rattle.avl_node.specs.Sides.{lower_bound, equal_at, is_equal_at, SidesAscend};

use crate::tree::{Node, Root, Tree};
use imm_base::{Item, Order};
use std::cmp::Ordering;

/// Something that is looked for in a list.
pub trait Probe<T> {
    ghost side: { Self → T → Ordering };

    /// Where the element stands: `Less` is before what is looked for.
    fn side(&self, element: &T) -> Ordering
        ensures { result ≡ side self.now element.now };
}

// A value, by an order.
#[derive(Drop)]
struct Sought<'a, T, O> {
    value: &'a T,
    order: &'a O,
}

impl<T, O: Order<T>> Probe<T> for Sought<'_, T, O> {
    ghost side = { λ sought x. O.order sought.order.now x sought.value.now };

    fn side(&self, element: &T) -> Ordering {
        self.order.compare(element, self.value)
    }
}

impl<T: Item> Tree<T> {
    /// The first place whose element is not less than the value, and whether that element compares
    /// equal. O(log n): it compares at most one element a level, which no clause says.
    pub fn find_by<O: Order<T>>(&self, value: &T, order: &O) -> (u32, bool)
        requires { is_unsorted (O.order order.now) self.now.items ≡ false }
        ensures place { result.0
            ≡ lower_bound (λ x. O.order order.now x value.now) self.now.items }
        ensures found { result.1
            ≡ is_equal_at (λ x. O.order order.now x value.now) self.now.items result.0 }
    {
        match self.search_by(value, order) {
            Ok(place) => (place, true),
            Err(place) => (place, false),
        }
    }

    /// The place of the first element that compares equal to the value, or the place that the value
    /// would have where none does. O(log n): it compares at most one element a level, which no
    /// clause says.
    pub fn search_by<O: Order<T>>(&self, value: &T, order: &O) -> Result<u32, u32>
        requires { is_unsorted (O.order order.now) self.now.items ≡ false }
        ensures { MatchResult result
            (IsFoundAt (λ x. O.order order.now x value.now) self.now.items)
            (IsMissingAt (λ x. O.order order.now x value.now) self.now.items) }
    {
        let sought = Sought { value, order };
        self.search(&sought)
    }

    /// The place of the first element that is equal to what is looked for, or the place that it
    /// would have where none is. O(log n): it looks at at most one element a level, which no clause
    /// says.
    pub fn search<P: Probe<T>>(&self, probe: &P) -> Result<u32, u32>
        requires { SidesAscend (P.side probe.now) self.now.items }
        ensures { MatchResult result (IsFoundAt (P.side probe.now) self.now.items)
            (IsMissingAt (P.side probe.now) self.now.items) }
    {
        let (place, found) = self.find_in(probe);
        if found { Ok(place) } else { Err(place) }
    }

    /// The place of the first element that is equal to what is looked for, with that element, or the
    /// place that it would have where none is. It goes down the tree once, in O(log n).
    pub fn locate<P: Probe<T>>(&self, probe: &P) -> Result<(u32, &T), u32>
        requires { SidesAscend (P.side probe.now) self.now.items }
        ensures { MatchResult result
            (λ r. IsElementAt (P.side probe.now) self.now.items r.1.now r.0)
            (IsMissingAt (P.side probe.now) self.now.items) }
    {
        let (place, element) = self.first_equal(probe);
        match element {
            Some(element) => Ok((place, element)),
            None => Err(place),
        }
    }

    /// The first place whose element is not before what is looked for, and whether that element is
    /// equal to it. It says nothing of the place where the sides do not ascend. O(log n).
    pub fn find_in<P: Probe<T>>(&self, probe: &P) -> (u32, bool)
        ensures within { result.0 ≤ length self.now.items }
        ensures place { SidesAscend (P.side probe.now) self.now.items →
            result.0 ≡ lower_bound (P.side probe.now) self.now.items }
        ensures found { SidesAscend (P.side probe.now) self.now.items →
            result.1 ≡ is_equal_at (P.side probe.now) self.now.items result.0 }
    {
        let (place, element) = self.first_equal(probe);
        (place, element.is_some())
    }

    // The first place whose element is not before what is looked for, and that element where it is
    // equal to it.
    fn first_equal<P: Probe<T>>(&self, probe: &P) -> (u32, Option<&T>)
        ensures within { result.0 ≤ length self.now.items }
        ensures place { SidesAscend (P.side probe.now) self.now.items →
            result.0 ≡ lower_bound (P.side probe.now) self.now.items }
        ensures element { SidesAscend (P.side probe.now) self.now.items →
            option_copied result.1 ≡ equal_at (P.side probe.now) self.now.items result.0 }
    {
        // (for the proof alone: that the count fits 32 bits)
        let _count = self.count();
        match &self.root {
            Root::Empty => (0, None),
            Root::Fork(shared) => {
                let node: &Node<T> = shared;
                match probe.side(&node.value) {
                    Ordering::Less => {
                        let (place, element) = node.right.first_equal(probe);
                        (node.before + 1 + place, element)
                    }
                    Ordering::Equal => {
                        let (place, element) = node.left.first_equal(probe);
                        (place, element.or(Some(&node.value)))
                    }
                    Ordering::Greater => node.left.first_equal(probe),
                }
            }
        }
    }
}
