// The builder of sorted sets: what it stands on, and what it publishes.
ghost use Rattle.std.specs.Prelude.{◌≡◌, ◌+◌, ◌<◌, ◌≤◌, ◌^◌, length, insert, remove, is_ok, if◌then◌else◌, IfOk, Ok};
ghost use Rattle.std.specs.Ordering.{eq_by_cmp};
ghost use Rattle.imm_base.specs.Kept.{IsSet};
ghost use Rattle.imm_base.specs.Lists.{clear};
ghost use Rattle.plain_model.specs.Builders.{new_builder};
ghost use Rattle.sorted_sets.specs.Ordered.{kept};
ghost use Rattle.builders.specs.Changes.{Adopts, CanCount, built_on};
ghost use Rattle.builders.specs.Sets.{Changes};

use crate::versioned::Versioned;
use avl_link::Link;
use imm_base::{Edit, Item, Memory, Order, Step};
use sorted_sets::SortedSet;
use std::alloc::Global;
use std::marker::Model;

/// A set that is built in place, kept in an order, with the calls of a sorted set. Contracts see
/// its elements, its order, and the number of changes that gave another set.
///
/// A refused change, and one without memory, leaves them as they were. A change has the condition
/// that `version()` is below the greatest `u64`. It copies the nodes on its way that were
/// published, and changes the others in place, which no clause says.
#[derive(Drop)]
pub struct SetBuilder<T, O: Order<T>> {
    built: Versioned<T>,
    order: O,
}

impl<T, O: Order<T>> Model for SetBuilder<T, O> {
    ghost use Rattle.plain_model.specs.Builders.{Built};
    ghost use Rattle.sorted_sets.specs.Ordered.{Ordered, kept};

    ghost Value = { Built (Ordered T O) };

    ghost use Rattle.std.specs.Ordering.{eq_by_cmp};
    ghost use Rattle.imm_base.specs.Kept.{IsSet};

    ghost view = { λ a. record {
      contents = kept a.order a.built.contents;
      changes = a.built.changes;
    } };

    ghost invariant = { λ a. IsSet (O.order a.order) (eq_by_cmp (O.order a.order)) a.built.contents };
}

impl<T, O: Order<T>> SetBuilder<T, O> {
    /// How many changes gave another set. O(1).
    pub fn version(&self) -> u64
        ensures { result ≡ self.now.changes }
    {
        self.built.version()
    }

    /// The order in which the set is kept. O(1).
    pub fn order(&self) -> O
        ensures { result ≡ self.now.contents.order }
    {
        self.order
    }

    /// How many elements there are. O(1).
    pub fn count(&self) -> u32
        ensures { result ≡ length self.now.contents.items }
    {
        self.link().count()
    }

    // The elements.
    pub(crate) fn link(&self) -> &Link<T>
        ensures items { result.now.items ≡ self.now.contents.items }
        ensures set { IsSet (O.order self.now.contents.order)
            (eq_by_cmp (O.order self.now.contents.order)) self.now.contents.items }
    {
        self.built.link()
    }
}

impl<T: Item, O: Order<T>> SetBuilder<T, O> {
    /// A builder of the set, whose nodes it shares. O(1).
    pub fn from(set: &SortedSet<T, O>) -> Result<SetBuilder<T, O>, Memory>
        ensures { IfOk result (λ builder. builder ≡ new_builder set.now) }
    {
        Ok(SetBuilder {
            built: Versioned::of_tree(set.tree())?,
            order: set.order(),
        })
    }

    /// The set as it is now, which no later change alters. O(k) for the k nodes that were made
    /// since the last such call.
    pub fn to_immutable(&mut self, alloc: Global) -> Result<SortedSet<T, O>, Memory>
        ensures published { IfOk result (λ set. set ≡ self.old.contents) }
        ensures same { self.new ≡ self.old }
    {
        Ok(SortedSet::of_tree(self.built.freeze(alloc)?, self.order))
    }

    /// Copies of the elements, in order. O(n).
    pub fn to_vec(&self, alloc: Global) -> Result<Vec<T>, Memory>
        ensures { IfOk result (λ v. v.items ≡ self.now.contents.items) }
    {
        self.link().to_vec(alloc)
    }

    /// Takes out all elements. O(1), besides the nodes that nobody shares.
    pub fn clear(&mut self) -> Step
        requires { CanCount self.old }
        ensures { Changes self.old.contents.order (Ok result) (clear self.old.contents.items)
            self.old self.new }
    {
        if self.count() == 0 {
            return Step::Same;
        }
        self.built.put(Link::new());
        Step::New
    }

    // The other set, where there is one, in place of the set.
    pub(crate) fn adopt(&mut self, edit: Edit<SortedSet<T, O>>) -> Result<Step, Memory>
        requires { CanCount self.old }
        ensures { Adopts result edit self.old self.new }
    {
        let Edit::New(set) = edit else {
            return Ok(Step::Same);
        };
        let link = Link::of_tree(set.tree())?;
        self.built.put(link);
        self.order = set.order();
        Ok(Step::New)
    }

    // Puts the value before the element at the place.
    pub(crate) fn insert(&mut self, alloc: Global, place: u32, value: T) -> Result<(), Memory>
        requires in_range { place ≤ length self.old.contents.items }
        requires count_fits { length self.old.contents.items + 1 < 2 ^ 32 }
        requires set { IsSet (O.order self.old.contents.order)
            (eq_by_cmp (O.order self.old.contents.order))
            (insert self.old.contents.items place value) }
        requires counts { CanCount self.old }
        ensures { self.new ≡ (if is_ok result
            then built_on
            (kept self.old.contents.order (insert self.old.contents.items place value)) self.old
            else self.old) }
    {
        self.built.insert(alloc, place, value)
    }

    // Takes out the element at the place.
    pub(crate) fn remove_at(&mut self, alloc: Global, place: u32) -> Result<(), Memory>
        requires in_range { place < length self.old.contents.items }
        requires set { IsSet (O.order self.old.contents.order)
            (eq_by_cmp (O.order self.old.contents.order)) (remove self.old.contents.items place) }
        requires counts { CanCount self.old }
        ensures { self.new ≡ (if is_ok result
            then built_on
            (kept self.old.contents.order (remove self.old.contents.items place)) self.old
            else self.old) }
    {
        self.built.remove(alloc, place)
    }
}
