// A set in another order.
ghost use Rattle.std.specs.Prelude.{◌≡◌, ◌<◌, ◌^◌, [], length, IfOk};
ghost use Rattle.std.specs.Ordering.{eq_by_cmp};
ghost use Rattle.imm_base.specs.Lists.{sorted};
ghost use Rattle.imm_base.specs.Rekey.{set_rekey};
ghost use Rattle.imm_base.specs.Sets.{union};
ghost use Rattle.sorted_sets.specs.Answers.{Answers};
ghost use Rattle.sorted_sets.specs.Ordered.{kept};

use crate::set::SortedSet;
use imm_base::{Edit, Key, Memory, Order, Ordinal, SetFault};
use std::alloc::Global;

impl<T: Key, O: Order<T>> SortedSet<T, O> {
    /// The set kept in this order. Of elements that the new order calls equal, it keeps the first in
    /// ordinal order. O(n log n).
    pub fn with_order(&self, alloc: Global, order: O) -> Result<Edit<SortedSet<T, O>>, SetFault>
        ensures { Answers order result
            (set_rekey T.cmp (O.order order) (eq_by_cmp (O.order order))
            (O.eq order self.now.order) self.now.items) }
    {
        if order == self.order() {
            return Ok(Edit::Same);
        }
        let values = self.in_own_order(alloc)?;
        let set = SortedSet::of_values(alloc, order, values.as_slice())?;
        Ok(Edit::New(set))
    }

    // Copies of the elements, in their own order.
    fn in_own_order(&self, alloc: Global) -> Result<Vec<T>, Memory>
        ensures items { IfOk result (λ v. v.items ≡ sorted T.cmp self.now.items) }
        ensures fits { IfOk result (λ v. length v.items < 2 ^ 32) }
    {
        // (for the proof alone, as below: that the count fits 32 bits)
        let _count = self.count();
        let values = self.tree().to_vec(alloc)?;
        let set = SortedSet::of_values(alloc, Ordinal, values.as_slice())?;
        let _count = set.count();
        set.to_vec(alloc)
    }

    // The set of these values, the first of same ones.
    fn of_values(alloc: Global, order: O, values: &[T]) -> Result<SortedSet<T, O>, Memory>
        requires { length values.now < 2 ^ 32 }
        ensures { IfOk result
            (λ set. set ≡ kept order
            (union (O.order order) (eq_by_cmp (O.order order)) [] values.now)) }
    {
        let empty = SortedSet::new(order);
        match empty.with_all(alloc, values, u32::MAX)? {
            Some(set) => Ok(set),
            None => unreachable!(),
        }
    }
}
