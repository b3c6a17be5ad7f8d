// A map in another order.
ghost use Rattle.std.specs.Prelude.{◌≡◌, IfOk};
ghost use Rattle.std.specs.Ordering.{eq_by_cmp, on};
ghost use Rattle.imm_base.specs.Lists.{sorted};
ghost use Rattle.imm_base.specs.Rekey.{map_rekey};
ghost use Rattle.sorted_maps.specs.Answers.{Answers};

use crate::map::SortedMap;
use imm_base::{Edit, Key, MapFault, Memory, Order, Ordinal};
use std::alloc::Global;

impl<K: Key, V: Key, O: Order<K>> SortedMap<K, V, O> {
    /// The map in another order: the pairs are added one by one, in the ordinal order of their keys.
    /// Of keys that are same there, with equal values, the first stays; with other values they are
    /// refused. O(n log n).
    pub fn with_order(
        &self,
        alloc: Global,
        order: O,
    ) -> Result<Edit<SortedMap<K, V, O>>, MapFault<V>>
        ensures { Answers order result
            (map_rekey K.cmp (O.order order) (eq_by_cmp (O.order order)) V.eq
            (O.eq order self.now.order) self.now.pairs) }
    {
        if order == self.order() {
            return Ok(Edit::Same);
        }
        let pairs = self.in_ordinal_order(alloc)?;
        let map = SortedMap::new(order).with_added(alloc, pairs.as_slice())?;
        Ok(Edit::New(map))
    }

    // The pairs in the ordinal order of their keys.
    fn in_ordinal_order(&self, alloc: Global) -> Result<Vec<(K, V)>, Memory>
        ensures { IfOk result (λ v. v.items ≡ sorted (on (λ e. e.0) K.cmp) self.now.pairs) }
    {
        let pairs = self.to_vec(alloc)?;
        let map = SortedMap::new(Ordinal).with_set(alloc, pairs.as_slice())?;
        map.to_vec(alloc)
    }
}
