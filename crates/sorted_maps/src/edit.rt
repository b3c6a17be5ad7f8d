// Changes of one pair.
ghost use Rattle.std.specs.Prelude.{◌≡◌, ◌+◌, IfOk, length};
ghost use Rattle.std.specs.Ordering.{eq_by_cmp};
ghost use Rattle.imm_base.specs.Edits.{is_over};
ghost use Rattle.imm_base.specs.Maps.{map_add, map_remove, map_set, with_pair, without_key};
ghost use Rattle.sorted_maps.specs.Answers.{Answers};

use crate::map::SortedMap;
use imm_base::{Edit, Item, LIMIT, MapFault, Memory, Order, Pair};
use std::alloc::Global;

impl<K: Item, V: Item, O: Order<K>> SortedMap<K, V, O> {
    /// The map with the pair, where the key is not present. O(log n).
    pub fn add(
        &self,
        alloc: Global,
        key: K,
        value: V,
    ) -> Result<Edit<SortedMap<K, V, O>>, MapFault<V>>
        ensures { Answers self.now.order result
            (map_add (O.order self.now.order)
            (eq_by_cmp (O.order self.now.order)) V.eq key value self.now.pairs) }
    {
        match self.get(&key) {
            Some(old) if *old == value => Ok(Edit::Same),
            Some(old) => Err(MapFault::KeyExists {
                old: old.dup(alloc)?,
            }),
            None if self.is_full() => Err(MapFault::TooLarge {
                count: self.count(),
            }),
            None => Ok(Edit::New(self.with(alloc, key, value)?)),
        }
    }

    /// The map with the pair, in place of the pair whose key is same. The key is stored as it is
    /// spelled here, unless the value is the old one. O(log n).
    pub fn set_item(
        &self,
        alloc: Global,
        key: K,
        value: V,
    ) -> Result<Edit<SortedMap<K, V, O>>, MapFault<V>>
        ensures { Answers self.now.order result
            (map_set (O.order self.now.order)
            (eq_by_cmp (O.order self.now.order)) V.eq key value self.now.pairs) }
    {
        if self.has_pair(&key, &value) {
            return Ok(Edit::Same);
        }
        if self.is_full() && !self.has_key(&key) {
            let count = self.count();
            return Err(MapFault::TooLarge { count });
        }
        Ok(Edit::New(self.with(alloc, key, value)?))
    }

    /// The map without the pair of the key. O(log n).
    pub fn remove(&self, alloc: Global, key: &K) -> Result<Edit<SortedMap<K, V, O>>, MapFault<V>>
        ensures { Answers self.now.order result
            (map_remove (eq_by_cmp (O.order self.now.order)) key.now self.now.pairs) }
    {
        if self.has_key(key) {
            Ok(Edit::New(self.without(alloc, key)?))
        } else {
            Ok(Edit::Same)
        }
    }

    // Whether one pair more would be too many.
    fn is_full(&self) -> bool
        ensures { result ≡ is_over (length self.now.pairs + 1) }
    {
        self.count() >= LIMIT
    }

    // The pair in place of the pair whose key is same, or put in its place. A count is of 32 bits:
    // where it would pass them, there is no memory.
    #[tactic(auto, using(avl_node::proofs::Keys::seen))]
    pub(crate) fn with(&self, alloc: Global, key: K, value: V) -> Result<SortedMap<K, V, O>, Memory>
        ensures pairs { IfOk result
            (λ m. m.pairs ≡ with_pair (O.order self.now.order)
            (eq_by_cmp (O.order self.now.order)) key value self.now.pairs) }
        ensures order { IfOk result (λ m. m.order ≡ self.now.order) }
    {
        let place = self.search(&key);
        let tree = self.tree();
        let count = tree.count();
        let pair = Pair { key, value };
        match place {
            Ok(place) => {
                let replaced = tree.replaced(alloc, place, pair)?;
                Ok(SortedMap::of_tree(replaced, self.order()))
            }
            Err(_) if count == u32::MAX => Err(Memory),
            Err(place) => {
                let inserted = tree.inserted(alloc, place, pair)?;
                Ok(SortedMap::of_tree(inserted, self.order()))
            }
        }
    }

    // The map without the pair of the key, if it is present.
    #[tactic(auto, using(avl_node::proofs::Keys::seen))]
    pub(crate) fn without(&self, alloc: Global, key: &K) -> Result<SortedMap<K, V, O>, Memory>
        ensures pairs { IfOk result
            (λ m. m.pairs ≡ without_key
            (eq_by_cmp (O.order self.now.order)) key.now self.now.pairs) }
        ensures order { IfOk result (λ m. m.order ≡ self.now.order) }
    {
        let Ok(place) = self.search(key) else {
            return self.share();
        };
        let tree = self.tree();
        // (for the proof alone: that the count fits 32 bits)
        let _count = tree.count();
        let removed = tree.removed(alloc, place)?;
        Ok(SortedMap::of_tree(removed, self.order()))
    }
}
