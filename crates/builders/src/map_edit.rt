// Changes of a map that is built: of one pair in place, and of many by the map's own calls.
ghost use Rattle.std.specs.Prelude.{◌≡◌, ◌+◌, length, true};
ghost use Rattle.std.specs.Ordering.{eq_by_cmp};
ghost use Rattle.imm_base.specs.Edits.{is_over};
ghost use Rattle.imm_base.specs.Maps.{has_key, map_add, map_add_all, map_remove, map_remove_all, map_set, map_set_all};
ghost use Rattle.builders.specs.Changes.{CanCount};
ghost use Rattle.builders.specs.Maps.{Changes};

use crate::map::MapBuilder;
use imm_base::{Item, LIMIT, MapFault, Order, Step};
use std::alloc::Global;

impl<K: Item, V: Item, O: Order<K>> MapBuilder<K, V, O> {
    /// Puts in the pair, where the key is not present. O(log n).
    pub fn add(&mut self, alloc: Global, key: K, value: V) -> Result<Step, MapFault<V>>
        requires { CanCount self.old }
        ensures { Changes self.old.contents.order result
            (map_add (O.order self.old.contents.order)
            (eq_by_cmp (O.order self.old.contents.order)) V.eq key value self.old.contents.pairs)
            self.old self.new }
    {
        match self.search(&key) {
            Ok(_) => self.kept_or_refused(alloc, &key, &value),
            Err(_) if self.is_full() => Err(MapFault::TooLarge {
                count: self.count(),
            }),
            Err(place) => {
                self.insert(alloc, place, key, value)?;
                Ok(Step::New)
            }
        }
    }

    /// Puts in the pair, in place of the pair whose key is same. The key is stored as it is spelled
    /// here, unless the value is the old one. O(log n).
    pub fn set_item(&mut self, alloc: Global, key: K, value: V) -> Result<Step, MapFault<V>>
        requires { CanCount self.old }
        ensures { Changes self.old.contents.order result
            (map_set (O.order self.old.contents.order)
            (eq_by_cmp (O.order self.old.contents.order)) V.eq key value self.old.contents.pairs)
            self.old self.new }
    {
        if self.has_pair(&key, &value) {
            return Ok(Step::Same);
        }
        match self.search(&key) {
            Ok(place) => self.replace(alloc, place, key, value)?,
            Err(_) if self.is_full() => {
                return Err(MapFault::TooLarge {
                    count: self.count(),
                });
            }
            Err(place) => self.insert(alloc, place, key, value)?,
        }
        Ok(Step::New)
    }

    /// Takes out the pair of the key. O(log n).
    pub fn remove(&mut self, alloc: Global, key: &K) -> Result<Step, MapFault<V>>
        requires { CanCount self.old }
        ensures { Changes self.old.contents.order result
            (map_remove (eq_by_cmp (O.order self.old.contents.order)) key.now
            self.old.contents.pairs)
            self.old self.new }
    {
        let Ok(place) = self.search(key) else {
            return Ok(Step::Same);
        };
        self.remove_at(alloc, place)?;
        Ok(Step::New)
    }

    /// Puts in the pairs in order. A key that is present with another value refuses them all, also
    /// one that an earlier of these pairs brought. O(m log n) for m pairs, besides what
    /// `to_immutable` takes.
    pub fn add_range(&mut self, alloc: Global, pairs: &[(K, V)]) -> Result<Step, MapFault<V>>
        requires { CanCount self.old }
        ensures { Changes self.old.contents.order result
            (map_add_all K.eq (O.order self.old.contents.order)
            (eq_by_cmp (O.order self.old.contents.order)) V.eq pairs.now self.old.contents.pairs)
            self.old self.new }
    {
        let edit = self.to_immutable(alloc)?.add_range(alloc, pairs)?;
        Ok(self.adopt(edit)?)
    }

    /// Puts in the pairs in order, each in place of the pair whose key is same. All stays exactly
    /// where each pair is present. O(m log n) for m pairs, besides what `to_immutable` takes.
    pub fn set_items(&mut self, alloc: Global, pairs: &[(K, V)]) -> Result<Step, MapFault<V>>
        requires { CanCount self.old }
        ensures { Changes self.old.contents.order result
            (map_set_all (O.order self.old.contents.order)
            (eq_by_cmp (O.order self.old.contents.order)) V.eq pairs.now self.old.contents.pairs)
            self.old self.new }
    {
        let edit = self.to_immutable(alloc)?.set_items(alloc, pairs)?;
        Ok(self.adopt(edit)?)
    }

    /// Takes out the pairs of the keys. O(m log n) for m keys, besides what `to_immutable` takes.
    pub fn remove_range(&mut self, alloc: Global, keys: &[K]) -> Result<Step, MapFault<V>>
        requires { CanCount self.old }
        ensures { Changes self.old.contents.order result
            (map_remove_all (eq_by_cmp (O.order self.old.contents.order)) keys.now
            self.old.contents.pairs)
            self.old self.new }
    {
        let edit = self.to_immutable(alloc)?.remove_range(alloc, keys)?;
        Ok(self.adopt(edit)?)
    }

    // What adding the pair of a key that is present comes to: nothing, or the refusal.
    fn kept_or_refused(&self, alloc: Global, key: &K, value: &V) -> Result<Step, MapFault<V>>
        requires { has_key (eq_by_cmp (O.order self.now.contents.order)) key.now
            self.now.contents.pairs ≡ true }
        ensures { Changes self.now.contents.order result
            (map_add (O.order self.now.contents.order)
            (eq_by_cmp (O.order self.now.contents.order)) V.eq key.now value.now
            self.now.contents.pairs)
            self.now self.now }
    {
        match self.get(key) {
            Some(old) if *old == *value => Ok(Step::Same),
            Some(old) => Err(MapFault::KeyExists {
                old: old.dup(alloc)?,
            }),
            None => unreachable!(),
        }
    }

    // Whether one pair more would be too many.
    fn is_full(&self) -> bool
        ensures { result ≡ is_over (length self.now.contents.pairs + 1) }
    {
        self.count() >= LIMIT
    }
}
