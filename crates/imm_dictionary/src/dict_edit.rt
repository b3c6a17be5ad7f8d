// Changes of one pair.
ghost use Rattle.std.specs.Prelude.{◌≡◌, ◌+◌, length, IfOk};
ghost use Rattle.std.specs.Ordering.{on};
ghost use Rattle.imm_base.specs.Edits.{is_over};
ghost use Rattle.imm_base.specs.Lists.{sorted};
ghost use Rattle.imm_base.specs.Maps.{map_add, map_remove, map_set};
ghost use Rattle.imm_base.specs.Rekey.{map_rekey};
ghost use Rattle.imm_dictionary.specs.Answers.{MapAnswers};

use crate::dict::Dict;
use imm_base::{Edit, HashEq, Key, LIMIT, MapFault, Memory};
use std::alloc::Global;

impl<K: Key, V: Key, H: HashEq<K>> Dict<K, V, H> {
    /// The map with the pair, where the key is not present. In time and memory it is
    /// O(log n + k) for n pairs, of which k have the hash of the key.
    pub fn add(&self, alloc: Global, key: K, value: V) -> Result<Edit<Dict<K, V, H>>, MapFault<V>>
        ensures { MapAnswers self.now.eq result
            (map_add K.cmp
            (H.same self.now.eq) V.eq key value self.now.pairs) }
    {
        match self.get(&key) {
            Some(old) if *old == value => Ok(Edit::Same),
            Some(old) => Err(MapFault::KeyExists {
                old: old.dup(alloc)?,
            }),
            None if self.is_full() => Err(MapFault::TooLarge {
                count: self.count(),
            }),
            None => Ok(Edit::New(self.with(alloc, key, value)?)),
        }
    }

    /// The map with the pair, in place of the pair whose key is same. The key is stored as it is
    /// spelled here, unless the value is the old one. It costs what `add` does.
    pub fn set_item(
        &self,
        alloc: Global,
        key: K,
        value: V,
    ) -> Result<Edit<Dict<K, V, H>>, MapFault<V>>
        ensures { MapAnswers self.now.eq result
            (map_set K.cmp
            (H.same self.now.eq) V.eq key value self.now.pairs) }
    {
        if self.has_pair(&key, &value) {
            return Ok(Edit::Same);
        }
        if self.is_full() && !self.has_key(&key) {
            let count = self.count();
            return Err(MapFault::TooLarge { count });
        }
        Ok(Edit::New(self.with(alloc, key, value)?))
    }

    /// The map without the pair of the key. It costs what `add` does.
    pub fn remove(&self, alloc: Global, key: &K) -> Result<Edit<Dict<K, V, H>>, MapFault<V>>
        ensures { MapAnswers self.now.eq result
            (map_remove (H.same self.now.eq) key.now self.now.pairs) }
    {
        if self.has_key(key) {
            Ok(Edit::New(self.reduced(alloc, key)?))
        } else {
            Ok(Edit::Same)
        }
    }

    // Whether one pair more would be too many.
    fn is_full(&self) -> bool
        ensures { result ≡ is_over (length self.now.pairs + 1) }
    {
        self.count() >= LIMIT
    }

    /// The map under this equality: the pairs are added one by one, in the ordinal order of their keys.
    /// Of keys that are same then, with equal values, the first stays; with other values they are
    /// refused. For n pairs it costs what n calls of `add` do, and O(n log n).
    pub fn with_comparer(&self, alloc: Global, eq: H) -> Result<Edit<Dict<K, V, H>>, MapFault<V>>
        ensures { MapAnswers eq result
            (map_rekey K.cmp K.cmp (H.same eq) V.eq (H.eq eq self.now.eq) self.now.pairs) }
    {
        if eq == self.comparer() {
            return Ok(Edit::Same);
        }
        let pairs = self.in_ordinal_order(alloc)?;
        let map = Dict::new(eq).with_added(alloc, pairs.as_slice())?;
        Ok(Edit::New(map))
    }

    // The pairs in the ordinal order of their keys.
    fn in_ordinal_order(&self, alloc: Global) -> Result<Vec<(K, V)>, Memory>
        ensures { IfOk result (λ v. v.items ≡ sorted (on (λ e. e.0) K.cmp) self.now.pairs) }
    {
        // (for the proof alone: that the keys rise)
        let _count = self.count();
        self.to_vec(alloc)
    }
}
