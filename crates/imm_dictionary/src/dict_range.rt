// Changes of many pairs, one after another.
ghost use Rattle.std.specs.Prelude.{◌≡◌, IfOk, fold, true};
ghost use Rattle.std.specs.List.{list_all, list_any};
ghost use Rattle.imm_base.specs.Maps.{add_all, add_over, has_key, has_pair, map_add_all, map_remove_all, map_set_all, set_all, set_pair, value_of, without_key};
ghost use Rattle.imm_dictionary.specs.Answers.{MapAnswers, AnswersAdded};

use crate::dict::Dict;
use imm_base::{Edit, HashEq, Key, LIMIT, MapFault, Memory};
use std::alloc::Global;

impl<K: Key, V: Key, H: HashEq<K>> Dict<K, V, H> {
    /// The map with the pairs added in order. A key that is present with another value refuses them
    /// all, also one that an earlier of these pairs brought. For m pairs it costs what m calls of `add`
    /// do.
    pub fn add_range(
        &self,
        alloc: Global,
        pairs: &[(K, V)],
    ) -> Result<Edit<Dict<K, V, H>>, MapFault<V>>
        ensures { MapAnswers self.now.eq result
            (map_add_all K.eq K.cmp
            (H.same self.now.eq) V.eq pairs.now self.now.pairs) }
    {
        let count = self.count();
        let map = self.with_added(alloc, pairs)?;
        if map.count() > LIMIT {
            Err(MapFault::TooLarge { count })
        } else if map.count() == count {
            Ok(Edit::Same)
        } else {
            Ok(Edit::New(map))
        }
    }

    /// The map with the pairs set in order. It stays as it is exactly where each pair is present.
    /// For m pairs it costs what m calls of `add` do.
    pub fn set_items(
        &self,
        alloc: Global,
        pairs: &[(K, V)],
    ) -> Result<Edit<Dict<K, V, H>>, MapFault<V>>
        ensures { MapAnswers self.now.eq result
            (map_set_all K.cmp
            (H.same self.now.eq) V.eq pairs.now self.now.pairs) }
    {
        let map = self.with_set(alloc, pairs)?;
        if map.count() > LIMIT {
            Err(MapFault::TooLarge {
                count: self.count(),
            })
        } else if self.has_all(pairs) {
            Ok(Edit::Same)
        } else {
            Ok(Edit::New(map))
        }
    }

    /// The map without the pairs of the keys. For m keys it costs what m calls of `remove` do.
    pub fn remove_range(
        &self,
        alloc: Global,
        keys: &[K],
    ) -> Result<Edit<Dict<K, V, H>>, MapFault<V>>
        ensures { MapAnswers self.now.eq result
            (map_remove_all (H.same self.now.eq) keys.now self.now.pairs) }
    {
        if self.has_any(keys) {
            Ok(Edit::New(self.without_all(alloc, keys)?))
        } else {
            Ok(Edit::Same)
        }
    }

    // The map with the pairs added in order, however many there are.
    pub(crate) fn with_added(
        &self,
        alloc: Global,
        pairs: &[(K, V)],
    ) -> Result<Dict<K, V, H>, MapFault<V>>
        ensures { AnswersAdded self.now.eq result
            (add_all K.cmp
            (H.same self.now.eq) V.eq pairs.now self.now.pairs) }
    {
        let mut map = self.share()?;
        for pair in pairs {
            map = map.added(alloc, &pair.0, &pair.1)?;
        }
        Ok(map)
    }

    // The map with one pair added.
    fn added(&self, alloc: Global, key: &K, value: &V) -> Result<Dict<K, V, H>, MapFault<V>>
        ensures { AnswersAdded self.now.eq result
            (add_over K.cmp
            (H.same self.now.eq) V.eq key.now value.now self.now.pairs
            (value_of (H.same self.now.eq) key.now self.now.pairs)) }
    {
        match self.get(key) {
            Some(old) if *old == *value => Ok(self.share()?),
            Some(old) => Err(MapFault::KeyExists {
                old: old.dup(alloc)?,
            }),
            None => {
                let key = key.dup(alloc)?;
                let value = value.dup(alloc)?;
                Ok(self.with(alloc, key, value)?)
            }
        }
    }

    // The map with the pairs set in order, however many there are.
    pub(crate) fn with_set(&self, alloc: Global, pairs: &[(K, V)]) -> Result<Dict<K, V, H>, Memory>
        ensures pairs { IfOk result
            (λ m. m.pairs ≡ set_all K.cmp
            (H.same self.now.eq) V.eq pairs.now self.now.pairs) }
        ensures eq { IfOk result (λ m. m.eq ≡ self.now.eq) }
    {
        let mut map = self.share()?;
        for pair in pairs {
            map = map.set(alloc, &pair.0, &pair.1)?;
        }
        Ok(map)
    }

    // The map with one pair set.
    fn set(&self, alloc: Global, key: &K, value: &V) -> Result<Dict<K, V, H>, Memory>
        ensures pairs { IfOk result
            (λ m. m.pairs ≡ set_pair K.cmp
            (H.same self.now.eq) V.eq key.now value.now self.now.pairs) }
        ensures eq { IfOk result (λ m. m.eq ≡ self.now.eq) }
    {
        if self.has_pair(key, value) {
            return self.share();
        }
        let key = key.dup(alloc)?;
        let value = value.dup(alloc)?;
        self.with(alloc, key, value)
    }

    // The map without the pair of the key, if it is present.
    fn without(&self, alloc: Global, key: &K) -> Result<Dict<K, V, H>, Memory>
        ensures pairs { IfOk result (λ m. m.pairs ≡ without_key (H.same self.now.eq) key.now
            self.now.pairs) }
        ensures eq { IfOk result (λ m. m.eq ≡ self.now.eq) }
    {
        if self.has_key(key) {
            self.reduced(alloc, key)
        } else {
            self.share()
        }
    }

    // The map without the pairs of the keys.
    fn without_all(&self, alloc: Global, keys: &[K]) -> Result<Dict<K, V, H>, Memory>
        ensures pairs { IfOk result
            (λ m. m.pairs ≡ fold
            (λ n k. without_key (H.same self.now.eq) k n) self.now.pairs keys.now) }
        ensures eq { IfOk result (λ m. m.eq ≡ self.now.eq) }
    {
        let mut map = self.share()?;
        for key in keys {
            map = map.without(alloc, key)?;
        }
        Ok(map)
    }

    // Whether each pair is present.
    fn has_all(&self, pairs: &[(K, V)]) -> bool
        ensures { result ≡ list_all
            (λ p. has_pair
            (H.same self.now.eq) V.eq p.0 p.1 self.now.pairs) pairs.now }
    {
        pairs.iter().all(|pair| self.has_pair(&pair.0, &pair.1))
    }

    // Whether one of the keys is present.
    fn has_any(&self, keys: &[K]) -> bool
        ensures { result ≡ list_any
            (λ k. has_key (H.same self.now.eq) k self.now.pairs) keys.now }
    {
        keys.iter().any(|key| self.has_key(key))
    }
}
