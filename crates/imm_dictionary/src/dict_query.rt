// Questions about a map.
ghost use Rattle.std.specs.Prelude.{◌≡◌, IfOk, map};
ghost use Rattle.std.specs.List.{list_any};
ghost use Rattle.std.specs.Option.{option_copied};
ghost use Rattle.imm_base.specs.Maps.{has_key, has_pair, key_of, value_of};
ghost use Rattle.imm_dictionary.specs.Mapped.{entries};

use crate::dict::Dict;
use imm_base::{HashEq, Key, Memory, Pair, Test};
use std::alloc::Global;

// Whether the value of a pair equals this one.
#[derive(Drop)]
struct ValueIs<'a, V> {
    value: &'a V,
}

impl<K, V: Eq> Test<Pair<K, V>> for ValueIs<'_, V> {
    ghost passes = { λ test p. V.eq p.value test.value.now };

    fn holds(&self, pair: &Pair<K, V>) -> bool {
        pair.value == *self.value
    }
}

impl<K: Key, V: Key, H: HashEq<K>> Dict<K, V, H> {
    /// The value of the key, if it is present, in O(log n + k) where k keys have its hash.
    pub fn get(&self, key: &K) -> Option<&V>
        ensures { option_copied result ≡ value_of
            (H.same self.now.eq) key.now self.now.pairs }
    {
        match self.pair(key) {
            Some(pair) => Some(&pair.value),
            None => None,
        }
    }

    /// The key as it is stored, if it is present, in O(log n + k) where k keys have its hash.
    pub fn get_key(&self, key: &K) -> Option<&K>
        ensures { option_copied result ≡ key_of
            (H.same self.now.eq) key.now self.now.pairs }
    {
        match self.pair(key) {
            Some(pair) => Some(&pair.key),
            None => None,
        }
    }

    // Whether the key is present.
    pub(crate) fn has_key(&self, key: &K) -> bool
        ensures { result ≡ has_key (H.same self.now.eq) key.now self.now.pairs }
    {
        self.pair(key).is_some()
    }

    // Whether the key is present with this value.
    pub(crate) fn has_pair(&self, key: &K, value: &V) -> bool
        ensures { result ≡ has_pair
            (H.same self.now.eq) V.eq key.now value.now self.now.pairs }
    {
        match self.get(key) {
            Some(old) => *old == *value,
            None => false,
        }
    }

    /// Whether some value equals this one. O(n).
    pub fn contains_value(&self, value: &V) -> bool
        ensures { result ≡ list_any (λ e. V.eq e.1 value.now) self.now.pairs }
    {
        self.elements().any(&ValueIs { value })
    }

    /// Copies of the keys, in ordinal order, in O(n log n).
    pub fn keys(&self, alloc: Global) -> Result<Vec<K>, Memory>
        ensures { IfOk result (λ v. v.items ≡ map (λ e. e.0) self.now.pairs) }
    {
        let pairs = self.to_vec(alloc)?;
        let keys = pairs.into_iter().map(|pair| pair.0).collect(alloc)?;
        Ok(keys)
    }

    /// Copies of the values, in the ordinal order of their keys, in O(n log n).
    pub fn values(&self, alloc: Global) -> Result<Vec<V>, Memory>
        ensures { IfOk result (λ v. v.items ≡ map (λ e. e.1) self.now.pairs) }
    {
        let pairs = self.to_vec(alloc)?;
        let values = pairs.into_iter().map(|pair| pair.1).collect(alloc)?;
        Ok(values)
    }

    /// Copies of the pairs, in the ordinal order of their keys, in O(n log n).
    pub fn to_vec(&self, alloc: Global) -> Result<Vec<(K, V)>, Memory>
        ensures { IfOk result (λ v. v.items ≡ self.now.pairs) }
    {
        let pairs = self.ordered(alloc)?;
        let entries = pairs
            .into_iter()
            .map(|pair| (pair.key, pair.value))
            .collect(alloc)?;
        Ok(entries)
    }

    // Copies of the pairs, in the ordinal order of their keys.
    fn ordered(&self, alloc: Global) -> Result<Vec<Pair<K, V>>, Memory>
        ensures { IfOk result (λ v. entries v.items ≡ self.now.pairs) }
    {
        self.elements().in_own_order(alloc)
    }
}
