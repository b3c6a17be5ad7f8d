// Questions about a map.
ghost use Rattle.std.specs.Prelude.{◌≡◌, IfOk, MatchResult, map};
ghost use Rattle.std.specs.List.{list_any};
ghost use Rattle.std.specs.Option.{option_copied, option_map};
ghost use Rattle.std.specs.Ordering.{eq_by_cmp};
ghost use Rattle.imm_base.specs.Maps.{entry_of, has_key, has_pair, key_of, value_of};
ghost use Rattle.sorted_maps.specs.Ordered.{KeysRise, entry};
ghost use Rattle.sorted_maps.specs.Placed.{IsAbsentAt, IsAt};

use crate::map::SortedMap;
use avl_node::Probe;
use imm_base::{Item, Memory, Order, Pair, Test};
use std::alloc::Global;
use std::cmp::Ordering;

// A key that is looked for among pairs.
#[derive(Drop)]
struct Sought<'a, K, O> {
    key: &'a K,
    order: O,
}

impl<K, V, O: Order<K>> Probe<Pair<K, V>> for Sought<'_, K, O> {
    ghost side = { λ sought p. O.order sought.order p.key sought.key.now };

    fn side(&self, element: &Pair<K, V>) -> Ordering {
        self.order.compare(&element.key, self.key)
    }
}

// Whether the value of a pair equals this one.
#[derive(Drop)]
struct ValueIs<'a, V> {
    value: &'a V,
}

impl<K, V: Eq> Test<Pair<K, V>> for ValueIs<'_, V> {
    ghost passes = { λ test p. V.eq p.value test.value.now };

    fn holds(&self, pair: &Pair<K, V>) -> bool {
        pair.value == *self.value
    }
}

impl<K: Item, V: Item, O: Order<K>> SortedMap<K, V, O> {
    // The place of the pair whose key is same, or the place that a pair of the key would have.
    pub(crate) fn search(&self, key: &K) -> Result<u32, u32>
        ensures { MatchResult result (λ i. IsAt (O.order self.now.order) key.now self.now.pairs i)
            (λ i. IsAbsentAt (O.order self.now.order) key.now self.now.pairs i) }
    {
        let sought = Sought {
            key,
            order: self.order(),
        };
        self.tree().search(&sought)
    }

    // The pair whose key is same.
    #[tactic(auto, using(avl_node::proofs::Keys::seen))]
    fn pair(&self, key: &K) -> Option<&Pair<K, V>>
        ensures { option_map entry (option_copied result) ≡ entry_of
            (eq_by_cmp (O.order self.now.order)) key.now self.now.pairs }
    {
        match self.search(key) {
            Ok(place) => self.tree().at(place),
            Err(_) => None,
        }
    }

    /// The value of the key, if it is present. O(log n).
    pub fn get(&self, key: &K) -> Option<&V>
        ensures { option_copied result ≡ value_of
            (eq_by_cmp (O.order self.now.order)) key.now self.now.pairs }
    {
        match self.pair(key) {
            Some(pair) => Some(&pair.value),
            None => None,
        }
    }

    /// The key as it is stored, if it is present. O(log n).
    pub fn get_key(&self, key: &K) -> Option<&K>
        ensures { option_copied result ≡ key_of
            (eq_by_cmp (O.order self.now.order)) key.now self.now.pairs }
    {
        match self.pair(key) {
            Some(pair) => Some(&pair.key),
            None => None,
        }
    }

    // Whether the key is present.
    pub(crate) fn has_key(&self, key: &K) -> bool
        ensures { result ≡ has_key (eq_by_cmp (O.order self.now.order)) key.now self.now.pairs }
    {
        self.search(key).is_ok()
    }

    // Whether the key is present with this value.
    pub(crate) fn has_pair(&self, key: &K, value: &V) -> bool
        ensures { result ≡ has_pair
            (eq_by_cmp (O.order self.now.order)) V.eq key.now value.now self.now.pairs }
    {
        match self.get(key) {
            Some(old) => *old == *value,
            None => false,
        }
    }

    /// Whether some value equals this one. O(n).
    pub fn contains_value(&self, value: &V) -> bool
        ensures { result ≡ list_any (λ e. V.eq e.1 value.now) self.now.pairs }
    {
        self.tree().any(&ValueIs { value })
    }

    /// Copies of the keys, in the order of the map. O(n).
    pub fn keys(&self, alloc: Global) -> Result<Vec<K>, Memory>
        ensures { IfOk result (λ v. v.items ≡ map (λ e. e.0) self.now.pairs) }
    {
        let pairs = self.to_vec(alloc)?;
        let keys = pairs.into_iter().map(|pair| pair.0).collect(alloc)?;
        Ok(keys)
    }

    /// Copies of the values, in the order of their keys. O(n).
    pub fn values(&self, alloc: Global) -> Result<Vec<V>, Memory>
        ensures { IfOk result (λ v. v.items ≡ map (λ e. e.1) self.now.pairs) }
    {
        let pairs = self.to_vec(alloc)?;
        let values = pairs.into_iter().map(|pair| pair.1).collect(alloc)?;
        Ok(values)
    }

    /// Copies of the pairs, in the order of the map. O(n).
    pub fn to_vec(&self, alloc: Global) -> Result<Vec<(K, V)>, Memory>
        ensures pairs { IfOk result (λ v. v.items ≡ self.now.pairs) }
        ensures rise { KeysRise (O.order self.now.order) self.now.pairs }
    {
        let pairs = self.tree().to_vec(alloc)?;
        let entries = pairs
            .into_iter()
            .map(|pair| (pair.key, pair.value))
            .collect(alloc)?;
        Ok(entries)
    }
}
