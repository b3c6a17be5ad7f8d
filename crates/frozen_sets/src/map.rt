// Frozen maps.
ghost use Rattle.std.specs.Prelude.{◌≡◌, ◌≤◌, ◌<◌, ◌^◌, length, map, reverse, vec_len, IfOk};
ghost use Rattle.std.specs.Option.{option_copied};
ghost use Rattle.imm_base.specs.Order.{eq_same};
ghost use Rattle.imm_base.specs.Maps.{key_of, value_of};
ghost use Rattle.plain_model.specs.Frozen.{frozen_pairs, strategy_of};

use crate::kept::kept;
use crate::order::{ByKey, order_of};
use crate::set::FrozenSet;
use imm_base::{Dup, Item, Memory, Val, ValEq, ValOrder};
use plain_model::Strategy;
use std::alloc::Global;
use std::marker::Model;

/// A map that never changes and is quick to search, of fewer than 2^31 pairs. Contracts see its
/// pairs, in the ordinal order of their keys, and the equality.
///
/// Where f keys of n have the code that the strategy gives a key, a lookup costs O(1 + f). By length
/// and by slice f is at most 1. Under `ValEq::One` it is n, and otherwise few keys share a hash.
#[derive(Drop)]
pub struct FrozenMap<V> {
    keys: FrozenSet,
    values: Vec<V>,
}

impl<V> Model for FrozenMap<V> {
    ghost use Rattle.std.specs.Prelude.{◌≡◌, length};
    ghost use Rattle.std.specs.List.{zip};
    ghost use Rattle.frozen_sets.specs.Frozen.{Paired};

    ghost Value = { Paired V };

    ghost view = { λ m. record { eq = m.keys.eq; pairs = zip m.keys.items m.values.items } };

    ghost invariant = { λ m. length m.values.items ≡ length m.keys.items };
}

impl<V> FrozenMap<V> {
    // The keys, in ordinal order.
    fn key_set(&self) -> &FrozenSet
        ensures keys { result.now.items ≡ map (λ e. e.0) self.now.pairs }
        ensures eq { result.now.eq ≡ self.now.eq }
    {
        &self.keys
    }

    // The values, in the ordinal order of their keys.
    fn all_values(&self) -> &[V]
        ensures { result.now ≡ map (λ e. e.1) self.now.pairs }
    {
        self.values.as_slice()
    }

    /// How a key is looked for. O(1).
    pub fn strategy(&self) -> Strategy
        ensures { result ≡ strategy_of self.now.eq (map (λ e. e.0) self.now.pairs) }
    {
        self.key_set().strategy()
    }

    /// How many pairs there are. O(1).
    pub fn count(&self) -> u32
        ensures { result ≡ length self.now.pairs }
    {
        self.key_set().count()
    }

    /// The value of the key, if it is present: a lookup.
    pub fn get(&self, key: &Val) -> Option<&V>
        ensures { option_copied result ≡ value_of (eq_same self.now.eq) key.now self.now.pairs }
    {
        match self.key_set().place_of(key) {
            Some(place) => self.all_values().get(place),
            None => None,
        }
    }

    /// The key as it is stored, if it is present: a lookup.
    pub fn get_key(&self, key: &Val) -> Option<&Val>
        ensures { option_copied result ≡ key_of (eq_same self.now.eq) key.now self.now.pairs }
    {
        self.key_set().actual(key)
    }

    /// A copy of the keys, in ordinal order. O(n).
    pub fn keys(&self, alloc: Global) -> Result<Vec<Val>, Memory>
        ensures { IfOk result (λ v. v.items ≡ map (λ e. e.0) self.now.pairs) }
    {
        self.key_set().to_vec(alloc)
    }
}

impl<V: Item> FrozenMap<V> {
    /// The map of these pairs: of those whose keys are same, the latter, with its spelling. O(n log n)
    /// for n pairs, where the choice of a slice may sort as many as 300 times; memory O(n).
    pub fn from_list(alloc: Global, pairs: &[(Val, V)], eq: ValEq) -> Result<FrozenMap<V>, Memory>
        requires { length pairs.now < 2 ^ 31 }
        ensures pairs { IfOk result (λ map. map.pairs ≡ frozen_pairs eq pairs.now) }
        ensures eq { IfOk result (λ map. map.eq ≡ eq) }
    {
        let latter_first = turned_round(alloc, pairs)?;
        let by = ByKey {
            order: order_of(eq),
        };
        let order = ByKey {
            order: ValOrder::Ordinal,
        };
        let pairs = kept(latter_first, &by, &order)?;
        FrozenMap::of_kept(alloc, pairs, eq)
    }

    // The map of these pairs, as they stand.
    fn of_kept(alloc: Global, pairs: Vec<(Val, V)>, eq: ValEq) -> Result<FrozenMap<V>, Memory>
        requires { vec_len pairs < 2 ^ 31 }
        ensures pairs { IfOk result (λ map. map.pairs ≡ pairs.items) }
        ensures eq { IfOk result (λ map. map.eq ≡ eq) }
    {
        let keys = FrozenSet::of_kept(alloc, keys_of(alloc, pairs.as_slice())?, eq)?;
        let values = values_of(alloc, pairs)?;
        Ok(FrozenMap { keys, values })
    }

    /// A copy of the values, in the ordinal order of their keys. O(n).
    pub fn values(&self, alloc: Global) -> Result<Vec<V>, Memory>
        ensures { IfOk result (λ v. v.items ≡ map (λ e. e.1) self.now.pairs) }
    {
        let mut values = Vec::new(alloc);
        for value in self.all_values() {
            values.push(value.dup(alloc)?)?;
        }
        Ok(values)
    }
}

// The keys of the pairs.
fn keys_of<V>(alloc: Global, pairs: &[(Val, V)]) -> Result<Vec<Val>, Memory>
    ensures keys { IfOk result (λ v. v.items ≡ map (λ e. e.0) pairs.now) }
    ensures len { IfOk result (λ v. vec_len v ≡ length pairs.now) }
{
    Ok(pairs.iter().map(|pair| pair.0).collect(alloc)?)
}

// The values of the pairs.
fn values_of<V: Drop>(alloc: Global, pairs: Vec<(Val, V)>) -> Result<Vec<V>, Memory>
    ensures values { IfOk result (λ v. v.items ≡ map (λ e. e.1) pairs.items) }
    ensures len { IfOk result (λ v. vec_len v ≡ vec_len pairs) }
{
    Ok(pairs.into_iter().map(|pair| pair.1).collect(alloc)?)
}

// Copies of the pairs, the last one first.
fn turned_round<V: Dup>(alloc: Global, pairs: &[(Val, V)]) -> Result<Vec<(Val, V)>, Memory>
    ensures pairs { IfOk result (λ v. v.items ≡ reverse pairs.now) }
    ensures len { IfOk result (λ v. vec_len v ≡ length pairs.now) }
{
    let mut copies = Vec::new(alloc);
    for pair in pairs {
        copies.push((pair.0, pair.1.dup(alloc)?))?;
    }
    copies.reverse();
    Ok(copies)
}
