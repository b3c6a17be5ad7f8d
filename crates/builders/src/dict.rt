// The builder of dictionaries.
ghost use Rattle.std.specs.Prelude.{◌≡◌, length, map, IfOk, Ok};
ghost use Rattle.std.specs.List.{list_any};
ghost use Rattle.std.specs.Option.{option_copied};
ghost use Rattle.imm_base.specs.Lists.{clear};
ghost use Rattle.imm_base.specs.Maps.{key_of, map_add, map_add_all, map_remove, map_remove_all, map_set, map_set_all, value_of};
ghost use Rattle.plain_model.specs.Builders.{new_builder};
ghost use Rattle.builders.specs.Changes.{CanCount};
ghost use Rattle.builders.specs.Dicts.{Changes};

use crate::current::Current;
use imm_base::{HashEq, Key, MapFault, Memory, Step};
use imm_dictionary::Dict;
use std::alloc::Global;
use std::marker::Model;

/// A map that is built, under an equality of its keys, with the calls of a dictionary. Contracts
/// see its pairs, in the ordinal order of their keys, its equality, and the number of changes that
/// gave another map.
///
/// A refused change, and one without memory, leaves them as they were. A change has the condition
/// that `version()` is below the greatest `u64`. It makes the next map, which shares its nodes with
/// the one before, and costs what the call of the dictionary does.
#[derive(Drop)]
pub struct DictBuilder<K: Key, V: Key, H: HashEq<K>> {
    current: Current<Dict<K, V, H>>,
}

impl<K: Key, V: Key, H: HashEq<K>> Model for DictBuilder<K, V, H> {
    ghost use Rattle.imm_dictionary.specs.Mapped.{Mapped};
    ghost use Rattle.plain_model.specs.Builders.{Built};

    ghost Value = { Built (Mapped K V H) };

    ghost view = { λ a. a.current };
}

impl<K: Key, V: Key, H: HashEq<K>> DictBuilder<K, V, H> {
    /// A builder of the map, whose nodes it shares. O(1).
    pub fn from(map: &Dict<K, V, H>) -> Result<DictBuilder<K, V, H>, Memory>
        ensures { IfOk result (λ builder. builder ≡ new_builder map.now) }
    {
        Ok(DictBuilder {
            current: Current::new(map.share()?),
        })
    }

    /// How many changes gave another map. O(1).
    pub fn version(&self) -> u64
        ensures { result ≡ self.now.changes }
    {
        self.current.version()
    }

    /// The map as it is now, which no later change alters. O(1).
    pub fn to_immutable(&mut self) -> Result<Dict<K, V, H>, Memory>
        ensures published { IfOk result (λ map. map ≡ self.old.contents) }
        ensures same { self.new ≡ self.old }
    {
        self.current.collection().share()
    }

    // The map as it is now.
    fn map(&self) -> &Dict<K, V, H>
        ensures { result.now ≡ self.now.contents }
    {
        self.current.collection()
    }

    /// The equality that says which keys are same. O(1).
    pub fn comparer(&self) -> H
        ensures { result ≡ self.now.contents.eq }
    {
        self.map().comparer()
    }

    /// How many pairs there are. O(1).
    pub fn count(&self) -> u32
        ensures { result ≡ length self.now.contents.pairs }
    {
        self.map().count()
    }

    /// The value of the key, if it is present. O(log n + k) for n pairs, of which k have the hash
    /// of the key.
    pub fn get(&self, key: &K) -> Option<&V>
        ensures { option_copied result ≡ value_of
            (H.same self.now.contents.eq) key.now self.now.contents.pairs }
    {
        self.map().get(key)
    }

    /// The key as it is stored, if it is present. It costs what `get` does.
    pub fn get_key(&self, key: &K) -> Option<&K>
        ensures { option_copied result ≡ key_of
            (H.same self.now.contents.eq) key.now self.now.contents.pairs }
    {
        self.map().get_key(key)
    }

    /// Whether some value equals this one. O(n).
    pub fn contains_value(&self, value: &V) -> bool
        ensures { result ≡ list_any (λ e. V.eq e.1 value.now) self.now.contents.pairs }
    {
        self.map().contains_value(value)
    }

    /// Copies of the keys, in ordinal order. O(n log n).
    pub fn keys(&self, alloc: Global) -> Result<Vec<K>, Memory>
        ensures { IfOk result (λ v. v.items ≡ map (λ e. e.0) self.now.contents.pairs) }
    {
        self.map().keys(alloc)
    }

    /// Copies of the values, in the ordinal order of their keys. O(n log n).
    pub fn values(&self, alloc: Global) -> Result<Vec<V>, Memory>
        ensures { IfOk result (λ v. v.items ≡ map (λ e. e.1) self.now.contents.pairs) }
    {
        self.map().values(alloc)
    }

    /// Copies of the pairs, in the ordinal order of their keys. O(n log n).
    pub fn to_vec(&self, alloc: Global) -> Result<Vec<(K, V)>, Memory>
        ensures { IfOk result (λ v. v.items ≡ self.now.contents.pairs) }
    {
        self.map().to_vec(alloc)
    }

    /// Takes out all pairs. O(1), besides the nodes that nobody shares.
    pub fn clear(&mut self) -> Step
        requires { CanCount self.old }
        ensures { Changes self.old.contents.eq (Ok result) (clear self.old.contents.pairs)
            self.old self.new }
    {
        let edit = self.map().clear();
        self.current.adopt(edit)
    }

    /// Puts in the pair, where the key is not present. O(log n + k) for n pairs, of which k have
    /// the hash of the key.
    pub fn add(&mut self, alloc: Global, key: K, value: V) -> Result<Step, MapFault<V>>
        requires { CanCount self.old }
        ensures { Changes self.old.contents.eq result
            (map_add K.cmp (H.same self.old.contents.eq) V.eq key value self.old.contents.pairs)
            self.old self.new }
    {
        let edit = self.map().add(alloc, key, value)?;
        Ok(self.current.adopt(edit))
    }

    /// Puts in the pair, in place of the pair whose key is same. The key is stored as it is spelled
    /// here, unless the value is the old one. It costs what `add` does.
    pub fn set_item(&mut self, alloc: Global, key: K, value: V) -> Result<Step, MapFault<V>>
        requires { CanCount self.old }
        ensures { Changes self.old.contents.eq result
            (map_set K.cmp (H.same self.old.contents.eq) V.eq key value self.old.contents.pairs)
            self.old self.new }
    {
        let edit = self.map().set_item(alloc, key, value)?;
        Ok(self.current.adopt(edit))
    }

    /// Takes out the pair of the key. It costs what `add` does.
    pub fn remove(&mut self, alloc: Global, key: &K) -> Result<Step, MapFault<V>>
        requires { CanCount self.old }
        ensures { Changes self.old.contents.eq result
            (map_remove (H.same self.old.contents.eq) key.now self.old.contents.pairs)
            self.old self.new }
    {
        let edit = self.map().remove(alloc, key)?;
        Ok(self.current.adopt(edit))
    }

    /// Puts in the pairs in order. A key that is present with another value refuses them all, also
    /// one that an earlier of these pairs brought. It costs what `add` does for each pair.
    pub fn add_range(&mut self, alloc: Global, pairs: &[(K, V)]) -> Result<Step, MapFault<V>>
        requires { CanCount self.old }
        ensures { Changes self.old.contents.eq result
            (map_add_all K.eq K.cmp (H.same self.old.contents.eq) V.eq pairs.now
            self.old.contents.pairs)
            self.old self.new }
    {
        let edit = self.map().add_range(alloc, pairs)?;
        Ok(self.current.adopt(edit))
    }

    /// Puts in the pairs in order, each in place of the pair whose key is same. All stays exactly
    /// where each pair is present. It costs what `add` does for each pair.
    pub fn set_items(&mut self, alloc: Global, pairs: &[(K, V)]) -> Result<Step, MapFault<V>>
        requires { CanCount self.old }
        ensures { Changes self.old.contents.eq result
            (map_set_all K.cmp (H.same self.old.contents.eq) V.eq pairs.now
            self.old.contents.pairs)
            self.old self.new }
    {
        let edit = self.map().set_items(alloc, pairs)?;
        Ok(self.current.adopt(edit))
    }

    /// Takes out the pairs of the keys. It costs what `add` does for each key.
    pub fn remove_range(&mut self, alloc: Global, keys: &[K]) -> Result<Step, MapFault<V>>
        requires { CanCount self.old }
        ensures { Changes self.old.contents.eq result
            (map_remove_all (H.same self.old.contents.eq) keys.now self.old.contents.pairs)
            self.old self.new }
    {
        let edit = self.map().remove_range(alloc, keys)?;
        Ok(self.current.adopt(edit))
    }
}
