// The changes of the builders of maps as values.
use crate::dict::DictBuilder;
use crate::laws::Builder;
use crate::map::MapBuilder;
use imm_base::{HashEq, Item, Key, MapFault, Memory, Order, Step};
use imm_dictionary::Dict;
use sorted_maps::SortedMap;
use std::alloc::Global;

/// A changing call of a map's builder, with its arguments.
#[derive(Drop)]
pub enum MapChange<K, V> {
    Add { key: K, value: V },
    AddRange(Vec<(K, V)>),
    SetItem { key: K, value: V },
    SetItems(Vec<(K, V)>),
    Remove(K),
    RemoveRange(Vec<K>),
    Clear,
}

impl<K: Item, V: Item, O: Order<K>> Builder<MapChange<K, V>> for MapBuilder<K, V, O> {
    type Collection = SortedMap<K, V, O>;

    type Fault = MapFault<V>;

    ghost built = { λ b. b };

    fn apply(&mut self, alloc: Global, change: MapChange<K, V>) -> Result<Step, MapFault<V>> {
        match change {
            MapChange::Add { key, value } => self.add(alloc, key, value),
            MapChange::AddRange(pairs) => self.add_range(alloc, pairs.as_slice()),
            MapChange::SetItem { key, value } => self.set_item(alloc, key, value),
            MapChange::SetItems(pairs) => self.set_items(alloc, pairs.as_slice()),
            MapChange::Remove(key) => self.remove(alloc, &key),
            MapChange::RemoveRange(keys) => self.remove_range(alloc, keys.as_slice()),
            MapChange::Clear => Ok(self.clear()),
        }
    }

    fn publish(&mut self, alloc: Global) -> Result<SortedMap<K, V, O>, Memory> {
        self.to_immutable(alloc)
    }
}

impl<K: Key, V: Key, H: HashEq<K>> Builder<MapChange<K, V>> for DictBuilder<K, V, H> {
    type Collection = Dict<K, V, H>;

    type Fault = MapFault<V>;

    ghost built = { λ b. b };

    fn apply(&mut self, alloc: Global, change: MapChange<K, V>) -> Result<Step, MapFault<V>> {
        match change {
            MapChange::Add { key, value } => self.add(alloc, key, value),
            MapChange::AddRange(pairs) => self.add_range(alloc, pairs.as_slice()),
            MapChange::SetItem { key, value } => self.set_item(alloc, key, value),
            MapChange::SetItems(pairs) => self.set_items(alloc, pairs.as_slice()),
            MapChange::Remove(key) => self.remove(alloc, &key),
            MapChange::RemoveRange(keys) => self.remove_range(alloc, keys.as_slice()),
            MapChange::Clear => Ok(self.clear()),
        }
    }

    fn publish(&mut self, _alloc: Global) -> Result<Dict<K, V, H>, Memory> {
        self.to_immutable()
    }
}
