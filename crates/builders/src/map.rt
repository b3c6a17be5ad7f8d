// The builder of sorted maps: what it stands on, and what it publishes.
ghost use Rattle.std.specs.Prelude.{◌≡◌, ◌+◌, ◌<◌, ◌≤◌, ◌^◌, length, insert, remove, slice_set, is_ok, if◌then◌else◌, IfOk, Ok};
ghost use Rattle.imm_base.specs.Lists.{clear};
ghost use Rattle.plain_model.specs.Builders.{new_builder};
ghost use Rattle.sorted_maps.specs.Ordered.{KeysRise, entries};
ghost use Rattle.builders.specs.Changes.{Adopts, CanCount, built_on};
ghost use Rattle.builders.specs.Maps.{Changes, kept};

use crate::versioned::Versioned;
use avl_link::Link;
use imm_base::{Edit, Item, Memory, Order, Pair, Step};
use sorted_maps::SortedMap;
use std::alloc::Global;
use std::marker::Model;

/// A map that is built in place, whose keys rise in its order, with the calls of a sorted map.
/// Contracts see its pairs, its order, and the number of changes that gave another map.
///
/// A refused change, and one without memory, leaves them as they were. A change has the condition
/// that `version()` is below the greatest `u64`. It copies the nodes on its way that were
/// published, and changes the others in place, which no clause says.
#[derive(Drop)]
pub struct MapBuilder<K, V, O: Order<K>> {
    built: Versioned<Pair<K, V>>,
    order: O,
}

impl<K, V, O: Order<K>> Model for MapBuilder<K, V, O> {
    ghost use Rattle.plain_model.specs.Builders.{Built};
    ghost use Rattle.sorted_maps.specs.Ordered.{Ordered, KeysRise, entries};
    ghost use Rattle.builders.specs.Maps.{kept};

    ghost Value = { Built (Ordered K V O) };

    ghost view = { λ a. record {
      contents = kept a.order (entries a.built.contents);
      changes = a.built.changes;
    } };

    ghost invariant = { λ a. KeysRise (O.order a.order) (entries a.built.contents) };
}

impl<K, V, O: Order<K>> MapBuilder<K, V, O> {
    /// How many changes gave another map. O(1).
    pub fn version(&self) -> u64
        ensures { result ≡ self.now.changes }
    {
        self.built.version()
    }

    /// The order in which the keys rise. O(1).
    pub fn order(&self) -> O
        ensures { result ≡ self.now.contents.order }
    {
        self.order
    }

    /// How many pairs there are. O(1).
    pub fn count(&self) -> u32
        ensures { result ≡ length self.now.contents.pairs }
    {
        self.link().count()
    }

    // The pairs.
    pub(crate) fn link(&self) -> &Link<Pair<K, V>>
        ensures pairs { entries result.now.items ≡ self.now.contents.pairs }
        ensures rise { KeysRise (O.order self.now.contents.order) self.now.contents.pairs }
    {
        self.built.link()
    }
}

impl<K: Item, V: Item, O: Order<K>> MapBuilder<K, V, O> {
    /// A builder of the map, whose nodes it shares. O(1).
    pub fn from(map: &SortedMap<K, V, O>) -> Result<MapBuilder<K, V, O>, Memory>
        ensures { IfOk result (λ builder. builder ≡ new_builder map.now) }
    {
        Ok(MapBuilder {
            built: Versioned::of_tree(map.tree())?,
            order: map.order(),
        })
    }

    /// The map as it is now, which no later change alters. O(k) for the k nodes that were made
    /// since the last such call.
    pub fn to_immutable(&mut self, alloc: Global) -> Result<SortedMap<K, V, O>, Memory>
        ensures published { IfOk result (λ map. map ≡ self.old.contents) }
        ensures same { self.new ≡ self.old }
    {
        Ok(SortedMap::of_tree(self.built.freeze(alloc)?, self.order))
    }

    /// Takes out all pairs. O(1), besides the nodes that nobody shares.
    pub fn clear(&mut self) -> Step
        requires { CanCount self.old }
        ensures { Changes self.old.contents.order (Ok result) (clear self.old.contents.pairs)
            self.old self.new }
    {
        if self.count() == 0 {
            return Step::Same;
        }
        self.built.put(Link::new());
        Step::New
    }

    // The other map, where there is one, in place of the map.
    pub(crate) fn adopt(&mut self, edit: Edit<SortedMap<K, V, O>>) -> Result<Step, Memory>
        requires { CanCount self.old }
        ensures { Adopts result edit self.old self.new }
    {
        let Edit::New(map) = edit else {
            return Ok(Step::Same);
        };
        let link = Link::of_tree(map.tree())?;
        self.built.put(link);
        self.order = map.order();
        Ok(Step::New)
    }

    // Puts the pair before that at the place.
    #[tactic(auto, using(avl_node::proofs::Keys::seen))]
    pub(crate) fn insert(
        &mut self,
        alloc: Global,
        place: u32,
        key: K,
        value: V,
    ) -> Result<(), Memory>
        requires in_range { place ≤ length self.old.contents.pairs }
        requires count_fits { length self.old.contents.pairs + 1 < 2 ^ 32 }
        requires rise { KeysRise (O.order self.old.contents.order)
            (insert self.old.contents.pairs place (key, value)) }
        requires counts { CanCount self.old }
        ensures { self.new ≡ (if is_ok result
            then built_on
            (kept self.old.contents.order (insert self.old.contents.pairs place (key, value)))
            self.old
            else self.old) }
    {
        self.built.insert(alloc, place, Pair { key, value })
    }

    // Puts the pair in place of that at the place.
    #[tactic(auto, using(avl_node::proofs::Keys::seen))]
    pub(crate) fn replace(
        &mut self,
        alloc: Global,
        place: u32,
        key: K,
        value: V,
    ) -> Result<(), Memory>
        requires in_range { place < length self.old.contents.pairs }
        requires rise { KeysRise (O.order self.old.contents.order)
            (slice_set self.old.contents.pairs place (key, value)) }
        requires counts { CanCount self.old }
        ensures { self.new ≡ (if is_ok result
            then built_on
            (kept self.old.contents.order (slice_set self.old.contents.pairs place (key, value)))
            self.old
            else self.old) }
    {
        self.built.replace(alloc, place, Pair { key, value })
    }

    // Takes out the pair at the place.
    #[tactic(auto, using(avl_node::proofs::Keys::seen))]
    pub(crate) fn remove_at(&mut self, alloc: Global, place: u32) -> Result<(), Memory>
        requires in_range { place < length self.old.contents.pairs }
        requires rise { KeysRise (O.order self.old.contents.order)
            (remove self.old.contents.pairs place) }
        requires counts { CanCount self.old }
        ensures { self.new ≡ (if is_ok result
            then built_on
            (kept self.old.contents.order (remove self.old.contents.pairs place))
            self.old
            else self.old) }
    {
        self.built.remove(alloc, place)
    }
}
