// The dictionary, and the tree of buckets that holds it. All other calls go by those of this file.
ghost use Rattle.std.specs.Prelude.{◌≡◌, [], length, true, IfOk, Ok};
ghost use Rattle.std.specs.Option.{option_copied, option_map};
ghost use Rattle.std.specs.Ordering.{on};
ghost use Rattle.imm_base.specs.Kept.{IsSet, pair_cmp};
ghost use Rattle.imm_base.specs.Lists.{clear, sorted};
ghost use Rattle.imm_base.specs.Maps.{entry_of, with_pair, without_key, has_key};
ghost use Rattle.imm_dictionary.specs.Answers.{MapAnswers};
ghost use Rattle.imm_dictionary.specs.Mapped.{entries, entry};

use crate::by_key::ByKey;
use hash_bucket::{HashTree, Seek};
use imm_base::{Edit, HashEq, Key, Memory, Pair};
use std::alloc::Global;
use std::marker::Model;

/// A persistent map under an equality of its keys. Two maps may share nodes, also in different threads.
/// Contracts see the pairs, in the ordinal order of their keys, and the equality.
///
/// A changing call answers `Edit::Same` where the map stays as it is, and otherwise another map, under
/// the same equality; this one stays in any case.
#[derive(Drop)]
pub struct Dict<K: Key, V: Key, H: HashEq<K>> {
    elements: HashTree<Pair<K, V>, ByKey<H>>,
}

impl<K: Key, V: Key, H: HashEq<K>> Model for Dict<K, V, H> {
    ghost use Rattle.imm_dictionary.specs.Mapped.{Mapped, entries};

    ghost Value = { Mapped K V H };

    ghost use Rattle.imm_base.specs.Kept.{pair_cmp};
    ghost use Rattle.imm_base.specs.Lists.{sorted};

    ghost view = { λ a. record { eq = a.elements.eq.eq; pairs = sorted (pair_cmp K.cmp V.cmp) (entries a.elements.items) } };
}

// A key that is looked for among pairs.
#[derive(Drop)]
pub(crate) struct SoughtKey<'a, K, H> {
    pub(crate) key: &'a K,
    pub(crate) eq: H,
}

impl<K, V, H: HashEq<K>> Seek<Pair<K, V>> for SoughtKey<'_, K, H> {
    ghost meets = { λ sought p. H.same sought.eq sought.key.now p.key };

    ghost hash = { λ sought. H.hash sought.eq sought.key.now };

    fn meets(&self, item: &Pair<K, V>) -> bool {
        self.eq.same(self.key, &item.key)
    }

    fn hash(&self) -> i32 {
        self.eq.hash(self.key)
    }
}

impl<K: Key, V: Key, H: HashEq<K>> Dict<K, V, H> {
    /// The empty map, under this equality. O(1).
    pub fn new(eq: H) -> Dict<K, V, H>
        ensures pairs { result.pairs ≡ [] }
        ensures eq { result.eq ≡ eq }
    {
        Dict {
            elements: HashTree::new(ByKey { eq }),
        }
    }

    /// The map of these pairs. O(1).
    pub fn of_elements(elements: HashTree<Pair<K, V>, ByKey<H>>) -> Dict<K, V, H>
        ensures pairs { result.pairs ≡ sorted (pair_cmp K.cmp V.cmp) (entries elements.items) }
        ensures eq { result.eq ≡ elements.eq.eq }
    {
        Dict { elements }
    }

    /// The pairs, by the hashes of their keys. O(1).
    pub fn elements(&self) -> &HashTree<Pair<K, V>, ByKey<H>>
        ensures pairs { sorted (pair_cmp K.cmp V.cmp) (entries result.now.items) ≡ self.now.pairs }
        ensures eq { result.now.eq.eq ≡ self.now.eq }
    {
        &self.elements
    }

    /// The equality that says which keys are same. O(1).
    pub fn comparer(&self) -> H
        ensures { result ≡ self.now.eq }
    {
        self.elements().comparer().eq
    }

    /// How many pairs there are. O(1).
    pub fn count(&self) -> u32
        ensures count { result ≡ length self.now.pairs }
        ensures map { IsSet (on (λ e. e.0) K.cmp) (on (λ e. e.0) (H.same self.now.eq))
            self.now.pairs }
    {
        self.elements().count()
    }

    /// An equal map that shares the nodes. O(1).
    pub fn share(&self) -> Result<Dict<K, V, H>, Memory>
        ensures { IfOk result (λ map. map ≡ self.now) }
    {
        let elements = self.elements().share()?;
        Ok(Dict::of_elements(elements))
    }

    /// The empty map. O(1).
    pub fn clear(&self) -> Edit<Dict<K, V, H>>
        ensures { MapAnswers self.now.eq (Ok result) (clear self.now.pairs) }
    {
        if self.count() == 0 {
            Edit::Same
        } else {
            Edit::New(Dict::new(self.comparer()))
        }
    }

    // The pair whose key is same.
    pub(crate) fn pair(&self, key: &K) -> Option<&Pair<K, V>>
        ensures { option_map entry (option_copied result) ≡ entry_of (H.same self.now.eq) key.now
            self.now.pairs }
    {
        let elements = self.elements();
        // (for the proof alone: that no two keys are same)
        let _count = elements.count();
        let eq = elements.comparer().eq;
        elements.find_where(&SoughtKey { key, eq })
    }

    /// The pair in place of the pair whose key is same, or put in its place, however many there are. It
    /// costs what `add` does.
    pub fn with(&self, alloc: Global, key: K, value: V) -> Result<Dict<K, V, H>, Memory>
        ensures pairs { IfOk result (λ m. m.pairs ≡ with_pair K.cmp (H.same self.now.eq) key value
            self.now.pairs) }
        ensures eq { IfOk result (λ m. m.eq ≡ self.now.eq) }
    {
        let elements = self.elements().with(alloc, Pair { key, value })?;
        Ok(Dict::of_elements(elements))
    }

    /// The map without the pair of the key, which is present. It costs what `add` does.
    pub fn reduced(&self, alloc: Global, key: &K) -> Result<Dict<K, V, H>, Memory>
        requires { has_key (H.same self.now.eq) key.now self.now.pairs ≡ true }
        ensures pairs { IfOk result (λ m. m.pairs ≡ without_key (H.same self.now.eq) key.now
            self.now.pairs) }
        ensures eq { IfOk result (λ m. m.eq ≡ self.now.eq) }
    {
        let elements = self.elements();
        let eq = elements.comparer().eq;
        let rest = elements.without(alloc, &SoughtKey { key, eq })?;
        Ok(Dict::of_elements(rest))
    }
}
