//! Local names: what each is bound to, for the grammar and for a run.
ghost use Rattle.std.specs.Prelude.{◌≡◌, ◌<◌, [], ◌∷◌, ◌++◌, length, slice_get, is_some, Some, option_map, OnOk, OnErr, bytes_eq};
ghost use Rattle.std.specs.Borrow.{sem};
ghost use Rattle.std.specs.List.{position};
ghost use Rattle.std.specs.Option.{option_copied, option_copied_mut};
ghost use Rattle.plain_model.specs.Names.{get, with_name, contents_kind, collection_kind};
ghost use Rattle.plain_model.specs.Names.{is_alike_class};
ghost use Rattle.plain_model.specs.NamesLends.{lends_get, lends_value};

use crate::Kind;
use imm_base::{Memory, Text24};
use std::alloc::Global;
use std::marker::Model;

/// Names, each with what it is bound to, in the order in which they were first bound. Contracts
/// see the list of names with values.
///
/// `get`, `get_mut` and `bind` take O(n) steps for n names.
#[derive(Debug, Drop)]
pub struct Names<T> {
    bindings: Vec<(Text24, T)>,
}

impl<T> Model for Names<T> {
    ghost use Rattle.std.specs.Prelude.{List, ℕ};
    ghost use Rattle.std.specs.Coded.{coded_list, coded×, coded_ℕ};

    ghost Value = { List (List ℕ × T) };

    ghost coded = { coded_list (coded× (coded_list coded_ℕ) T.code) };

    ghost view = { λ names. names.bindings.items };
}

impl<T> Names<T> {
    /// No names, without memory.
    pub fn new(alloc: Global) -> Names<T>
        ensures { result ≡ [] }
    {
        Names {
            bindings: Vec::new(alloc),
        }
    }

    /// How many names are bound.
    pub fn count(&self) -> usize
        ensures { result ≡ length self.now }
    {
        self.bindings.len()
    }

    /// What a name is bound to, if it is.
    pub fn get(&self, name: &Text24) -> Option<&T>
        ensures { option_copied result ≡ get self.now name.now }
    {
        value_of(self.bindings.as_slice(), name)
    }

    /// What a name is bound to, to be changed, if it is bound.
    #[tactic(auto, using(crate::proofs::Bindings::place_within))]
    pub fn get_mut(&mut self, name: &Text24) -> Option<&mut T>
        ensures* writes_back { sem 𝓛 (lends_get T.row self.entry name.now result) }
        ensures value { option_copied_mut result ≡ get self.old name.now }
    {
        match place_of(self.bindings.as_slice(), *name) {
            Some(place) => Some(self.value_mut(place)),
            None => None,
        }
    }

    // What the name at the place is bound to, to be changed.
    fn value_mut(&mut self, place: usize) -> &mut T
        requires { place < length self.old }
        ensures* writes_back { sem 𝓛 (lends_value T.row self.entry place result) }
        ensures value { option_map (λ b. b.1) (slice_get self.old place) ≡ Some result.now }
    {
        &mut self.bindings[place].1
    }

    /// Whether a name is bound.
    pub fn contains(&self, name: &Text24) -> bool
        ensures { result ≡ is_some (get self.now name.now) }
    {
        self.get(name).is_some()
    }

    /// How many names there are once this one is bound.
    pub fn count_with(&self, name: &Text24) -> usize
        ensures { (value : T) → result ≡ length (with_name name.now value self.now) }
    {
        let count = self.bindings.len();
        if self.contains(name) {
            count
        } else {
            count + 1
        }
    }
}

impl<T: Drop> Names<T> {
    /// Binds a name, in place of what it was bound to, or behind the others. Want of memory leaves
    /// the names as they were.
    pub fn bind(&mut self, name: Text24, value: T) -> Result<(), Memory>
        ensures ok { OnOk result (self.new ≡ with_name name value self.old) }
        ensures err { OnErr result (self.new ≡ self.old) }
    {
        put(&mut self.bindings, name, value)
    }
}

fn value_of<'a, T>(bindings: &'a [(Text24, T)], name: &Text24) -> Option<&'a T>
    ensures { option_copied result ≡ get bindings.now name.now }
{
    for binding in bindings {
        if binding.0.as_bytes() == name.as_bytes() {
            return Some(&binding.1);
        }
    }
    None
}

// The place of a name that is bound.
fn place_of<T>(bindings: &[(Text24, T)], name: Text24) -> Option<usize>
    ensures { result ≡ position (λ b. bytes_eq b.0 name) bindings.now }
{
    bindings
        .iter()
        .position(|binding| binding.0.as_bytes() == name.as_bytes())
}

fn push<T: Drop>(bindings: &mut Vec<(Text24, T)>, name: Text24, value: T) -> Result<(), Memory>
    ensures ok { OnOk result (bindings.new.items ≡ bindings.old.items ++ (name, value) ∷ []) }
    ensures err { OnErr result (bindings.new.items ≡ bindings.old.items) }
{
    bindings.push((name, value))?;
    Ok(())
}

#[tactic(auto, using(crate::proofs::Bindings::put_in_place))]
fn put<T: Drop>(bindings: &mut Vec<(Text24, T)>, name: Text24, value: T) -> Result<(), Memory>
    ensures ok { OnOk result (bindings.new.items ≡ with_name name value bindings.old.items) }
    ensures err { OnErr result (bindings.new.items ≡ bindings.old.items) }
{
    match place_of(bindings.as_slice(), name) {
        Some(place) => bindings[place] = (name, value),
        None => push(bindings, name, value)?,
    }
    Ok(())
}

/// What a local name is bound to, as far as the grammar tells.
#[derive(Clone, Copy, Debug, PartialEq, Eq)]
pub enum Class {
    Collection(Kind),
    Builder(Kind),
    /// A frozen set is kept as a hash set, and a frozen map as a dictionary.
    Frozen(Kind),
    Walk,
}

impl Class {
    /// The kind, where it has elements: a builder and a frozen collection count as collections.
    pub fn contents_kind(self) -> Option<Kind>
        ensures { result ≡ contents_kind self }
    {
        match self {
            Class::Collection(kind) | Class::Builder(kind) | Class::Frozen(kind) => Some(kind),
            Class::Walk => None,
        }
    }

    /// The kind of a collection.
    pub fn collection_kind(self) -> Option<Kind>
        ensures { result ≡ collection_kind self }
    {
        match self {
            Class::Collection(kind) => Some(kind),
            _ => None,
        }
    }

    /// Whether the classes are the same, and the kinds whatever their comparers.
    pub fn is_alike(self, other: Class) -> bool
        ensures { result ≡ is_alike_class self other }
    {
        match (self, other) {
            (Class::Collection(kind), Class::Collection(other)) => kind.is_alike(other),
            (Class::Builder(kind), Class::Builder(other)) => kind.is_alike(other),
            (Class::Frozen(kind), Class::Frozen(other)) => kind.is_alike(other),
            (Class::Walk, Class::Walk) => true,
            _ => false,
        }
    }
}
