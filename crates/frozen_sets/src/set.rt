// Frozen sets.
ghost use Rattle.std.specs.Prelude.{◌≡◌, ◌≤◌, ◌<◌, ◌+◌, ◌*◌, ◌/◌, ◌^◌, length, max, position, vec_len, IfOk};
ghost use Rattle.std.specs.Int.{IsPowerOfTwo};
ghost use Rattle.std.specs.Option.{option_copied};
ghost use Rattle.imm_base.specs.Order.{eq_same};
ghost use Rattle.imm_base.specs.Sets.{has, same_in};
ghost use Rattle.plain_model.specs.Frozen.{frozen_elements, strategy_of};

use crate::buckets::Buckets;
use crate::choice::strategy_of;
use crate::kept::kept;
use crate::order::order_of;
use crate::table::Table;
use imm_base::{Memory, Val, ValEq, ValOrder};
use plain_model::Strategy;
use std::alloc::Global;
use std::marker::Model;

/// A set that never changes and is quick to search, of fewer than 2^31 elements. Contracts see its
/// elements, in ordinal order, and the equality.
///
/// Where f elements of n have the code that the strategy gives a value, a lookup costs O(1 + f). By
/// length and by slice f is at most 1. Under `ValEq::One` it is n, and otherwise few elements share a
/// hash.
#[derive(Drop)]
pub struct FrozenSet {
    elements: Vec<Val>,
    buckets: Buckets,
    table: Table,
}

impl Model for FrozenSet {
    ghost use Rattle.frozen_sets.specs.Frozen.{Elements};
    ghost use Rattle.frozen_sets.specs.Keys.{AreKept};

    ghost Value = { Elements };

    ghost view = { λ s. record { eq = s.buckets.eq; items = s.elements.items } };

    ghost invariant = { λ s. AreKept s.buckets s.elements.items s.table.firsts.items
        s.table.nexts.items };
}

impl FrozenSet {
    /// The set of these values: of those that are same, the first. O(n log n) for n values, where the
    /// choice of a slice may sort as many as 300 times; memory O(n).
    pub fn from_list(alloc: Global, values: &[Val], eq: ValEq) -> Result<FrozenSet, Memory>
        requires { length values.now < 2 ^ 31 }
        ensures items { IfOk result (λ set. set.items ≡ frozen_elements eq values.now) }
        ensures eq { IfOk result (λ set. set.eq ≡ eq) }
    {
        let values = Vec::from_slice(alloc, values)?;
        let elements = kept(values, &order_of(eq), &ValOrder::Ordinal)?;
        FrozenSet::of_kept(alloc, elements, eq)
    }

    // The set of these elements, as they stand.
    pub(crate) fn of_kept(alloc: Global, elements: Vec<Val>, eq: ValEq) -> Result<FrozenSet, Memory>
        requires { vec_len elements < 2 ^ 31 }
        ensures items { IfOk result (λ set. set.items ≡ elements.items) }
        ensures eq { IfOk result (λ set. set.eq ≡ eq) }
    {
        let buckets = Buckets {
            strategy: strategy_of(alloc, elements.as_slice(), eq)?,
            eq,
            mask: last_bucket(elements.len()),
        };
        let table = Table::new(alloc, elements.as_slice(), &buckets)?;
        Ok(FrozenSet {
            elements,
            buckets,
            table,
        })
    }

    // The elements, in ordinal order.
    pub(crate) fn elements(&self) -> &[Val]
        ensures elements { result.now ≡ self.now.items }
        ensures few { length self.now.items < 2 ^ 31 }
    {
        self.elements.as_slice()
    }

    // The place of the element that is same.
    #[tactic(auto, using(crate::proofs::Alike::alike))]
    pub(crate) fn place_of(&self, value: &Val) -> Option<usize>
        ensures { result ≡ position (eq_same self.now.eq value.now) self.now.items }
    {
        self.table
            .place_of(self.elements.as_slice(), &self.buckets, value)
    }

    /// How an element is looked for. O(1).
    pub fn strategy(&self) -> Strategy
        ensures { result ≡ strategy_of self.now.eq self.now.items }
    {
        self.buckets.strategy
    }

    /// How many elements there are. O(1).
    pub fn count(&self) -> u32
        ensures { result ≡ length self.now.items }
    {
        self.elements().len() as u32
    }

    /// Whether the value is same to an element: a lookup.
    pub fn contains(&self, value: &Val) -> bool
        ensures { result ≡ has (eq_same self.now.eq) value.now self.now.items }
    {
        self.actual(value).is_some()
    }

    /// The element that is same to the value, if there is one: a lookup.
    pub fn actual(&self, value: &Val) -> Option<&Val>
        ensures { option_copied result ≡ same_in (eq_same self.now.eq) value.now self.now.items }
    {
        match self.place_of(value) {
            Some(place) => self.elements().get(place),
            None => None,
        }
    }

    /// A copy of the elements, in ordinal order. O(n).
    pub fn to_vec(&self, alloc: Global) -> Result<Vec<Val>, Memory>
        ensures { IfOk result (λ v. v.items ≡ self.now.items) }
    {
        Ok(Vec::from_slice(alloc, self.elements())?)
    }
}

// The last bucket of a table for so many elements: there are at least twice as many buckets, and
// as few as a power of two can be.
fn last_bucket(count: usize) -> usize
    requires { count < 2 ^ 31 }
    ensures power { IsPowerOfTwo (result + 1) }
    ensures room { 2 * count ≤ result + 1 }
    ensures least { (result + 1) / 2 < max 1 (2 * count) }
{
    (2 * count).next_power_of_two() - 1
}
