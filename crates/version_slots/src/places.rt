//! The places of a slot that a seat has in hand, one for each pass.
ghost use Rattle.std.specs.Prelude.{◌≡◌, ℕ, ◌+◌, ◌-◌, ◌*◌, ◌^◌, ◌<◌, ◌≤◌, IfOk, [], ◌∷◌, ◌++◌, map, length, Some, None};
ghost use Rattle.version_slots.specs.Steps.{AllAre, Behind, row_on};

use crate::payload::Payload;
use crate::rule::{Place, Top};
use imm_base::Memory;
use std::alloc::Global;

/// As many shares of a payload as there are passes.
pub(crate) fn share_all<P: Payload>(
    alloc: Global,
    payload: &P,
    passes: usize,
) -> Result<Vec<P>, Memory>
    ensures { IfOk result (λ v.
        (length v.items ≡ passes)
        × AllAre P.plain (P.plain payload.now) v.items) }
{
    let mut shares = Vec::new(alloc);
    while shares.len() < passes {
        let share = payload.share()?;
        let Ok(()) = shares.push(share) else {
            return Err(Memory);
        };
    }
    Ok(shares)
}

/// The place of a pass in a slot.
pub(crate) fn place_of(slot: usize, passes: usize, number: u32) -> usize
    requires { (slot < 18) × (passes ≤ 8) × (0 < number) }
    ensures { result ≡ slot * passes + (number - 1) }
{
    slot * passes + (number as usize - 1)
}

/// Puts the shares into the places from `at` on.
pub(crate) fn fill_row<P: Payload>(
    top: &Top<P>,
    place: &mut Place<P>,
    at: usize,
    pins: bool,
    payload: &P,
    mut shares: Vec<P>,
)
    requires table { place.old.table_id ≡ top.now.table_id }
    requires row { (xs : _) × (c : _) × (length xs ≡ length shares.items)
        × (place.old.me.1 ≡ row_on at xs c)
        × Behind pins c }
    requires room { at + length shares.items < 2 ^ 32 }
    requires same { AllAre P.plain (P.plain payload.now) shares.items }
    ensures seat { (place.new.table_id ≡ place.old.table_id)
        × (place.new.id ≡ place.old.id)
        × (place.new.me.0 ≡ place.old.me.0) }
    ensures row { (xs : _) × (ys : _) × (c : _) × (place.old.me.1 ≡ row_on at xs c)
        × (length xs ≡ length shares.items)
        × (length ys ≡ length shares.items)
        × AllAre P.plain (P.plain payload.now) ys
        × (place.new.me.1 ≡ row_on at (map Some ys) c) }
{
    let _ = payload;
    let mut next = at;
    while let Some(share) = shares.pop() {
        drop(top.exchange(place, next, Some(share)));
        place.turn();
        next += 1;
    }
    if pins {
        place.turn();
    }
}

/// Takes the payloads out of the places from `at` on, and answers the first.
pub(crate) fn empty_row<P: Payload>(
    top: &Top<P>,
    place: &mut Place<P>,
    at: usize,
    pins: bool,
    passes: usize,
) -> P
    requires table { (place.old.table_id ≡ top.now.table_id) × (0 < passes) }
    requires row { (ys : _) × (c : _) × (length ys ≡ passes)
        × (place.old.me.1 ≡ row_on at (map Some ys) c)
        × Behind pins c }
    requires room { at + passes < 2 ^ 32 }
    ensures seat { (place.new.table_id ≡ place.old.table_id)
        × (place.new.id ≡ place.old.id)
        × (place.new.me.0 ≡ place.old.me.0) }
    ensures row { (ys : _) × (xs : _) × (c : _) × (length ys ≡ passes - 1)
        × (length xs ≡ passes)
        × (place.old.me.1 ≡ row_on at (map Some (result ∷ ys)) c)
        × (place.new.me.1 ≡ row_on at xs c) }
{
    let payload = top.exchange(place, at, None).unwrap();
    place.turn();
    let mut next = at + 1;
    let end = at + passes;
    while next < end {
        drop(top.exchange(place, next, None));
        place.turn();
        next += 1;
    }
    if pins {
        place.turn();
    }
    payload
}
