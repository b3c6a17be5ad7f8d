//! The table of a cell is laid out, and its passes are dealt.
ghost use Rattle.std.specs.Prelude.{◌≡◌, ℕ, ◌+◌, ◌*◌, ◌<◌, ◌≤◌, IfOk, [], ◌++◌, length, map, replicate, vec_len, vec_capacity, All, Some, None};
ghost use Rattle.version_slots.specs.Views.{first_view};
ghost use Rattle.version_slots.specs.Steps.{AllAre};
ghost use Rattle.version_slots.specs.Cells.{new_views};

use crate::cell::CellTable;
use crate::payload::Payload;
use crate::places::share_all;
use crate::plays::Deal;
use crate::rule::{Opening, Place, Top};
use crate::tokens::Pass;
use crate::words::{FIRST_WORDS, SLOTS};
use atomic_table::Table;
use imm_base::Memory;
use std::alloc::Global;
use std::snapshot::Snapshot;

/// The shares in the places of the first slot, and nothing in the others.
pub(crate) fn first_slots<P: Payload>(
    alloc: Global,
    first: &P,
    mut shares: Vec<P>,
    passes: usize,
) -> Result<Vec<Option<P>>, Memory>
    requires { (length shares.items ≡ passes)
        × AllAre P.plain (P.plain first.now) shares.items
        × (passes ≤ 8) }
    ensures { IfOk result (λ v.
        (ys : _) × (length ys ≡ passes)
        × AllAre P.plain (P.plain first.now) ys
        × (v.items ≡ map Some ys ++ replicate (17 * passes) None)) }
{
    let _ = first;
    let mut slots = Vec::new(alloc);
    while let Some(share) = shares.pop() {
        let Ok(()) = slots.push(Some(share)) else {
            return Err(Memory);
        };
    }
    let mut empty = 0;
    while empty < (SLOTS - 1) * passes {
        let Ok(()) = slots.push(None) else {
            return Err(Memory);
        };
        empty += 1;
    }
    Ok(slots)
}

/// A cell's table, and the seat that may give the other numbers away.
pub(crate) fn make_table<P: Payload>(
    alloc: Global,
    passes: usize,
    first: P,
) -> Result<(CellTable<P>, Place<P>), Memory>
    requires { (0 < passes) × (passes ≤ 8) × (P.position_of (P.plain first) ≡ 0) }
    ensures table { IfOk result (λ t.
        (t.0.shared.table_id.words ≡ 20)
        × (18 * passes ≡ t.0.shared.table_id.slots)
        × (passes ≡ t.0.shared.key.passes)) }
    ensures first { IfOk result (λ t. P.plain t.0.shared.key.payload.value ≡ P.plain first) }
    ensures seat { IfOk result (λ t.
        (t.1.table_id ≡ t.0.shared.table_id)
        × (t.1.me ≡ (first_view passes (P.plain first), []))) }
{
    let about = Opening {
        passes,
        payload: Snapshot::of(&first),
    };
    let shares = share_all(alloc, &first, passes)?;
    let slots = first_slots(alloc, &first, shares, passes)?;
    match Table::new(alloc, &FIRST_WORDS, slots, &about) {
        Ok(made) => Ok(made),
        Err(_) => Err(Memory),
    }
}

/// The passes of a new cell, in the order of their numbers. The seat has the first number, and gives the others away.
pub(crate) fn deal<P: Payload>(
    top: &Top<P>,
    mut seat: Place<P>,
    mut passes: Vec<Pass<P>>,
    count: u32,
) -> Vec<Pass<P>>
    requires table { (seat.table_id ≡ top.now.table_id)
        × (top.now.table_id.words ≡ 20)
        × (18 * count ≡ top.now.table_id.slots)
        × (0 < count) }
    requires seat { seat.me ≡ (first_view count (P.plain top.now.key.payload.value), []) }
    requires room { (passes.items ≡ []) × (count ≤ vec_capacity passes) }
    ensures views { map (λ p. p.place.me.0) result.items ≡ new_views count (P.plain top.now.key.payload.value) }
    ensures table { All (λ p. p.place.table_id ≡ top.now.table_id) result.items }
{
    let mut number = 1;
    while number < count {
        number += 1;
        let place = top.split_seat::<Deal>(&mut seat);
        passes.push_reserved(Pass::of(number, place));
    }
    passes.push_reserved(Pass::of(1, seat));
    passes.rotate_right(1);
    passes
}
