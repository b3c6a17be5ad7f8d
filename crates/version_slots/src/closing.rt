//! A cell is closed: its passes become one seat, and one share of the last version is handed out.
ghost use Rattle.std.specs.Prelude.{◌≡◌, ℕ, ◌+◌, ◌*◌, ◌<◌, ◌≤◌, [], map, length, All, Some, None};
ghost use Rattle.std.specs.Mem.Slots.{slots_items, slots_len, IsFull};
ghost use mathlib.Core.Option.{some};
ghost use lib.ListN.{get_elem?};
ghost use Rattle.version_slots.specs.Words.{head_word};
ghost use Rattle.version_slots.specs.Cells.{IsIdle, AreIn, olds_of};

use crate::payload::Payload;
use crate::plays::Gather;
use crate::rule::{Place, Top};
use crate::tokens::{Closed, Pass};
use crate::words::{HEAD, front_of};
use atomic_table::Closed as ClosedTable;
use std::alloc::Global;

/// One seat, into which all passes are joined.
pub(crate) fn gather<P: Payload>(top: &Top<P>, mut passes: Vec<Pass<P>>) -> Place<P>
    requires table { (0 < top.now.table_id.words)
        × All (λ p. p.place.table_id ≡ top.now.table_id) passes.items }
    requires idle { All (λ p. IsIdle p.place.me.0) passes.items }
    requires some_pass { 0 < length passes.items }
    ensures seat { (result.table_id ≡ top.now.table_id) × IsIdle result.me.0 }
    ensures all { AreIn (map (λ p. p.place.me.0) passes.items) (olds_of result.me.0) }
{
    let Some(last) = passes.pop() else {
        unreachable!()
    };
    let mut seat = last.into_place();
    while let Some(pass) = passes.pop() {
        top.join_seat::<Gather>(&mut seat, pass.into_place());
    }
    passes.destroy_empty();
    seat
}

/// The payload in the first place of the head's slot, and the head. The other payloads are dropped.
pub(crate) fn take_last<P: Payload>(
    mut table: ClosedTable<Option<P>, Global>,
    passes: usize,
) -> Closed<P>
    requires counts { (slots_len table.words ≡ 20)
        × (slots_len table.slots ≡ 18 * passes)
        × (0 < passes)
        × (passes ≤ 8) }
    requires full { IsFull table.words × IsFull table.slots }
    requires last { (ticket : ℕ) × (slot : ℕ) × (payload : _)
        × (get_elem? (slots_items table.words) 0 ≡ some (head_word ticket slot))
        × (slot < 18)
        × (get_elem? (slots_items table.slots) (slot * passes) ≡ some (Some payload)) }
    ensures front { (get_elem? (slots_items table.words) 0 ≡ some (head_word result.front.ticket result.front.slot))
        × (result.front.slot < 18) }
    ensures payload { get_elem? (slots_items table.slots) (result.front.slot * passes) ≡ some (Some result.payload) }
{
    let front = front_of(table.word(HEAD));
    let at = front.slot as usize * passes;
    let mut last = None;
    let mut next = 0;
    while next < table.slot_count() {
        let share = table.take(next);
        if next == at {
            last = share;
        }
        next += 1;
    }
    table.free();
    Closed {
        payload: last.unwrap(),
        front,
    }
}
