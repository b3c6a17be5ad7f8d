//! The words of a cell: the head, the next ticket, and a gate for each slot.
//! `docs/version-cell.md` draws the life of a gate.
ghost use Rattle.std.specs.Prelude.{◌≡◌, ◌/◌, ◌%◌, ◌^◌, ◌<◌, MatchBool, MatchOption, IsSome, Option};
ghost use Rattle.atomic_table.specs.Table.{State};
ghost use Rattle.version_slots.specs.declared.view.View.{View};
ghost use Rattle.version_slots.specs.Rule.{Sound};
ghost use Rattle.version_slots.specs.Claimable.{AreOut, CanStand, IsLeastIn, SomeIsClaimable};
ghost use Rattle.version_slots.specs.Words.{head_word, live_word, IsClaimable, IsLive};

use crate::payload::Payload;
use crate::tokens::Front;

/// How many slots a cell has.
pub const SLOTS: usize = 18;

/// How many words a cell has: the head, the next ticket, and the gates.
pub const WORDS: usize = 20;

/// Every ticket is below this one.
pub(crate) const TICKETS: u64 = 1 << 46;

// Where the head, the next ticket and the gate of the first slot stand.
pub(crate) const HEAD: usize = 0;

pub(crate) const NEXT_TICKET: usize = 1;

pub(crate) const GATES: usize = 2;

// A gate has a phase, a count of pins and a tag. A free and a held one are these words.
pub(crate) const FREE: u64 = 0;

pub(crate) const HELD: u64 = 1;

const LIVE: u64 = 2;

const RETIRED: u64 = 3;

const PHASES: u64 = 4;

const PIN_COUNTS: u64 = 1 << 16;

const TAG: u64 = 1 << 18;

/// One pin more, in the word of a gate.
pub(crate) const PIN: u64 = 4;

/// The bit by which a Live gate becomes Retired.
pub(crate) const RETIRE: u64 = 1;

// A head has a slot and a ticket.
const TICKET: u64 = 32;

/// The words of a new cell: its version has the ticket 1 and the slot 0.
pub(crate) const FIRST_WORDS: [u64; WORDS] = [
    TICKET,
    2,
    TAG + LIVE,
    0,
    0,
    0,
    0,
    0,
    0,
    0,
    0,
    0,
    0,
    0,
    0,
    0,
    0,
    0,
    0,
    0,
];

/// The head where this version is the last one.
pub(crate) fn head_word(front: Front) -> u64
    requires { (front.ticket < 2 ^ 46) × (front.slot < 18) }
    ensures { result ≡ head_word front.ticket front.slot }
{
    front.ticket * TICKET + u64::from(front.slot)
}

/// The version that a head names.
pub(crate) fn front_of(head: u64) -> Front
    ensures { result ≡ record { ticket = head / 32; slot = head % 32 } }
{
    Front {
        ticket: head / TICKET,
        slot: (head % TICKET) as u32,
    }
}

/// The gate of a version with this ticket which nobody pins.
pub(crate) fn live_word(ticket: u64) -> u64
    requires { ticket < 2 ^ 46 }
    ensures { result ≡ live_word ticket }
{
    ticket * TAG + LIVE
}

/// Whether the gate is Live, with this tag.
pub(crate) fn is_live(gate: u64, ticket: u64) -> bool
    ensures { MatchBool result (IsLive gate ticket) (¬ IsLive gate ticket) }
{
    gate % PHASES == LIVE && gate / TAG == ticket
}

/// Whether the gate may become Held: it is free, or Retired with no pins.
pub(crate) fn is_claimable(gate: u64) -> bool
    ensures { MatchBool result (IsClaimable gate) (¬ IsClaimable gate) }
{
    gate == FREE || (gate / PIN % PIN_COUNTS == 0 && gate % PHASES == RETIRED)
}

/// The least slot whose gate is claimable.
pub fn claimable(words: &[u64; WORDS]) -> Option<u32>
    ensures least { MatchOption result (AreOut SLOTS words.now) (IsLeastIn words.now) }
    ensures some { CanStand words.now → IsSome result }
{
    for slot in 0..SLOTS {
        if is_claimable(words[slot + GATES]) {
            return Some(slot as u32);
        }
    }
    None
}

/// Between any two steps on a cell some gate is claimable: 18 gates cannot all be in hand, pinned or shown, by eight passes.
pub fn some_gate_is_claimable<P: Payload>()
    ensures { (passes : _) (opening : P.Plain) (s : State (Option P) (View P.Plain)) → Sound P.plain P.follows passes opening s → SomeIsClaimable s.words }
{}
