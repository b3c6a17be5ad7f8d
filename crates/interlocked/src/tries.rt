//! One try at a call.
ghost use Rattle.std.specs.Prelude.{◌≡◌, ◌+◌, ◌≤◌, ◌^◌, ℕ, IfOk, IfErr, MatchResult, None};
ghost use Rattle.version_slots.specs.Histories.{Linked, StartsWith};
ghost use Rattle.version_slots.specs.Cells.{IsIdle};
ghost use Rattle.version_slots.specs.Refusals.{PinRefusal};
ghost use Rattle.version_slots.specs.Passes.{view_of, seen_by, IsPassOf};
ghost use Rattle.interlocked.specs.Entries.{Extends, IsBegun, kind_in, position_of};
ghost use Rattle.interlocked.specs.Tries.{Visits, Wins};
ghost use Rattle.interlocked.specs.Known.{Knows, Reads, Unread};
ghost use Rattle.interlocked.specs.Rights.{MadeIn, ReadsAt};
ghost use Rattle.interlocked.specs.Retries.{EndsIn, MineBelow, OnlyVisits, Refuses, Tries, TurnsTo};

use crate::answers::{Attempt, PeekFault, Retry, Stamp};
use crate::change::{Change, Share};
use crate::logged::{Logged, Turn};
use imm_base::Memory;
use std::alloc::Global;
use version_slots::{Base, Front, Lost, Pass, Payload, PinFault, PrepareFault, VersionCell};

type Versions<C, X> = VersionCell<Logged<C, X>>;

/// Pins the last version, and lets it go: where it stands, its position, and what the call comes to there.
fn visit<C: Share, X: Change<C>>(
    cell: &Versions<C, X>,
    alloc: Global,
    pass: &mut Pass<Logged<C, X>>,
    ordinal: u64,
    call: &X,
) -> Result<(Base, u64, Turn<C, X>), PinFault>
    requires pass { IsPassOf cell.now pass.old × IsIdle (view_of pass.old) }
    requires begun { IsBegun (seen_by pass.old) }
    requires suits { X.suits call.now (kind_in (seen_by pass.old)) }
    ensures seat { (pass.new.place.table_id ≡ pass.old.place.table_id) × IsIdle (view_of pass.new) }
    ensures later { StartsWith (seen_by pass.new) (seen_by pass.old) × ((view_of pass.new).number ≡ (view_of pass.old).number) × ((view_of pass.new).mine ≡ (view_of pass.old).mine) }
    ensures linked { Linked Extends (seen_by pass.new) }
    ensures ok { IfOk result (λ t. (kept : _) × Visits (view_of pass.old) t.0.front kept (view_of pass.new) × (t.1 ≡ position_of kept)
        × TurnsTo (⟦<Logged<C, X> as Payload>⟧.plain) kept (view_of pass.old).number ordinal (X.meaning call.now) t.2) }
    ensures few { IfOk result (λ t. t.1 ≤ 2 ^ 46) }
    ensures again { IfErr result (PinRefusal (view_of pass.old) (view_of pass.new)) }
{
    let pinned = cell.pin(pass)?;
    let base = pinned.base();
    let version = cell.version(&pinned);
    let position = version.position();
    let turn = version.turn(alloc, pass.number(), ordinal, call);
    cell.unpin(pass, pinned);
    Ok((base, position, turn))
}

/// Puts the next version in place of the base's, if that is the last one still.
fn propose<C: Share, X: Change<C>>(
    cell: &Versions<C, X>,
    alloc: Global,
    pass: &mut Pass<Logged<C, X>>,
    base: Base,
    next: Logged<C, X>,
) -> Result<Result<Front, Retry>, Memory>
    requires pass { IsPassOf cell.now pass.old × IsIdle (view_of pass.old) }
    requires base { (kept : _) × EndsIn (seen_by pass.old) base.front kept × Extends (view_of pass.old).number kept (⟦<Logged<C, X> as Payload>⟧.plain next) }
    requires linked { Linked Extends (seen_by pass.old) }
    ensures seat { (pass.new.place.table_id ≡ pass.old.place.table_id) × IsIdle (view_of pass.new) }
    ensures later { StartsWith (seen_by pass.new) (seen_by pass.old) × ((view_of pass.new).number ≡ (view_of pass.old).number) }
    ensures linked { Linked Extends (seen_by pass.new) }
    ensures ok { IfOk result (λ r. MatchResult r (λ front. Wins (view_of pass.old) base.front (⟦<Logged<C, X> as Payload>⟧.plain next) front (view_of pass.new))
        (Refuses (view_of pass.old) base.front (view_of pass.new))) }
    ensures memory { IfErr result (λ _. (view_of pass.new) ≡ (view_of pass.old)) }
{
    let pinned = base.front();
    let proposal = match cell.prepare(alloc, pass, base, next) {
        Ok(proposal) => proposal,
        Err(
            PrepareFault::Again {
                wanted,
                found,
                payload: _,
            },
        ) => return Ok(Err(Retry::Ticket { wanted, found })),
        Err(PrepareFault::Crowded { found, payload: _ }) => {
            return Ok(Err(Retry::Crowded { found }));
        }
        Err(PrepareFault::Spent { ticket, payload: _ }) => {
            return Ok(Err(Retry::Spent { counter: ticket }));
        }
        Err(PrepareFault::Memory { payload: _ }) => return Err(Memory),
    };
    match cell.install(pass, proposal) {
        Ok(receipt) => return Ok(Ok(receipt.front)),
        Err(Lost { found, payload: _ }) => {
            return Ok(Err(Retry::Lost { pinned, found }));
        }
    }
}

/// Makes one try at a call.
fn try_call<C: Share, X: Change<C>>(
    cell: &Versions<C, X>,
    alloc: Global,
    pass: &mut Pass<Logged<C, X>>,
    ordinal: u64,
    call: &X,
) -> Result<Attempt, Memory>
    requires pass { IsPassOf cell.now pass.old × IsIdle (view_of pass.old) }
    requires begun { IsBegun (seen_by pass.old) }
    requires above { MineBelow (view_of pass.old) ordinal }
    requires suits { X.suits call.now (kind_in (seen_by pass.old)) }
    ensures seat { (pass.new.place.table_id ≡ pass.old.place.table_id) × IsIdle (view_of pass.new) }
    ensures later { StartsWith (seen_by pass.new) (seen_by pass.old) × ((view_of pass.new).number ≡ (view_of pass.old).number) }
    ensures knows { Knows (view_of pass.new) }
    ensures below { MineBelow (view_of pass.new) (ordinal + 1) }
    ensures tries { IfOk result (Tries (view_of pass.old) ordinal (X.meaning call.now) (view_of pass.new)) }
    ensures made { IfOk result (MadeIn (view_of pass.old) (view_of pass.new) ordinal (X.meaning call.now)) }
    ensures memory { IfErr result (λ _. OnlyVisits (view_of pass.old) (view_of pass.new)) }
{
    let (base, position, turn) = match visit(cell, alloc, pass, ordinal, call) {
        Ok(visited) => visited,
        Err(fault) => return Ok(Attempt::Again(Retry::Pin(fault))),
    };
    let (reply, next) = match turn {
        Turn::Grows(reply, next) => (reply, next),
        Turn::Stays(reply) => {
            let stamp = Stamp {
                position,
                installed: false,
                front: base.front(),
            };
            return Ok(Attempt::Done(reply, stamp));
        }
        Turn::Full => {
            return Ok(Attempt::Again(Retry::Spent { counter: position }));
        }
        Turn::Memory => return Err(Memory),
    };
    match propose(cell, alloc, pass, base, next)? {
        Ok(front) => {
            let stamp = Stamp {
                position: position + 1,
                installed: true,
                front,
            };
            Ok(Attempt::Done(reply, stamp))
        }
        Err(retry) => Ok(Attempt::Again(retry)),
    }
}

/// The same. What has been seen keeps its kind.
pub(crate) fn try_once<C: Share, X: Change<C>>(
    cell: &Versions<C, X>,
    alloc: Global,
    pass: &mut Pass<Logged<C, X>>,
    ordinal: u64,
    call: &X,
) -> Result<Attempt, Memory>
    requires pass { IsPassOf cell.now pass.old × IsIdle (view_of pass.old) }
    requires begun { IsBegun (seen_by pass.old) }
    requires above { MineBelow (view_of pass.old) ordinal }
    requires suits { X.suits call.now (kind_in (seen_by pass.old)) }
    ensures seat { (pass.new.place.table_id ≡ pass.old.place.table_id) × IsIdle (view_of pass.new) }
    ensures later { StartsWith (seen_by pass.new) (seen_by pass.old) × ((view_of pass.new).number ≡ (view_of pass.old).number) }
    ensures begun { IsBegun (seen_by pass.new) }
    ensures kind { kind_in (seen_by pass.new) ≡ kind_in (seen_by pass.old) }
    ensures knows { Knows (view_of pass.new) }
    ensures below { MineBelow (view_of pass.new) (ordinal + 1) }
    ensures tries { IfOk result (Tries (view_of pass.old) ordinal (X.meaning call.now) (view_of pass.new)) }
    ensures made { IfOk result (MadeIn (view_of pass.old) (view_of pass.new) ordinal (X.meaning call.now)) }
    ensures memory { IfErr result (λ _. OnlyVisits (view_of pass.old) (view_of pass.new)) }
{
    try_call(cell, alloc, pass, ordinal, call)
}

/// Pins the last version, shares its collection, and lets it go.
fn peek_version<C: Share, X: Change<C>>(
    cell: &Versions<C, X>,
    pass: &mut Pass<Logged<C, X>>,
) -> Result<(C, Stamp), PeekFault>
    requires pass { IsPassOf cell.now pass.old × IsIdle (view_of pass.old) }
    requires begun { IsBegun (seen_by pass.old) }
    ensures seat { (pass.new.place.table_id ≡ pass.old.place.table_id) × IsIdle (view_of pass.new) }
    ensures later { StartsWith (seen_by pass.new) (seen_by pass.old) × ((view_of pass.new).number ≡ (view_of pass.old).number) × ((view_of pass.new).mine ≡ (view_of pass.old).mine) }
    ensures knows { Knows (view_of pass.new) }
    ensures ok { IfOk result (λ t. Reads (view_of pass.old) (C.plain t.0) t.1 (view_of pass.new)) }
    ensures made { IfOk result (λ t. ReadsAt (view_of pass.old) (view_of pass.new) (C.plain t.0) t.1) }
    ensures value_kind { IfOk result (λ t. (C.plain t.0).kind ≡ kind_in (seen_by pass.old)) }
    ensures unread { IfErr result (Unread (view_of pass.old) (view_of pass.new)) }
{
    let pinned = match cell.pin(pass) {
        Ok(pinned) => pinned,
        Err(fault) => return Err(PeekFault::Pin(fault)),
    };
    let base = pinned.base();
    let version = cell.version(&pinned);
    let position = version.position();
    let value = version.value.share();
    cell.unpin(pass, pinned);
    let Ok(value) = value else {
        return Err(PeekFault::Memory);
    };
    let stamp = Stamp {
        position,
        installed: false,
        front: base.front(),
    };
    Ok((value, stamp))
}

/// The same. What has been seen keeps its kind.
pub(crate) fn peek_once<C: Share, X: Change<C>>(
    cell: &Versions<C, X>,
    pass: &mut Pass<Logged<C, X>>,
) -> Result<(C, Stamp), PeekFault>
    requires pass { IsPassOf cell.now pass.old × IsIdle (view_of pass.old) }
    requires begun { IsBegun (seen_by pass.old) }
    ensures seat { (pass.new.place.table_id ≡ pass.old.place.table_id) × IsIdle (view_of pass.new) }
    ensures later { StartsWith (seen_by pass.new) (seen_by pass.old) × ((view_of pass.new).number ≡ (view_of pass.old).number) × ((view_of pass.new).mine ≡ (view_of pass.old).mine) }
    ensures begun { IsBegun (seen_by pass.new) }
    ensures kind { kind_in (seen_by pass.new) ≡ kind_in (seen_by pass.old) }
    ensures knows { Knows (view_of pass.new) }
    ensures ok { IfOk result (λ t. Reads (view_of pass.old) (C.plain t.0) t.1 (view_of pass.new)) }
    ensures made { IfOk result (λ t. ReadsAt (view_of pass.old) (view_of pass.new) (C.plain t.0) t.1) }
    ensures value_kind { IfOk result (λ t. (C.plain t.0).kind ≡ kind_in (seen_by pass.old)) }
    ensures unread { IfErr result (Unread (view_of pass.old) (view_of pass.new)) }
{
    peek_version(cell, pass)
}
