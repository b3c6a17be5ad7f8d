//! A cell with a persistent collection, and its passes.
ghost use Rattle.std.specs.Prelude.{◌≡◌, ◌+◌, ◌<◌, ◌≤◌, IfOk, IfErr, All, [], length, map, vec_capacity};
ghost use Rattle.version_slots.specs.Cells.{AreAll};
ghost use Rattle.interlocked.specs.Called.{IsDone, IsOutOfMemory, IsRead};
ghost use Rattle.interlocked.specs.Rights.{MadeIn, ReadsAt};
ghost use Rattle.plain_model.specs.Cell.{cell};
ghost use Rattle.plain_model.specs.declared.commands.PlainCall.TheVariants as calls;
ghost use Rattle.interlocked.specs.Updates.{IsMap, TellsValue};
ghost use Rattle.version_slots.specs.Tokens.{front_of};
ghost use Rattle.interlocked.specs.Whole.{EndsWhole, new_passes};
ghost use Rattle.interlocked.specs.Retries.{OnlyVisits, Tries};
ghost use Rattle.interlocked.specs.Entries.{kind_in};
ghost use Rattle.interlocked.specs.Known.{IsLater, IsReady, IsStill, Known, Knows, Moves, Reads, Shared, Unread};

use crate::answers::{Attempt, PeekFault, Stamp};
use crate::change::{Change, Share};
use crate::entry::Kept;
use crate::logged::Logged;
use crate::passes::{unwrap, wrap};
use crate::tries::{peek_once, try_once};
use crossbeam_utils::Backoff;
use imm_base::Memory;
use plain_model::Reply;
use queue_stack::SkewList;
use std::alloc::Global;
use std::marker::Model;
use std::sync::Wait;
use version_slots::{Closed, Front, Pass, Payload, VersionCell};

/// A cell. Contracts see which it is, how many passes it has, and what it began with.
#[derive(Drop)]
pub struct ImmCell<C: Share, X: Change<C>>
where
    Logged<C, X>: Payload<Plain = Kept>,
{
    cell: VersionCell<Logged<C, X>>,
}

impl<C: Share, X: Change<C>> Model for ImmCell<C, X>
where
    Logged<C, X>: Payload<Plain = Kept>,
{
    ghost Value = { Shared };

    ghost view = { λ c. record {
      table = c.cell.table.shared.table_id;
      passes = c.cell.passes;
      first = ⟦<Logged<C, X> as Payload>⟧.plain c.cell.table.shared.key.payload.value;
    } };
}

/// The right of one caller to call a cell. It cannot be dropped: `close` takes it back, or it is given
/// up. Contracts see what it knows.
pub struct CellPass<C: Share, X: Change<C>>
where
    Logged<C, X>: Payload<Plain = Kept>,
{
    pub(crate) pass: Pass<Logged<C, X>>,
    pub(crate) last: u64,
}

impl<C: Share, X: Change<C>> Model for CellPass<C, X>
where
    Logged<C, X>: Payload<Plain = Kept>,
{
    ghost Value = { Known };

    ghost view = { λ p. record { table = p.pass.place.table_id; view = p.pass.place.me.0; last = p.last; kind = kind_in p.pass.place.me.0.seen } };

    ghost invariant = { λ p. IsReady p.pass.place.me.0 p.last };
}

impl<C: Share, X: Change<C>> CellPass<C, X> {
    /// From 1 on.
    pub fn number(&self) -> u32
        ensures { result ≡ self.now.view.number }
    {
        self.pass.number()
    }

    /// The ordinal of the last call, or 0.
    pub fn last_ordinal(&self) -> u64
        ensures { result ≡ self.now.last }
    {
        self.last
    }

    /// The front of the last version that was seen.
    pub fn seen(&self) -> Front
        ensures { result ≡ front_of self.now.view.seen }
    {
        self.pass.seen()
    }

    /// Gives the pass up: its cell can never be closed then. For a caller that met want of memory.
    pub fn give_up(self) {
        let CellPass { pass, last: _ } = self;
        pass.give_up();
    }

    /// (for proofs alone) The kind of the cell's values is that of what was seen.
    pub(crate) fn has_kind(&self)
        ensures { self.now.kind ≡ kind_in self.now.view.seen }
    {
        let _ = &self.pass;
    }

    /// Counts a call that installs nothing as the last one.
    pub(crate) fn count_call(&mut self, ordinal: u64)
        requires { self.old.last < ordinal }
        ensures { self.new ≡ record self.old { last = ordinal } }
    {
        self.last = ordinal;
    }
}

impl<C: Share, X: Change<C>> ImmCell<C, X> {
    /// A cell with this value, and its passes in the order of their numbers, which begin with 1.
    pub fn make(
        alloc: Global,
        callers: u32,
        first: C,
    ) -> Result<(ImmCell<C, X>, Vec<CellPass<C, X>>), Memory>
        requires { (0 < callers) × (callers ≤ 8) }
        ensures cell { IfOk result (λ made. (made.0.passes ≡ callers) × (made.0.first ≡ record { value = C.plain first; entries = [] })) }
        ensures passes { IfOk result (λ made. made.1.items ≡ new_passes made.0.table callers (record { value = C.plain first; entries = [] })) }
    {
        let room = Vec::with_capacity(alloc, callers as usize)?;
        let first = Logged {
            value: first,
            entries: SkewList::new(),
        };
        let (cell, passes) = match VersionCell::make(alloc, callers, first) {
            Ok(made) => made,
            Err(memory) => {
                room.destroy_empty();
                return Err(memory);
            }
        };
        let passes = wrap(passes, room);
        Ok((ImmCell { cell }, passes))
    }

    /// Ends the cell, and answers its last version. These are all its passes.
    pub fn close(
        self,
        alloc: Global,
        passes: Vec<CellPass<C, X>>,
    ) -> Result<Closed<Logged<C, X>>, Memory>
        requires table { All (λ p. p.table ≡ self.table) passes.items }
        requires all { AreAll self.passes (map (λ p. p.view) passes.items) }
        ensures { IfOk result (λ c. EndsWhole self.first (map (λ p. p.view) passes.items) c.front (⟦<Logged<C, X> as Payload>⟧.plain c.payload)) }
    {
        let ImmCell { cell } = self;
        let passes = unwrap(alloc, passes)?;
        let closed = cell.close(passes)?;
        Ok(closed)
    }

    /// Makes one try at a call.
    pub fn attempt(
        &self,
        alloc: Global,
        pass: &mut CellPass<C, X>,
        ordinal: u64,
        call: &X,
    ) -> Result<Attempt, Memory>
        requires own { pass.old.table ≡ self.now.table }
        requires above { pass.old.last < ordinal }
        requires suits { X.suits call.now pass.old.kind }
        ensures later { IsLater pass.old pass.new }
        ensures knows { Knows pass.new.view }
        ensures tries { IfOk result (Tries pass.old.view ordinal (X.meaning call.now) pass.new.view) }
        ensures moves { IfOk result (Moves pass.old ordinal pass.new) }
        ensures made { IfOk result (MadeIn pass.old.view pass.new.view ordinal (X.meaning call.now)) }
        ensures memory { IfErr result (λ _. OnlyVisits pass.old.view pass.new.view × IsStill pass.old pass.new) }
    {
        let attempt = try_once(&self.cell, alloc, &mut pass.pass, ordinal, call)?;
        if let Attempt::Done(..) = attempt {
            pass.last = ordinal;
        }
        Ok(attempt)
    }

    /// Repeats `attempt` until the call is done. Between two tries it backs off; nothing but this and `read` waits.
    pub fn call<R: Wait>(
        &self,
        rt: &R,
        alloc: Global,
        pass: &mut CellPass<C, X>,
        ordinal: u64,
        call: &X,
    ) -> Result<(Reply, Stamp), Memory>
        requires own { pass.old.table ≡ self.now.table }
        requires above { pass.old.last < ordinal }
        requires suits { X.suits call.now pass.old.kind }
        ensures done { IfOk result (λ t. IsDone pass.old ordinal (X.meaning call.now) pass.new t.0 t.1) }
        ensures memory { IfErr result (λ _. IsOutOfMemory pass.old pass.new) }
    {
        let backoff = Backoff::new();
        'tries: for _ in rt.forever() {
            match self.attempt(alloc, pass, ordinal, call)? {
                Attempt::Done(reply, stamp) => return Ok((reply, stamp)),
                Attempt::Again(_) => {}
            }
            backoff.snooze();
        }
        unreachable!()
    }

    /// Reads the value once.
    pub fn peek(&self, pass: &mut CellPass<C, X>) -> Result<(C, Stamp), PeekFault>
        requires { pass.old.table ≡ self.now.table }
        ensures still { IsStill pass.old pass.new }
        ensures knows { Knows pass.new.view }
        ensures reads { IfOk result (λ t. Reads pass.old.view (C.plain t.0) t.1 pass.new.view) }
        ensures made { IfOk result (λ t. ReadsAt pass.old.view pass.new.view (C.plain t.0) t.1) }
        ensures kind { IfOk result (λ t. (C.plain t.0).kind ≡ pass.old.kind) }
        ensures unread { IfErr result (Unread pass.old.view pass.new.view) }
    {
        peek_once(&self.cell, &mut pass.pass)
    }

    /// Repeats `peek` until it reads a value.
    pub fn read<R: Wait>(&self, rt: &R, pass: &mut CellPass<C, X>) -> Result<(C, Stamp), Memory>
        requires { pass.old.table ≡ self.now.table }
        ensures read { IfOk result (λ t. IsRead pass.old (C.plain t.0) pass.new t.1) }
        ensures memory { IfErr result (λ _. IsOutOfMemory pass.old pass.new) }
    {
        let backoff = Backoff::new();
        'tries: for _ in rt.forever() {
            match self.peek(pass) {
                Ok(read) => return Ok(read),
                Err(PeekFault::Memory) => return Err(Memory),
                Err(PeekFault::Pin(_)) => {}
            }
            backoff.snooze();
        }
        unreachable!()
    }
}

/// A conditional update tells whether the key had the value that it was compared with, in the value at its place.
pub fn update_tells()
    ensures { (p : _) (key value comparison : _) → IsMap p → TellsValue p key comparison (cell (calls.TryUpdate key value comparison) p).reply }
{}
