//! A worker's passes and logs, and its calls.
ghost use Rattle.std.specs.Prelude.{◌≡◌, ◌+◌, ◌<◌, ◌++◌, ◌∷◌, [], IfOk, None, OnOk, Some, false, length, slice_get, true};
ghost use Rattle.plain_model.specs.declared.commands.PlainCall.TheVariants as calls;
ghost use Rattle.plain_model.specs.Cell.{is_map};
ghost use Rattle.plain_model.specs.History.{probe_of};
ghost use Rattle.plain_model.specs.Plain.{is_unset, shape_of};
ghost use Rattle.cell_calls.specs.Calls.{Suits, plain_call};
ghost use Rattle.interlocked.specs.Factories.{Looks};
ghost use Rattle.runs.specs.Calls.{HasKeys, MayCall};
ghost use Rattle.seats.specs.Seats.{IsReadyFor};
ghost use Rattle.seats.specs.Steps.{HasCalledAt, IsCalled, IsDoneAndNoted, kinds_in, seated, stamped_line};

use crate::passes::SharedPass;
use crate::shared::{CellChange, CellValue, SharedCell};
use cell_calls::{CellCall, value_in};
use collections::Collection;
use imm_base::{Memory, Tokens, Val};
use interlocked::Stamp;
use plain_model::{Factory, Line, Listed, PlainCall, Probe, Reply};
use std::alloc::Global;
use std::sync::Wait;

/// A worker's pass of each cell, and what it noted of its calls there.
#[derive(Drop)]
pub(crate) struct Places {
    pub passes: Vec<SharedPass>,
    pub logs: Vec<Listed<Line>>,
    /// The ordinal of the last call or read, or 0.
    pub last: u64,
}

// Puts the line of a call behind the others.
fn push_line(
    log: &mut Listed<Line>,
    caller: u32,
    ordinal: u64,
    call: PlainCall,
    reply: Reply,
    stamp: &Stamp,
) -> Result<(), Memory>
    ensures { OnOk result (log.new ≡ log.old ++ stamped_line caller ordinal call reply stamp.now ∷ []) }
{
    log.push(Line {
        position: stamp.position,
        caller,
        ordinal,
        call,
        reply,
        installed: stamp.installed,
    })?;
    Ok(())
}

// Makes a call on one cell, and notes it. What its factory did, if it has one, this does not tell.
fn note_call<R: Wait>(
    rt: &R,
    alloc: Global,
    cell: &SharedCell,
    pass: &mut SharedPass,
    log: &mut Listed<Line>,
    ordinal: u64,
    call: CellCall,
) -> Result<(), Memory>
    requires own { pass.old.table ≡ cell.now.table }
    requires above { pass.old.last < ordinal }
    requires suits { Suits call pass.old.kind }
    ensures { OnOk result (IsDoneAndNoted pass.old log.old ordinal (plain_call call) pass.new log.new) }
{
    let caller = pass.number();
    let change = CellChange { call };
    let (reply, stamp) = cell.call(rt, alloc, &mut pass.pass, ordinal, &change)?;
    let call = change.call.into_plain(alloc)?;
    push_line(log, caller, ordinal, call, reply, &stamp)?;
    Ok(())
}

// Makes a call without a factory on one cell, and notes it.
fn call_one<R: Wait>(
    rt: &R,
    alloc: Global,
    cell: &SharedCell,
    pass: &mut SharedPass,
    log: &mut Listed<Line>,
    ordinal: u64,
    call: CellCall,
) -> Result<(), Memory>
    requires own { pass.old.table ≡ cell.now.table }
    requires above { pass.old.last < ordinal }
    requires suits { Suits call pass.old.kind }
    requires probe { probe_of (plain_call call) ≡ None }
    ensures { OnOk result (IsCalled pass.old log.old ordinal (plain_call call) None pass.new log.new) }
{
    note_call(rt, alloc, cell, pass, log, ordinal, call)?;
    Ok(())
}

// Reads the value of a key at one cell, if it has one.
fn look_up<R: Wait>(
    rt: &R,
    alloc: Global,
    cell: &SharedCell,
    pass: &mut SharedPass,
    key: &Val,
) -> Result<(Option<Val>, Stamp), Memory>
    requires own { pass.old.table ≡ cell.now.table }
    requires map { is_map (shape_of pass.old.kind) ≡ true }
    ensures { IfOk result (λ t. Looks pass.old key.now t.0 pass.new t.1) }
{
    let (value, stamp) = cell.read(rt, &mut pass.pass)?;
    let found = value_in(alloc, &value.collection, key)?;
    Ok((found, stamp))
}

// Adds what a factory makes of a key to one cell, where the key is absent, and notes it.
fn make_one<R: Wait>(
    rt: &R,
    alloc: Global,
    cell: &SharedCell,
    pass: &mut SharedPass,
    log: &mut Listed<Line>,
    ordinal: u64,
    key: Val,
    make: Factory,
) -> Result<Probe, Memory>
    requires own { pass.old.table ≡ cell.now.table }
    requires above { pass.old.last < ordinal }
    requires map { is_map (shape_of pass.old.kind) ≡ true }
    ensures { IfOk result (λ probe. IsCalled pass.old log.old ordinal
        (calls.GetOrAddMade key make probe) None pass.new log.new) }
{
    let caller = pass.number();
    let (found, stamp) = look_up(rt, alloc, cell, pass, &key)?;
    if let Some(value) = found {
        let call = PlainCall::GetOrAddMade(key, make, Probe::Idle);
        push_line(log, caller, ordinal, call, Reply::Value(value), &stamp)?;
        return Ok(Probe::Idle);
    }
    let probe = Probe::Ran {
        position: stamp.position,
    };
    let call = CellCall::Plain(PlainCall::GetOrAddMade(key, make, probe));
    note_call(rt, alloc, cell, pass, log, ordinal, call)?;
    Ok(probe)
}

// Reads one cell, and notes it.
fn read_one<R: Wait>(
    rt: &R,
    cell: &SharedCell,
    pass: &mut SharedPass,
    log: &mut Listed<Line>,
    ordinal: u64,
) -> Result<Collection, Memory>
    requires own { pass.old.table ≡ cell.now.table }
    requires above { pass.old.last < ordinal }
    ensures kind { IfOk result (λ v. v.kind ≡ pass.old.kind) }
    ensures set { IfOk result (λ v. is_unset v.values ≡ false) }
    ensures called { IfOk result (λ v. IsCalled pass.old log.old ordinal calls.Read (Some v) pass.new log.new) }
{
    let caller = pass.number();
    let (value, stamp) = cell.read(rt, &mut pass.pass)?;
    let CellValue { collection } = value;
    let reply = Reply::Count(collection.count());
    push_line(log, caller, ordinal, PlainCall::Read, reply, &stamp)?;
    Ok(collection)
}

impl Tokens for Places {
    fn last_ordinal(&self, cell: u32) -> Option<u64> {
        let pass = self.passes.get(cell as usize)?;
        Some(pass.last_ordinal())
    }

    fn ticket(&self, cell: u32) -> Option<u64> {
        let pass = self.passes.get(cell as usize)?;
        Some(pass.ticket())
    }
}

impl Places {
    /// Makes a call on the cell at a place, and notes it.
    pub fn call<R: Wait>(
        &mut self,
        rt: &R,
        alloc: Global,
        cells: &[SharedCell],
        place: usize,
        ordinal: u64,
        call: CellCall,
    ) -> Result<(), Memory>
        requires may { MayCall (kinds_in self.old.passes.items) place call }
        requires ready { IsReadyFor (seated cells.now self.old) ordinal }
        ensures { OnOk result (HasCalledAt (seated cells.now self.old) place ordinal
            (plain_call call) None (seated cells.now self.new)) }
    {
        let pass = &mut self.passes[place];
        let log = &mut self.logs[place];
        call_one(rt, alloc, &cells[place], pass, log, ordinal, call)?;
        self.last = ordinal;
        Ok(())
    }

    /// Adds what a factory makes of a key to the cell at a place, where the key is absent there, and
    /// notes it.
    pub fn get_or_add_made<R: Wait>(
        &mut self,
        rt: &R,
        alloc: Global,
        cells: &[SharedCell],
        place: usize,
        ordinal: u64,
        key: Val,
        make: Factory,
    ) -> Result<Probe, Memory>
        requires keys { HasKeys (kinds_in self.old.passes.items) place }
        requires ready { IsReadyFor (seated cells.now self.old) ordinal }
        ensures { IfOk result (λ probe. HasCalledAt (seated cells.now self.old) place ordinal
            (calls.GetOrAddMade key make probe) None (seated cells.now self.new)) }
    {
        let pass = &mut self.passes[place];
        let log = &mut self.logs[place];
        let probe = make_one(rt, alloc, &cells[place], pass, log, ordinal, key, make)?;
        self.last = ordinal;
        Ok(probe)
    }

    /// Reads the cell at a place, and notes it.
    pub fn read<R: Wait>(
        &mut self,
        rt: &R,
        cells: &[SharedCell],
        place: usize,
        ordinal: u64,
    ) -> Result<Collection, Memory>
        requires place { place < length self.old.passes.items }
        requires ready { IsReadyFor (seated cells.now self.old) ordinal }
        ensures kind { IfOk result (λ v. slice_get (kinds_in self.old.passes.items) place ≡ Some v.kind) }
        ensures set { IfOk result (λ v. is_unset v.values ≡ false) }
        ensures called { IfOk result (λ v. HasCalledAt (seated cells.now self.old) place ordinal
            calls.Read (Some v) (seated cells.now self.new)) }
    {
        let pass = &mut self.passes[place];
        let log = &mut self.logs[place];
        let value = read_one(rt, &cells[place], pass, log, ordinal)?;
        self.last = ordinal;
        Ok(value)
    }
}
