//! A cell during a run on one thread.
ghost use Rattle.std.specs.Prelude.{◌≡◌, ◌<◌, ◌^◌, true, false, is_some, IfOk, OnOk, Some};
ghost use Rattle.std.specs.Prelude.{unwrap_or, [], ℕ};
ghost use Rattle.std.specs.Result.{is_ok};
ghost use Rattle.plain_model.specs.declared.commands.PlainCall.TheVariants as calls;
ghost use Rattle.plain_model.specs.Cell.{is_map};
ghost use Rattle.plain_model.specs.History.{MayProbe, probe_of};
ghost use Rattle.plain_model.specs.Plain.{first_value, is_unset, made, shape_of};
ghost use Rattle.plain_model.specs.Sources.{is_within};
ghost use Rattle.cell_calls.specs.Calls.{Suits, plain_call};
ghost use Rattle.cell_calls.specs.Outcomes.{installs_of, plain_outcome};
ghost use Rattle.runs.specs.OneThread.{next_position, after_call, HasCalled, IsSoFar, report_of};

use cell_calls::{CellCall, Outcome, value_in};
use collections::Collection;
use imm_base::{Dup, Edit, Memory, Val};
use plain_model::{CellDecl, CellReport, Factory, Line, Listed, Plain, PlainCall, Probe};
use std::alloc::Global;

/// A cell during a run: its declaration, its first value, and its value, position and history so
/// far.
#[derive(Drop)]
pub(crate) struct CellRun {
    decl: CellDecl,
    first: Plain,
    value: Collection,
    // How many calls have installed.
    position: u64,
    lines: Listed<Line>,
}

impl CellRun {
    /// A cell before the first call.
    pub fn new(alloc: Global, decl: &CellDecl) -> Result<CellRun, Memory>
        requires first { first_value decl.now.kind decl.now.values
            ≡ made decl.now.kind decl.now.values }
        requires within { is_within decl.now.values ≡ true }
        requires made { is_ok (made decl.now.kind decl.now.values) ≡ true }
        ensures decl { IfOk result (λ c. c.decl ≡ decl.now) }
        ensures lines { IfOk result (λ c. c.lines ≡ []) }
        ensures so_far { IfOk result (IsSoFar 1) }
    {
        match Collection::of_values(alloc, decl.kind, &decl.values)? {
            Ok(value) => Ok(CellRun {
                decl: decl.dup(alloc)?,
                first: value.plain(alloc)?,
                value,
                position: 0,
                lines: Listed::new(alloc),
            }),
            Err(_) => unreachable!(),
        }
    }

    // Installs another value, if it is one, and answers whether it is.
    fn install(&mut self, edit: Edit<Collection>) -> bool
        requires { self.old.position < 2 ^ 63 }
        ensures answer { result ≡ is_some (installs_of edit) }
        ensures value { self.new.value ≡ unwrap_or (installs_of edit) self.old.value }
        ensures position { self.new.position ≡ next_position self.old.position (is_some (installs_of edit)) }
        ensures decl { self.new.decl ≡ self.old.decl }
        ensures first { self.new.first ≡ self.old.first }
        ensures lines { self.new.lines ≡ self.old.lines }
    {
        match edit {
            Edit::New(value) => {
                self.value = value;
                self.position += 1;
                true
            }
            Edit::Same => false,
        }
    }

    // Puts the line of a call that came to this behind the others. After want of memory the cell is
    // given up.
    fn push_line(&mut self, ordinal: u64, call: PlainCall, outcome: Outcome) -> Result<(), Memory>
        requires { self.old.position < 2 ^ 63 }
        ensures { OnOk result (self.new ≡ after_call ordinal call (plain_outcome outcome) self.old) }
    {
        let Outcome { edit, reply } = outcome;
        let installed = self.install(edit);
        let line = Line {
            position: self.position,
            caller: 1,
            ordinal,
            call,
            reply,
            installed,
        };
        self.lines.push(line)?;
        Ok(())
    }

    /// Makes a call, whose factory, if it has one, may have run so.
    pub fn call(&mut self, alloc: Global, ordinal: u64, call: CellCall) -> Result<(), Memory>
        requires so_far { IsSoFar ordinal self.old }
        requires fits { ordinal < 2 ^ 63 }
        requires suits { Suits call self.old.decl.kind }
        requires probe { MayProbe self.old.first self.old.lines 1 (probe_of (plain_call call)) }
        ensures { OnOk result (HasCalled ordinal (plain_call call) self.old self.new) }
    {
        let outcome = call.apply(alloc, &self.value)?;
        let call = call.into_plain(alloc)?;
        self.push_line(ordinal, call, outcome)?;
        Ok(())
    }

    /// Reads the value.
    pub fn read(&mut self, alloc: Global, ordinal: u64) -> Result<Collection, Memory>
        requires so_far { IsSoFar ordinal self.old }
        requires fits { ordinal < 2 ^ 63 }
        ensures value { IfOk result (λ v. v ≡ self.old.value) }
        ensures set { IfOk result (λ v. is_unset v.values ≡ false) }
        ensures called { OnOk result (HasCalled ordinal calls.Read self.old self.new) }
    {
        let value = self.value.share()?;
        // By its clause the value is no unset array.
        let _count = value.count();
        self.call(alloc, ordinal, CellCall::Plain(PlainCall::Read))?;
        Ok(value)
    }

    // Whether a factory runs now for this key.
    fn probe(&self, alloc: Global, key: &Val) -> Result<Probe, Memory>
        requires so_far { (ordinal : ℕ) × IsSoFar ordinal self.now }
        requires map { is_map (shape_of self.now.decl.kind) ≡ true }
        ensures { IfOk result (λ probe. MayProbe self.now.first self.now.lines 1 (Some (key.now, probe))) }
    {
        match value_in(alloc, &self.value, key)? {
            Some(_) => Ok(Probe::Idle),
            None => Ok(Probe::Ran {
                position: self.position,
            }),
        }
    }

    /// Adds the pair of a key and the value that a factory makes of it, where the key is absent, and
    /// answers whether the factory ran.
    pub fn get_or_add_made(
        &mut self,
        alloc: Global,
        ordinal: u64,
        key: Val,
        make: Factory,
    ) -> Result<Probe, Memory>
        requires so_far { IsSoFar ordinal self.old }
        requires fits { ordinal < 2 ^ 63 }
        requires map { is_map (shape_of self.old.decl.kind) ≡ true }
        ensures { IfOk result (λ probe. HasCalled ordinal
            (calls.GetOrAddMade key make probe) self.old self.new) }
    {
        let probe = self.probe(alloc, &key)?;
        let call = PlainCall::GetOrAddMade(key, make, probe);
        self.call(alloc, ordinal, CellCall::Plain(call))?;
        Ok(probe)
    }

    /// What is told of the cell after the last call.
    pub fn into_report(self, alloc: Global) -> Result<CellReport, Memory>
        ensures { IfOk result (λ r. r ≡ report_of self) }
    {
        let last = self.value.plain(alloc)?;
        Ok(CellReport {
            cell: self.decl,
            first: self.first,
            lines: self.lines,
            last,
        })
    }
}
