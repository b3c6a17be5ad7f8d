//! The cells of a run, as one worker calls them.
ghost use Rattle.std.specs.Prelude.{◌≡◌, ◌+◌, ◌<◌, ◌^◌, ℕ, List, None, Some, false, true, length};
ghost use Rattle.std.specs.Prelude.{◌≤◌, IfOk, OnOk, slice_get};
ghost use Rattle.plain_model.specs.declared.commands.PlainCall.TheVariants as calls;
ghost use Rattle.plain_model.specs.declared.plain.Kind.{Kind};
ghost use Rattle.plain_model.specs.Plain.{is_unset};
ghost use Rattle.cell_calls.specs.Calls.{plain_call};
ghost use Rattle.runs.specs.Calls.{HasKeys, MayCall};
ghost use Rattle.runs.specs.Notes.{Note, Makes};
ghost use Rattle.runs.specs.Places.{cell_place};

use cell_calls::CellCall;
use collections::Collection;
use imm_base::{Memory, Text24, Val};
use plain_model::{CellDecl, Factory, Probe};
use std::alloc::Global;

/// The cells of a run, as one worker calls them, with rising ordinals. A cell is called by its
/// place among those that are declared.
pub trait Cells {
    /// The kind of each cell.
    ghost kinds: { Self → List Kind };

    /// Whether a call with this ordinal may come next.
    ghost ready: { Self → ℕ → Type 0 };

    /// What one call does, and its line.
    ghost makes: { Self → Note → Self → Type 0 };

    /// Makes a call.
    fn call(
        &mut self,
        alloc: Global,
        place: usize,
        ordinal: u64,
        call: CellCall,
    ) -> Result<(), Memory>
        requires may { MayCall (kinds self.old) place call }
        requires ready { ready self.old ordinal }
        requires fits { ordinal < 2 ^ 63 }
        ensures kinds { OnOk result (kinds self.new ≡ kinds self.old) }
        ensures ready { OnOk result (ready self.new (ordinal + 1)) }
        ensures makes { OnOk result (Makes makes self.old place ordinal (plain_call call) None self.new) };

    /// Adds the pair of a key and the value that a factory makes of it, where the key is absent, and
    /// answers whether the factory ran.
    fn get_or_add_made(
        &mut self,
        alloc: Global,
        place: usize,
        ordinal: u64,
        key: Val,
        make: Factory,
    ) -> Result<Probe, Memory>
        requires keys { HasKeys (kinds self.old) place }
        requires ready { ready self.old ordinal }
        requires fits { ordinal < 2 ^ 63 }
        ensures kinds { OnOk result (kinds self.new ≡ kinds self.old) }
        ensures ready { OnOk result (ready self.new (ordinal + 1)) }
        ensures makes { IfOk result (λ probe. Makes makes self.old place ordinal
            (calls.GetOrAddMade key make probe) None self.new) };

    /// Reads the value of a cell.
    fn read(&mut self, alloc: Global, place: usize, ordinal: u64) -> Result<Collection, Memory>
        requires place { place < length (kinds self.old) }
        requires ready { ready self.old ordinal }
        requires fits { ordinal < 2 ^ 63 }
        ensures kinds { OnOk result (kinds self.new ≡ kinds self.old) }
        ensures ready { OnOk result (ready self.new (ordinal + 1)) }
        ensures kind { IfOk result (λ v. slice_get (kinds self.old) place ≡ Some v.kind) }
        ensures set { IfOk result (λ v. is_unset v.values ≡ false) }
        ensures makes { IfOk result (λ v. Makes makes self.old place ordinal calls.Read (Some v) self.new) };

    /// Called directly before a command of a worker. `Err` says that memory ran out, for this worker
    /// or for another.
    fn before(&self, worker: u32, ordinal: u64) -> Result<(), Memory>;

    /// Called directly after a command of a worker.
    fn after(&self, worker: u32, ordinal: u64);

    // Ordinals may be left out.
    ghost waits: { (cells : Self) (ordinal : ℕ) → ready cells ordinal → ready cells (ordinal + 1) };
}

/// The place of the cell of a name, or the count where it is not declared.
pub(crate) fn cell_place(decls: &[CellDecl], name: &Text24) -> usize
    ensures place { result ≡ cell_place decls.now name.now }
    ensures bound { result ≤ length decls.now }
{
    let mut place = 0;
    for decl in decls {
        if decl.name.as_bytes() == name.as_bytes() {
            return place;
        }
        place += 1;
    }
    place
}
