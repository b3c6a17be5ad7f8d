//! The cells of a run before the first call, and the seats at them.
ghost use Rattle.std.specs.Prelude.{◌≡◌, ◌<◌, ◌≤◌, IfOk, Ok, [], map, None};
ghost use Rattle.std.specs.List.{AllByRecursion};
ghost use Rattle.plain_model.specs.Plain.{first_value};
ghost use Rattle.runs.specs.Needs.{CanBegin};
ghost use Rattle.workers.specs.Opened.{AreCells, IsOpened, all_passes, no_logs, seat_of};

use crate::lanes::Lane;
use collections::Collection;
use imm_base::Memory;
use plain_model::{CellDecl, Line, Listed, LocalLine};
use seats::{Seat, SharedCell, SharedPass, open_cell};
use std::alloc::Global;
use std::sync::atomic::AtomicBool;

/// The first value of a cell.
pub(crate) fn first_of(alloc: Global, decl: &CellDecl) -> Result<Collection, Memory>
    requires { CanBegin decl.now }
    ensures first { IfOk result (λ v. first_value decl.now.kind decl.now.values ≡ Ok v) }
    ensures kind { IfOk result (λ v. v.kind ≡ decl.now.kind) }
{
    match Collection::of_values(alloc, decl.kind, &decl.values)? {
        Ok(first) => Ok(first),
        Err(_) => unreachable!(),
    }
}

// A cell for a declaration, and its passes.
fn open_one(
    alloc: Global,
    decl: &CellDecl,
    workers: u32,
) -> Result<(SharedCell, Vec<SharedPass>), Memory>
    requires begin { CanBegin decl.now }
    requires workers { (0 < workers) × (workers ≤ 8) }
    ensures cell { IfOk result (λ made. IsOpened workers decl.now made.0) }
    ensures passes { IfOk result (λ made. made.1.items ≡ all_passes made.0) }
{
    let first = first_of(alloc, decl)?;
    let made = open_cell(alloc, workers, first)?;
    Ok(made)
}

/// A cell for each declaration, and its passes.
pub(crate) fn open_all(
    alloc: Global,
    decls: &[CellDecl],
    workers: u32,
) -> Result<(Vec<SharedCell>, Vec<Vec<SharedPass>>), Memory>
    requires begin { AllByRecursion CanBegin decls.now }
    requires workers { (0 < workers) × (workers ≤ 8) }
    ensures cells { IfOk result (λ made. AreCells workers decls.now made.0.items) }
    ensures passes { IfOk result (λ made. map (λ its. its.items) made.1.items
        ≡ map all_passes made.0.items) }
{
    let mut cells = Vec::new(alloc);
    let mut passes = Vec::new(alloc);
    for decl in decls {
        let (cell, its) = open_one(alloc, decl, workers)?;
        cells.push(cell)?;
        passes.push(its)?;
    }
    Ok((cells, passes))
}

// A log for each cell, with no lines.
fn new_logs(alloc: Global, cells: &[SharedCell]) -> Result<Vec<Listed<Line>>, Memory>
    ensures { IfOk result (λ logs. logs.items ≡ no_logs cells.now) }
{
    let mut logs = Vec::new(alloc);
    for _cell in cells {
        logs.push(Listed::new(alloc))?;
    }
    Ok(logs)
}

/// The seats of workers that have these passes of the cells.
pub(crate) fn seat_all<'a, R, G>(
    rt: &'a R,
    gate: &'a G,
    stop: &'a AtomicBool,
    alloc: Global,
    cells: &'a [SharedCell],
    passes: Vec<Vec<SharedPass>>,
) -> Result<Vec<Lane<Seat<'a, R, G>, Listed<LocalLine>>>, Memory>
    ensures { IfOk result (λ lanes. map (λ l. l.seat) lanes.items
        ≡ map (seat_of cells.entry.now) (map (λ its. its.items) passes.items)) }
{
    let mut lanes = Vec::new(alloc);
    for its in passes {
        let logs = new_logs(alloc, cells)?;
        let seat = Seat::new(rt, gate, stop, cells, its, logs);
        lanes.push(Lane { seat, told: None })?;
    }
    Ok(lanes)
}
