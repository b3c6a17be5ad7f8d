//! The cells of a run after the last call.
ghost use Rattle.std.specs.Prelude.{◌≡◌, ◌<◌, ◌≤◌, All, IfOk, Ok, map};
ghost use Rattle.std.specs.List.{AllByRecursion};
ghost use Rattle.plain_model.specs.Plain.{first_value};
ghost use Rattle.version_slots.specs.Cells.{AreAll};
ghost use Rattle.runs.specs.Needs.{CanBegin};
ghost use Rattle.seats.specs.Ends.{EndsWith};
ghost use Rattle.workers.specs.Closed.{AreAllLogged, AreClosed, AreLogged, IsClosed};
ghost use Rattle.workers.specs.Hands.{columns_of};
ghost use Rattle.workers.specs.Opened.{AreCells, IsOpened};

use crate::opening::first_of;
use history_merge::merge;
use imm_base::{Dup, Memory};
use plain_model::{CellDecl, CellReport, Line, Listed, Plain};
use seats::{SharedCell, SharedPass, close_cell};
use std::alloc::Global;

// The first value of a cell, written out.
fn first_plain(alloc: Global, decl: &CellDecl) -> Result<Plain, Memory>
    requires { CanBegin decl.now }
    ensures { IfOk result (λ v. first_value decl.now.kind decl.now.values ≡ Ok v) }
{
    let first = first_of(alloc, decl)?;
    let plain = first.plain(alloc)?;
    Ok(plain)
}

// Ends a cell, and answers its last value, written out.
fn last_plain(alloc: Global, cell: SharedCell, passes: Vec<SharedPass>) -> Result<Plain, Memory>
    requires table { All (λ p. p.table ≡ cell.table) passes.items }
    requires all { AreAll cell.passes (map (λ p. p.view) passes.items) }
    ensures { IfOk result (EndsWith cell.first (map (λ p. p.view) passes.items)) }
{
    let last = close_cell(alloc, cell, passes)?;
    let plain = last.plain(alloc)?;
    Ok(plain)
}

// Ends a cell, and answers its report.
fn close_one(
    alloc: Global,
    decl: &CellDecl,
    cell: SharedCell,
    passes: Vec<SharedPass>,
    logs: Vec<Listed<Line>>,
    workers: u32,
) -> Result<CellReport, Memory>
    requires begin { CanBegin decl.now }
    requires opened { IsOpened workers decl.now cell }
    requires logged { AreLogged workers cell (record { passes = passes.items; logs = logs.items }) }
    ensures { IfOk result (IsClosed decl.now cell
        (record { passes = passes.items; logs = logs.items })) }
{
    let first = first_plain(alloc, decl)?;
    let last = last_plain(alloc, cell, passes)?;
    let lines = merge(alloc, logs)?;
    let cell = decl.dup(alloc)?;
    Ok(CellReport {
        cell,
        first,
        lines,
        last,
    })
}

/// Ends all cells, and answers their reports. The passes and the logs are given cell by cell.
pub(crate) fn close_all(
    alloc: Global,
    decls: &[CellDecl],
    cells: Vec<SharedCell>,
    passes: Vec<Vec<SharedPass>>,
    logs: Vec<Vec<Listed<Line>>>,
    workers: u32,
) -> Result<Listed<CellReport>, Memory>
    requires begin { AllByRecursion CanBegin decls.now }
    requires cells { AreCells workers decls.now cells.items }
    requires logged { AreAllLogged workers cells.items
        (columns_of (map (λ its. its.items) passes.items)
        (map (λ its. its.items) logs.items)) }
    ensures { IfOk result (AreClosed decls.now cells.items
        (columns_of (map (λ its. its.items) passes.items)
        (map (λ its. its.items) logs.items))) }
{
    let mut passes = passes.into_iter();
    let mut logs = logs.into_iter();
    let mut reports = Listed::new(alloc);
    let mut place = 0;
    for cell in cells {
        let its_passes = match passes.next() {
            Some(its_passes) => its_passes,
            None => unreachable!(),
        };
        let its_logs = match logs.next() {
            Some(its_logs) => its_logs,
            None => unreachable!(),
        };
        let report = close_one(alloc, &decls[place], cell, its_passes, its_logs, workers)?;
        reports.push(report)?;
        place += 1;
    }
    Ok(reports)
}
