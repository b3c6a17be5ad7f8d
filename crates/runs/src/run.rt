//! A run of one worker on the calling thread.
ghost use Rattle.std.specs.Prelude.{◌≡◌, ◌≤◌, [], map, length, true, IfOk};
ghost use Rattle.std.specs.List.{AllByRecursion};
ghost use Rattle.plain_model.specs.declared.limits.TheConstants.{COMMANDS_LIMIT, PARTS_LIMIT};
ghost use Rattle.plain_model.specs.Lawful.{Lawful};
ghost use Rattle.plain_model.specs.Locals.{no_locals};
ghost use Rattle.runs.specs.Places.{AreApart};
ghost use Rattle.runs.specs.Needs.{CanDoAll, CanBegin};
ghost use Rattle.runs.specs.OneThread.{IsSoFar, report_of};

use crate::cell_run::CellRun;
use crate::one_thread::OneThread;
use crate::worker::run_parts;
use imm_base::Memory;
use plain_model::{CellDecl, CellReport, Listed, Report, Script};
use std::alloc::Global;

// The cells before the first call.
fn cells_of(alloc: Global, decls: &[CellDecl]) -> Result<Vec<CellRun>, Memory>
    requires { AllByRecursion CanBegin decls.now }
    ensures decls { IfOk result (λ cells. map (λ c. c.decl) cells.items ≡ decls.now) }
    ensures so_far { IfOk result (λ cells. AllByRecursion (IsSoFar 1) cells.items) }
    ensures lines { IfOk result (λ cells. AllByRecursion (λ c. c.lines ≡ []) cells.items) }
{
    let mut cells = Vec::new(alloc);
    for decl in decls {
        let cell = CellRun::new(alloc, decl)?;
        cells.push(cell)?;
    }
    Ok(cells)
}

// What is told of the cells after the last call.
fn reports_of(alloc: Global, cells: Vec<CellRun>) -> Result<Listed<CellReport>, Memory>
    ensures { IfOk result (λ reports. reports ≡ map report_of cells.items) }
{
    let mut reports = Listed::new(alloc);
    for cell in cells {
        reports.push(cell.into_report(alloc)?)?;
    }
    Ok(reports)
}

/// The report of a script with one worker, on the calling thread. `Err` is want of memory, and no
/// clause says when it comes.
pub fn run_alone(alloc: Global, script: &Script) -> Result<Report, Memory>
    requires apart { AreApart script.now.cells }
    requires begin { AllByRecursion CanBegin script.now.cells }
    requires count { length script.now.parts ≤ PARTS_LIMIT }
    requires few { AllByRecursion (λ p. length p.commands ≤ COMMANDS_LIMIT) script.now.parts }
    requires can { AllByRecursion (λ p. CanDoAll script.now.cells p.commands no_locals) script.now.parts }
    ensures { IfOk result (λ report. Lawful script.now 1 report) }
{
    let decls = script.cells.as_slice();
    let parts = script.parts.as_slice();
    let runs = cells_of(alloc, decls)?;
    let mut cells = OneThread { cells: runs };
    let lines = run_parts(alloc, decls, &mut cells, parts, 1, 1)?;
    let reports = reports_of(alloc, cells.cells)?;
    let mut locals = Listed::new(alloc);
    locals.push(lines)?;
    Ok(Report {
        workers: 1,
        cells: reports,
        locals,
    })
}
