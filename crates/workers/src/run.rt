//! A run of several workers.
ghost use Rattle.std.specs.Prelude.{◌<◌, ◌≤◌, IfOk};
ghost use Rattle.plain_model.specs.Lawful.{Lawful};
ghost use Rattle.workers.specs.Scripts.{CanRun};

use crate::closing::close_all;
use crate::opening::open_all;
use crate::working::work_at;
use imm_base::{Gate, Memory};
use plain_model::{Report, Script};
use std::alloc::Global;
use std::sync::Wait;
use std::thread::Threads;

/// The report of a script with so many workers, each in a thread of its own, at its own passes of
/// cells that all share. The gate's calls stand directly before and after each command.
///
/// `Err` is want of memory, and no clause says when it comes. Nothing says that it returns: a
/// worker's call is tried again as long as others change its cell.
pub fn run_script<R: Threads + Wait + Sync, G: Gate>(
    rt: &R,
    alloc: Global,
    script: &Script,
    workers: u32,
    gate: &G,
) -> Result<Report, Memory>
    requires can { CanRun script.now }
    requires workers { (0 < workers) × (workers ≤ 8) }
    ensures { IfOk result (λ report. Lawful script.now workers report) }
{
    let decls = script.cells.as_slice();
    let (cells, passes) = open_all(alloc, decls, workers)?;
    let done = work_at(rt, alloc, gate, script, cells.as_slice(), passes, workers)?;
    let reports = close_all(alloc, decls, cells, done.passes, done.logs, workers)?;
    Ok(Report {
        workers,
        cells: reports,
        locals: done.locals,
    })
}
