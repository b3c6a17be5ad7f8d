//! What all workers do.
ghost use Rattle.std.specs.Prelude.{◌≡◌, ℕ, ◌<◌, ◌≤◌, All, IfOk, Some, length, map};
ghost use Rattle.std.specs.Prelude.{slice_index_or};
ghost use Rattle.std.specs.List.{AllByRecursion};
ghost use Rattle.std.specs.Fork.{AcceptsEach, ChangesEach};
ghost use Rattle.workers.specs.Hands.{columns_of};
ghost use Rattle.workers.specs.Lanes.{HasWorkedAt};
ghost use Rattle.workers.specs.Opened.{AreCells, all_passes};
ghost use Rattle.workers.specs.Scripts.{CanRun};
ghost use Rattle.workers.specs.Tables.{AreColumnsOf};
ghost use Rattle.workers.specs.Worked.{AreGathered};
ghost use Rattle.seats.specs.Worked.{IsReady};

use crate::lanes::{Lane, WORKERS_LIMIT};
use crate::opening::seat_all;
use crate::tables::transpose;
use imm_base::{Gate, Memory};
use plain_model::{Line, Listed, LocalLine, Script};
use seats::{Seat, SharedCell, SharedPass, do_parts};
use std::alloc::Global;
use std::sync::Wait;
use std::sync::atomic::AtomicBool;
use std::thread::{Threads, for_each_mut};

/// The passes and the logs after the last call, for each worker or for each cell, and what the
/// workers told.
#[derive(Drop)]
pub(crate) struct Done {
    pub passes: Vec<Vec<SharedPass>>,
    pub logs: Vec<Vec<Listed<Line>>>,
    pub locals: Listed<Listed<LocalLine>>,
}

// Does the parts of one worker. It tells nothing where memory was wanting.
fn work<'a, R: Wait, G: Gate>(
    alloc: Global,
    script: &Script,
    lane: &mut Lane<Seat<'a, R, G>, Listed<LocalLine>>,
    place: u32,
    workers: u32,
)
    requires can { CanRun script.now }
    requires ready { IsReady script.now.cells lane.old.seat }
    requires place { (place < 8) × (0 < workers) }
    ensures { HasWorkedAt script.now workers place lane.old lane.new }
{
    let decls = script.cells.as_slice();
    let parts = script.parts.as_slice();
    let told = do_parts(alloc, decls, &mut lane.seat, parts, place + 1, workers);
    if told.is_err() {
        lane.seat.stop_all();
    }
    lane.told = told.ok();
}

// Does the work of each lane in a thread of its own.
fn at_each<R: Threads + Sync, S: Send, T: Send, F: Fn(usize, &mut Lane<S, T>) + Sync>(
    rt: &R,
    lanes: &mut [Lane<S, T>],
    work: &F,
)
    requires { AcceptsEach F.Fn work.now lanes.old }
    ensures { ChangesEach F.Fn work.now lanes.old lanes.new }
{
    for_each_mut(rt, lanes, WORKERS_LIMIT as usize, work)
}

// Does the parts of all workers at once.
fn work_each<'a, R: Threads + Wait + Sync, G: Gate>(
    rt: &R,
    alloc: Global,
    script: &Script,
    lanes: &mut [Lane<Seat<'a, R, G>, Listed<LocalLine>>],
    workers: u32,
)
    requires can { CanRun script.now }
    requires ready { All (λ l. IsReady script.now.cells l.seat) lanes.old }
    requires few { (length lanes.old ≡ workers) × (workers ≤ 8) }
    ensures { (k : ℕ) (d : _) → k < length lanes.old
        → HasWorkedAt script.now workers k
        (slice_index_or lanes.old k d) (slice_index_or lanes.new k d) }
{
    at_each(
        rt,
        lanes,
        &|index, lane: &mut Lane<Seat<R, G>, Listed<LocalLine>>|
            requires { IsReady script.now.cells lane.now.seat × (index < workers) × (workers ≤ 8)
                × CanRun script.now }
            ensures { HasWorkedAt script.entry.now workers index lane.entry.now lane.exit.now }
        { work(alloc, script, lane, index as u32, workers) },
    );
}

// Does the parts of all workers at once, each in a thread of its own.
fn work_all<'a, R: Threads + Wait + Sync, G: Gate>(
    rt: &R,
    alloc: Global,
    script: &Script,
    mut lanes: Vec<Lane<Seat<'a, R, G>, Listed<LocalLine>>>,
) -> Vec<Lane<Seat<'a, R, G>, Listed<LocalLine>>>
    requires can { CanRun script.now }
    requires ready { All (λ l. IsReady script.now.cells l.seat) lanes.items }
    requires few { length lanes.items ≤ 8 }
    ensures many { length result.items ≡ length lanes.entry.items }
    ensures worked { (k : ℕ) (d : _) → k < length lanes.entry.items
        → HasWorkedAt script.now (length lanes.entry.items) k
        (slice_index_or lanes.entry.items k d) (slice_index_or result.items k d) }
{
    let workers = lanes.len() as u32;
    work_each(rt, alloc, script, lanes.as_mut_slice(), workers);
    lanes
}

// What all workers did, worker by worker. Where one told nothing, memory was wanting.
fn by_worker<'a, R, G>(
    alloc: Global,
    lanes: Vec<Lane<Seat<'a, R, G>, Listed<LocalLine>>>,
) -> Result<Done, Memory>
    ensures passes { IfOk result (λ done. map (λ its. its.items) done.passes.items
        ≡ map (λ l. l.seat.passes) lanes.entry.items) }
    ensures logs { IfOk result (λ done. map (λ its. its.items) done.logs.items
        ≡ map (λ l. l.seat.logs) lanes.entry.items) }
    ensures told { IfOk result (λ done. map (λ lines. Some lines) done.locals
        ≡ map (λ l. l.told) lanes.entry.items) }
{
    let mut passes = Vec::new(alloc);
    let mut logs = Vec::new(alloc);
    let mut locals = Listed::new(alloc);
    for lane in lanes {
        let Lane { seat, told } = lane;
        let Some(lines) = told else {
            return Err(Memory);
        };
        let (its_passes, its_logs) = seat.into_parts();
        passes.push(its_passes)?;
        logs.push(its_logs)?;
        locals.push(lines)?;
    }
    Ok(Done {
        passes,
        logs,
        locals,
    })
}

// The same, cell by cell.
fn by_cell(alloc: Global, done: Done, cells: usize) -> Result<Done, Memory>
    requires passes { AllByRecursion (λ its. length its ≡ cells)
        (map (λ its. its.items) done.passes.items) }
    requires logs { AllByRecursion (λ its. length its ≡ cells)
        (map (λ its. its.items) done.logs.items) }
    ensures passes { IfOk result (λ all. AreColumnsOf cells
        (map (λ its. its.items) done.passes.items) (map (λ its. its.items) all.passes.items)) }
    ensures logs { IfOk result (λ all. AreColumnsOf cells
        (map (λ its. its.items) done.logs.items) (map (λ its. its.items) all.logs.items)) }
    ensures locals { IfOk result (λ all. all.locals ≡ done.locals) }
{
    let Done {
        passes,
        logs,
        locals,
    } = done;
    let passes = transpose(alloc, passes, cells)?;
    let logs = transpose(alloc, logs, cells)?;
    Ok(Done {
        passes,
        logs,
        locals,
    })
}

/// What all workers of a script come to at these new cells, whose passes are given cell by cell.
/// `Err` is want of memory.
pub(crate) fn work_at<R: Threads + Wait + Sync, G: Gate>(
    rt: &R,
    alloc: Global,
    gate: &G,
    script: &Script,
    cells: &[SharedCell],
    passes: Vec<Vec<SharedPass>>,
    workers: u32,
) -> Result<Done, Memory>
    requires can { CanRun script.now }
    requires workers { (0 < workers) × (workers ≤ 8) }
    requires cells { AreCells workers script.now.cells cells.now }
    requires passes { map (λ its. its.items) passes.items ≡ map all_passes cells.now }
    ensures { IfOk result (λ done. AreGathered script.now workers cells.now
        (columns_of (map (λ its. its.items) done.passes.items)
        (map (λ its. its.items) done.logs.items)) done.locals) }
{
    let rows = transpose(alloc, passes, workers as usize)?;
    let stop = AtomicBool::new(false);
    let lanes = seat_all(rt, gate, &stop, alloc, cells, rows)?;
    let lanes = work_all(rt, alloc, script, lanes);
    let done = by_worker(alloc, lanes)?;
    let done = by_cell(alloc, done, cells.len())?;
    Ok(done)
}
