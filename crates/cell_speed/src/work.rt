//! The work of threads on one cell.
ghost use Rattle.std.specs.Prelude.{◌≡◌, ℕ, ◌<◌, ◌≤◌, All, length, slice_index_or};

use imm_base::Memory;
use interlocked::{CellPass, Change, ImmCell, Logged, Share};
use std::alloc::Global;
use std::io;
use std::sync::Wait;
use std::thread::{Threads, for_each_mut};
use std::time::{Clock, Duration};

/// The most calls of a pass.
const MOST: u64 = 1 << 40;

/// What the threads of a cell do: so many of them go through the calls again and again, and the others
/// read.
#[derive(Drop)]
pub struct Plan<'a, X> {
    pub writers: usize,
    pub calls: &'a [X],
    pub rounds: u32,
    pub reads: u32,
}

/// Makes each of the calls.
fn call_each<R: Wait, C: Share, X: Change<C>>(
    rt: &R,
    alloc: Global,
    cell: &ImmCell<C, X>,
    pass: &mut CellPass<C, X>,
    calls: &[X],
)
    requires own { pass.old.table ≡ cell.now.table }
    requires suits { (call : _) (kind : _) → X.suits call kind }
    ensures table { pass.new.table ≡ pass.old.table }
    ensures number { pass.new.view.number ≡ pass.old.view.number }
{
    'calls: for call in calls {
        let last = pass.last_ordinal();
        if last >= MOST || cell.call(rt, alloc, pass, last + 1, call).is_err() {
            return;
        }
    }
}

/// Goes through the calls again and again.
fn call_all<R: Wait, C: Share, X: Change<C>>(
    rt: &R,
    alloc: Global,
    cell: &ImmCell<C, X>,
    pass: &mut CellPass<C, X>,
    plan: &Plan<X>,
)
    requires own { pass.old.table ≡ cell.now.table }
    requires suits { (call : _) (kind : _) → X.suits call kind }
    ensures table { pass.new.table ≡ pass.old.table }
    ensures number { pass.new.view.number ≡ pass.old.view.number }
{
    'rounds: for _ in 0..plan.rounds {
        call_each(rt, alloc, cell, pass, plan.calls);
    }
}

/// Reads the value again and again.
fn read_all<R: Wait, C: Share, X: Change<C>>(
    rt: &R,
    cell: &ImmCell<C, X>,
    pass: &mut CellPass<C, X>,
    reads: u32,
)
    requires { pass.old.table ≡ cell.now.table }
    ensures table { pass.new.table ≡ pass.old.table }
    ensures number { pass.new.view.number ≡ pass.old.view.number }
{
    'reads: for _ in 0..reads {
        if cell.read(rt, pass).is_err() {
            return;
        }
    }
}

/// What one thread does.
fn work<R: Wait, C: Share, X: Change<C>>(
    rt: &R,
    alloc: Global,
    cell: &ImmCell<C, X>,
    index: usize,
    pass: &mut CellPass<C, X>,
    plan: &Plan<X>,
)
    requires own { pass.old.table ≡ cell.now.table }
    requires suits { (call : _) (kind : _) → X.suits call kind }
    ensures table { pass.new.table ≡ pass.old.table }
    ensures number { pass.new.view.number ≡ pass.old.view.number }
{
    if index < plan.writers {
        call_all(rt, alloc, cell, pass, plan)
    } else {
        read_all(rt, cell, pass, plan.reads)
    }
}

/// All threads, each with a pass of its own.
fn work_all<R: Threads + Wait + Sync, C: Share + Send + Sync, X: Change<C> + Send + Sync>(
    rt: &R,
    alloc: Global,
    cell: &ImmCell<C, X>,
    passes: &mut [CellPass<C, X>],
    plan: &Plan<X>,
)
    requires { All (λ p. p.table ≡ cell.now.table) passes.old
        × ((call : _) (kind : _) → X.suits call kind) }
    ensures { (k : ℕ) (d : _) → k < length passes.old
        → ((slice_index_or passes.new k d).table ≡ (slice_index_or passes.old k d).table)
        × ((slice_index_or passes.new k d).view.number ≡ (slice_index_or passes.old k d).view.number) }
{
    for_each_mut(
        rt,
        passes,
        8,
        &|index, pass: &mut CellPass<C, X>|
            requires { (pass.now.table ≡ cell.now.table) × ((call : _) (kind : _) → X.suits call kind) }
            ensures { (pass.exit.now.table ≡ pass.entry.now.table) × (pass.exit.now.view.number ≡ pass.entry.now.view.number) }
        { work(rt, alloc, cell, index, pass, plan) },
    );
}

fn nanos_between(start: io::Result<Duration>, end: io::Result<Duration>) -> u64 {
    match (start, end) {
        (Ok(start), Ok(end)) => {
            u64::try_from(end.saturating_sub(start).as_nanos()).unwrap_or(u64::MAX)
        }
        _ => 0,
    }
}

/// Makes a cell, lets the threads work on it, and ends it. Answers what it ends with, and how many
/// nanoseconds the work took.
pub fn run<R: Threads + Wait + Sync + Clock, C: Share + Send + Sync, X: Change<C> + Send + Sync>(
    rt: &R,
    alloc: Global,
    threads: u32,
    first: C,
    plan: &Plan<X>,
) -> Result<(Logged<C, X>, u64), Memory>
    requires threads { (0 < threads) × (threads ≤ 8) }
    requires suits { (call : _) (kind : _) → X.suits call kind }
{
    let Ok((cell, mut passes)) = ImmCell::make(alloc, threads, first) else {
        return Err(Memory);
    };
    let start = rt.monotonic();
    work_all(rt, alloc, &cell, passes.as_mut_slice(), plan);
    let nanos = nanos_between(start, rt.monotonic());
    let Ok(closed) = cell.close(alloc, passes) else {
        return Err(Memory);
    };
    Ok((closed.payload, nanos))
}
