//! What calls on cells come to, in one thread and in two.
ghost use Rattle.std.specs.Prelude.{◌≡◌, ℕ, ◌<◌, ◌≤◌, All, length, slice_index_or};

mod cells;
mod races;
mod rows;

use interlocked::{CellPass, Change, ImmCell, Logged, Share};
use std::alloc::Global;
use std::process::Abort;
use std::sync::Wait;
use std::thread::{Threads, for_each_mut};

/// What a thread does with a new pass.
trait Job<C: Share, X: Change<C>>: Sync {
    fn work<R: Wait + Abort>(
        &self,
        rt: &R,
        alloc: Global,
        cell: &ImmCell<C, X>,
        pass: &mut CellPass<C, X>,
    )
        requires own { pass.old.table ≡ cell.now.table }
        requires new { pass.old.last ≡ 0 }
        ensures table { pass.new.table ≡ pass.old.table }
        ensures number { pass.new.view.number ≡ pass.old.view.number };
}

/// The job is done by as many threads as there are passes.
fn work_all<R: Threads + Wait + Abort + Sync, C: Share + Send + Sync, X: Change<C> + Send + Sync>(
    rt: &R,
    alloc: Global,
    cell: &ImmCell<C, X>,
    passes: &mut [CellPass<C, X>],
    job: &impl Job<C, X>,
)
    requires { All (λ p. (p.table ≡ cell.now.table) × (p.last ≡ 0)) passes.old }
    ensures { (k : ℕ) (d : _) → k < length passes.old
        → ((slice_index_or passes.new k d).table ≡ (slice_index_or passes.old k d).table)
        × ((slice_index_or passes.new k d).view.number ≡ (slice_index_or passes.old k d).view.number) }
{
    for_each_mut(
        rt,
        passes,
        8,
        &|_, pass: &mut CellPass<C, X>|
            requires { (pass.now.table ≡ cell.now.table) × (pass.now.last ≡ 0) }
            ensures { (pass.exit.now.table ≡ pass.entry.now.table) × (pass.exit.now.view.number ≡ pass.entry.now.view.number) }
        { job.work(rt, alloc, cell, pass) },
    );
}

/// Makes a cell with so many passes, has the job done with each of them, and ends the cell.
fn run<R: Threads + Wait + Abort + Sync, C: Share + Send + Sync, X: Change<C> + Send + Sync>(
    rt: &R,
    alloc: Global,
    threads: u32,
    first: C,
    job: &impl Job<C, X>,
) -> Logged<C, X>
    requires { (0 < threads) × (threads ≤ 8) }
{
    let Ok((cell, mut passes)) = ImmCell::make(alloc, threads, first) else {
        panic!(rt; "no memory for a cell")
    };
    work_all(rt, alloc, &cell, passes.as_mut_slice(), job);
    let Ok(closed) = cell.close(alloc, passes) else {
        panic!(rt; "no memory for the end")
    };
    closed.payload
}
