//! Runs of a script that was parsed.
ghost use Rattle.std.specs.Prelude.{◌<◌, ◌≤◌, IfOk};
ghost use Rattle.plain_model.specs.Lawful.{Lawful};
ghost use Rattle.script.specs.Ready.{IsReady};
ghost use Rattle.workers.specs.declared.lanes.TheConstants.{WORKERS_LIMIT};

use imm_base::{Gate, Memory};
use plain_model::{Report, Script};
use runs::run_alone;
use std::alloc::Global;
use std::sync::Wait;
use std::thread::Threads;

/// The report of a script with one worker, on the calling thread. `Err` is want of memory, and no
/// clause says when it comes.
pub fn run_one(alloc: Global, script: &Script) -> Result<Report, Memory>
    requires { IsReady script.now }
    ensures { IfOk result (λ report. Lawful script.now 1 report) }
{
    run_alone(alloc, script)
}

/// The report of a script with so many workers, each in a thread of its own. The gate's calls stand
/// directly before and after each command. `Err` is want of memory, and no clause says when it
/// comes.
pub fn run_script<R: Threads + Wait + Sync, G: Gate>(
    rt: &R,
    alloc: Global,
    script: &Script,
    workers: u32,
    gate: &G,
) -> Result<Report, Memory>
    requires ready { IsReady script.now }
    requires workers { (0 < workers) × (workers ≤ WORKERS_LIMIT) }
    ensures { IfOk result (λ report. Lawful script.now workers report) }
{
    workers::run_script(rt, alloc, script, workers, gate)
}
