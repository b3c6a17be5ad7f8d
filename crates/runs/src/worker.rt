//! The parts of a worker, one after another.
ghost use Rattle.std.specs.Prelude.{◌≡◌, ◌+◌, ◌<◌, ◌≤◌, ◌^◌, OnOk, IfOk, length};
ghost use Rattle.std.specs.List.{AllByRecursion};
ghost use Rattle.plain_model.specs.declared.limits.TheConstants.{COMMANDS_LIMIT, PARTS_LIMIT};
ghost use Rattle.plain_model.specs.Lawful.{parts_of};
ghost use Rattle.plain_model.specs.Locals.{no_locals};
ghost use Rattle.runs.specs.Places.{AreApart, kinds_of};
ghost use Rattle.runs.specs.Needs.{CanDoAll};
ghost use Rattle.runs.specs.Works.{PartIsDone, WorkIsDone, commands_for};

use crate::cells::Cells;
use crate::work::{Worker, run_command};
use imm_base::Memory;
use locals::Locals;
use plain_model::{CellDecl, Command, Listed, LocalLine, Part};
use std::alloc::Global;

/// Does the commands of one part of the worker with this number, the first of which has this
/// ordinal. A part begins with no names.
fn run_part<T: Cells>(
    alloc: Global,
    decls: &[CellDecl],
    cells: &mut T,
    worker: &mut Worker,
    number: u32,
    ordinal: u64,
    commands: &[Command],
) -> Result<(), Memory>
    requires apart { AreApart decls.now }
    requires kinds { T.kinds cells.old ≡ kinds_of decls.now }
    requires ready { T.ready cells.old ordinal }
    requires fits { ordinal + length commands.now < 2 ^ 63 }
    requires can { CanDoAll decls.now commands.now no_locals }
    ensures kinds { OnOk result (T.kinds cells.new ≡ kinds_of decls.now) }
    ensures ready { OnOk result (T.ready cells.new (ordinal + length commands.now)) }
    ensures done { OnOk result (PartIsDone T.makes decls.now ordinal commands.now
        cells.old worker.old.lines cells.new worker.new.lines) }
{
    worker.names = Locals::new(alloc);
    let mut next = ordinal;
    for command in commands {
        cells.before(number, next)?;
        run_command(alloc, decls, cells, worker, next, command)?;
        cells.after(number, next);
        next += 1;
    }
    Ok(())
}

// The commands of the part with this number, if the worker does it, and else none.
fn commands_for(part: &Part, number: u32, worker: u32, workers: u32) -> &[Command]
    requires { 0 < workers }
    ensures { result.now ≡ commands_for worker workers number part.now }
{
    if number % workers == worker % workers {
        return part.commands.as_slice();
    }
    &[]
}

/// Does those of the parts that are this worker's among so many, one after another, and answers the
/// worker's local lines. Workers are counted from 1. `Err` is want of memory; which calls were made
/// then no clause says.
pub fn run_parts<T: Cells>(
    alloc: Global,
    decls: &[CellDecl],
    cells: &mut T,
    parts: &[Part],
    number: u32,
    workers: u32,
) -> Result<Listed<LocalLine>, Memory>
    requires apart { AreApart decls.now }
    requires kinds { T.kinds cells.old ≡ kinds_of decls.now }
    requires ready { T.ready cells.old 1 }
    requires workers { 0 < workers }
    requires count { length parts.now ≤ PARTS_LIMIT }
    requires few { AllByRecursion (λ p. length p.commands ≤ COMMANDS_LIMIT) parts.now }
    requires can { AllByRecursion (λ p. CanDoAll decls.now p.commands no_locals) parts.now }
    ensures kinds { OnOk result (T.kinds cells.new ≡ kinds_of decls.now) }
    ensures ready { OnOk result ((o : _) × T.ready cells.new o) }
    ensures done { IfOk result (λ lines. WorkIsDone T.makes decls.now
        (parts_of number workers parts.now) cells.old cells.new lines) }
{
    let mut worker = Worker {
        names: Locals::new(alloc),
        lines: Listed::new(alloc),
    };
    let mut ordinal = 1;
    let mut place = 1;
    for part in parts {
        let commands = commands_for(part, place, number, workers);
        run_part(alloc, decls, cells, &mut worker, number, ordinal, commands)?;
        ordinal += commands.len() as u64;
        place += 1;
    }
    Ok(worker.lines)
}
