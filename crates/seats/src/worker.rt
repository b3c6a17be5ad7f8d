//! One worker at cells that several workers share.
ghost use Rattle.std.specs.Prelude.{◌<◌, ◌≤◌, IfOk, length};
ghost use Rattle.std.specs.List.{AllByRecursion};
ghost use Rattle.plain_model.specs.declared.limits.TheConstants.{COMMANDS_LIMIT, PARTS_LIMIT};
ghost use Rattle.plain_model.specs.Lawful.{parts_of};
ghost use Rattle.plain_model.specs.Locals.{no_locals};
ghost use Rattle.runs.specs.Needs.{CanDoAll};
ghost use Rattle.runs.specs.Places.{AreApart};
ghost use Rattle.seats.specs.Worked.{IsReady, IsWorked};

use crate::seat::Seat;
use imm_base::{Gate, Memory};
use plain_model::{CellDecl, Listed, LocalLine, Part};
use runs::run_parts;
use std::alloc::Global;
use std::sync::Wait;

/// Does those of the parts that are this worker's among so many, and answers its local lines.
/// Workers are counted from 1. `Err` is want of memory, of this worker or of another that stopped all;
/// which calls were made then no clause says.
pub fn do_parts<'a, R: Wait, G: Gate>(
    alloc: Global,
    decls: &[CellDecl],
    seat: &mut Seat<'a, R, G>,
    parts: &[Part],
    worker: u32,
    workers: u32,
) -> Result<Listed<LocalLine>, Memory>
    requires apart { AreApart decls.now }
    requires ready { IsReady decls.now seat.old }
    requires workers { 0 < workers }
    requires count { length parts.now ≤ PARTS_LIMIT }
    requires few { AllByRecursion (λ p. length p.commands ≤ COMMANDS_LIMIT) parts.now }
    requires can { AllByRecursion (λ p. CanDoAll decls.now p.commands no_locals) parts.now }
    ensures { IfOk result (λ lines. IsWorked decls.now (parts_of worker workers parts.now)
        seat.old seat.new lines) }
{
    let lines = run_parts(alloc, decls, seat, parts, worker, workers)?;
    Ok(lines)
}
