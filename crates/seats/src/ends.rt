//! The beginning and the end of a cell.
ghost use Rattle.std.specs.Prelude.{◌≡◌, ◌<◌, ◌≤◌, [], All, IfOk, map};
ghost use Rattle.version_slots.specs.Cells.{AreAll};
ghost use Rattle.interlocked.specs.Whole.{new_passes};
ghost use Rattle.seats.specs.Ends.{EndsWith};

use crate::passes::{SharedPass, unwrap, wrap};
use crate::shared::{CellValue, SharedCell};
use collections::Collection;
use imm_base::Memory;
use interlocked::ImmCell;
use std::alloc::Global;

/// A cell that has this value, and a pass for each of so many workers, in the order of their
/// numbers, which begin with 1.
pub fn open_cell(
    alloc: Global,
    workers: u32,
    first: Collection,
) -> Result<(SharedCell, Vec<SharedPass>), Memory>
    requires { (0 < workers) × (workers ≤ 8) }
    ensures cell { IfOk result (λ made. (made.0.passes ≡ workers)
        × (made.0.first ≡ record { value = first; entries = [] })) }
    ensures passes { IfOk result (λ made. made.1.items
        ≡ new_passes made.0.table workers (record { value = first; entries = [] })) }
{
    let room = Vec::with_capacity(alloc, workers as usize)?;
    let first = CellValue { collection: first };
    let (cell, passes) = ImmCell::make(alloc, workers, first)?;
    Ok((cell, wrap(passes, room)))
}

/// Ends a cell, and answers its last value. These are all its passes.
pub fn close_cell(
    alloc: Global,
    cell: SharedCell,
    passes: Vec<SharedPass>,
) -> Result<Collection, Memory>
    requires table { All (λ p. p.table ≡ cell.table) passes.items }
    requires all { AreAll cell.passes (map (λ p. p.view) passes.items) }
    ensures { IfOk result (EndsWith cell.first (map (λ p. p.view) passes.items)) }
{
    let passes = unwrap(alloc, passes)?;
    let closed = cell.close(alloc, passes)?;
    let last = closed.payload.value().collection.share()?;
    Ok(last)
}
