//! A dictionary that several callers change at once.
ghost use Rattle.std.specs.Prelude.{◌≡◌};

use crate::maps::Routes;
use imm_base::{Memory, Val, ValEq};
use interlocked::{CellPass, DictCall, ImmCell};
use plain_model::Transform;
use std::alloc::Global;
use std::sync::Wait;

/// A cell with a dictionary.
pub type RoutesCell = ImmCell<Routes, DictCall>;

/// The right of one caller to call such a cell.
pub type RoutesPass = CellPass<Routes, DictCall>;

/// Counts a request to the port, as a caller whose first call this is.
pub fn count_request<R: Wait>(
    rt: &R,
    alloc: Global,
    cell: &RoutesCell,
    pass: &mut RoutesPass,
    port: Val,
) -> Result<(), Memory>
    requires own { pass.old.table ≡ cell.now.table }
    requires first { pass.old.last ≡ 0 }
    ensures table { pass.new.table ≡ pass.old.table }
    ensures number { pass.new.view.number ≡ pass.old.view.number }
{
    cell.add_or_update(rt, alloc, pass, 1, port, Val::Int(1), Transform::Plus(1))?;
    Ok(())
}

/// The requests to a port that two callers counted, one each.
pub fn requests<R: Wait>(rt: &R, alloc: Global, port: Val) -> Result<Option<Val>, Memory> {
    let (cell, mut passes) = ImmCell::make(alloc, 2, Routes::new(ValEq::Ordinal))?;
    let first = count_request(rt, alloc, &cell, &mut passes[0], port);
    let second = count_request(rt, alloc, &cell, &mut passes[1], port);
    let read = cell.read(rt, &mut passes[0]);
    cell.close(alloc, passes)?;
    first?;
    second?;
    let (counts, _) = read?;
    Ok(counts.get(&port).copied())
}
