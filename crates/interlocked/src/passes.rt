//! The passes of a cell of versions, as those of a cell of collections.
ghost use Rattle.std.specs.Prelude.{◌≡◌, ◌+◌, ◌≤◌, IfOk, All, [], length, map, vec_capacity};
ghost use Rattle.version_slots.specs.Cells.{IsIdle};
ghost use Rattle.interlocked.specs.Known.{IsReady, pair, uncalled};

use crate::cell::CellPass;
use crate::change::{Change, Share};
use crate::logged::Logged;
use imm_base::Memory;
use std::alloc::Global;
use version_slots::Pass;

// The same passes, as those of a new cell.
pub(crate) fn wrap<C: Share, X: Change<C>>(
    mut passes: Vec<Pass<Logged<C, X>>>,
    mut all: Vec<CellPass<C, X>>,
) -> Vec<CellPass<C, X>>
    requires new { All (λ p. IsReady p.place.me.0 0) passes.items }
    requires room { (all.items ≡ []) × (length passes.items ≤ vec_capacity all) }
    ensures { result.items ≡ map (λ p. uncalled p.place.table_id p.place.me.0) passes.items }
{
    while let Some(pass) = passes.pop() {
        all.push_reserved(CellPass { pass, last: 0 });
    }
    passes.destroy_empty();
    all.reverse();
    all
}

// The passes of a cell that is closed.
pub(crate) fn unwrap<C: Share, X: Change<C>>(
    alloc: Global,
    mut passes: Vec<CellPass<C, X>>,
) -> Result<Vec<Pass<Logged<C, X>>>, Memory>
    ensures same { IfOk result (λ all. map (λ p. pair p.place.table_id p.place.me.0) all.items ≡ map (λ p. pair p.table p.view) passes.items) }
    ensures idle { IfOk result (λ all. All (λ p. IsIdle p.place.me.0) all.items) }
{
    let Ok(mut all) = Vec::with_capacity(alloc, passes.len()) else {
        while let Some(pass) = passes.pop() {
            pass.give_up();
        }
        passes.destroy_empty();
        return Err(Memory);
    };
    while let Some(pass) = passes.pop() {
        let CellPass { pass, last: _ } = pass;
        all.push_reserved(pass);
    }
    passes.destroy_empty();
    all.reverse();
    Ok(all)
}
