//! The cells of a run on one thread.
ghost use Rattle.std.specs.Prelude.{◌≡◌, ℕ, length};
ghost use Rattle.runs.specs.OneThread.{kinds_in, AreSoFar, CallsOne};
ghost use Rattle.runs.specs.Waits.{cells_wait};

use crate::cell_run::CellRun;
use crate::cells::Cells;
use cell_calls::CellCall;
use collections::Collection;
use imm_base::{Memory, Val};
use plain_model::{Factory, Probe};
use std::alloc::Global;

/// The cells of a run on one thread.
#[derive(Drop)]
pub(crate) struct OneThread {
    pub cells: Vec<CellRun>,
}

impl Cells for OneThread {
    ghost kinds = { kinds_in };

    ghost ready = { AreSoFar };

    ghost makes = { CallsOne };

    fn call(
        &mut self,
        alloc: Global,
        place: usize,
        ordinal: u64,
        call: CellCall,
    ) -> Result<(), Memory> {
        self.cells[place].call(alloc, ordinal, call)?;
        Ok(())
    }

    fn get_or_add_made(
        &mut self,
        alloc: Global,
        place: usize,
        ordinal: u64,
        key: Val,
        make: Factory,
    ) -> Result<Probe, Memory> {
        let probe = self.cells[place].get_or_add_made(alloc, ordinal, key, make)?;
        Ok(probe)
    }

    fn read(&mut self, alloc: Global, place: usize, ordinal: u64) -> Result<Collection, Memory> {
        let value = self.cells[place].read(alloc, ordinal)?;
        Ok(value)
    }

    fn before(&self, _worker: u32, _ordinal: u64) -> Result<(), Memory> {
        Ok(())
    }

    fn after(&self, _worker: u32, _ordinal: u64) {}

    ghost waits = { cells_wait };
}
