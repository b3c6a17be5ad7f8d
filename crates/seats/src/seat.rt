//! The cells of a run that several workers share, as one of them calls them.
ghost use Rattle.std.specs.Prelude.{◌≡◌};
ghost use Rattle.seats.specs.Seats.{CallsAt, IsReadyFor, Seated};
ghost use Rattle.seats.specs.Steps.{kinds_in};
ghost use Rattle.seats.specs.Waits.{seat_waits};

use crate::passes::SharedPass;
use crate::places::Places;
use crate::shared::SharedCell;
use cell_calls::CellCall;
use collections::Collection;
use imm_base::{Gate, Memory, Val};
use plain_model::{Factory, Line, Listed, Probe};
use runs::Cells;
use std::alloc::Global;
use std::marker::Model;
use std::sync::Wait;
use std::sync::atomic::{AtomicBool, Ordering};

/// A worker's seat at the cells of a run: its pass of each, and what it noted of its calls there.
#[derive(Drop)]
pub struct Seat<'a, R, G> {
    rt: &'a R,
    gate: &'a G,
    // raised where memory ran out for one of the workers
    stop: &'a AtomicBool,
    cells: &'a [SharedCell],
    places: Places,
}

impl<'a, R, G> Model for Seat<'a, R, G> {
    ghost Value = { Seated };

    ghost view = { λ s. record {
      cells = s.cells.now;
      passes = s.places.passes.items;
      logs = s.places.logs.items;
      last = s.places.last;
    } };
}

impl<'a, R, G> Seat<'a, R, G> {
    /// A seat from which no call was made, with a pass and an empty log for each cell. All seats of a
    /// run have one gate and one flag, which stops them where it is raised.
    pub fn new(
        rt: &'a R,
        gate: &'a G,
        stop: &'a AtomicBool,
        cells: &'a [SharedCell],
        passes: Vec<SharedPass>,
        logs: Vec<Listed<Line>>,
    ) -> Seat<'a, R, G>
        ensures { result ≡ record { cells = cells.now; passes = passes.items; logs = logs.items; last = 0 } }
    {
        let places = Places {
            passes,
            logs,
            last: 0,
        };
        Seat {
            rt,
            gate,
            stop,
            cells,
            places,
        }
    }

    /// Stops all workers at their next commands.
    pub fn stop_all(&self) {
        self.stop.store(true, Ordering::Relaxed);
    }

    /// The passes and the logs, in the order of the cells.
    pub fn into_parts(self) -> (Vec<SharedPass>, Vec<Listed<Line>>)
        ensures passes { result.0.items ≡ self.entry.passes }
        ensures logs { result.1.items ≡ self.entry.logs }
    {
        let Seat {
            rt: _,
            gate: _,
            stop: _,
            cells: _,
            places,
        } = self;
        let Places {
            passes,
            logs,
            last: _,
        } = places;
        (passes, logs)
    }
}

impl<'a, R: Wait, G: Gate> Cells for Seat<'a, R, G> {
    ghost kinds = { λ s. kinds_in s.passes };

    ghost ready = { IsReadyFor };

    ghost makes = { CallsAt };

    fn call(
        &mut self,
        alloc: Global,
        place: usize,
        ordinal: u64,
        call: CellCall,
    ) -> Result<(), Memory> {
        self.places
            .call(self.rt, alloc, self.cells, place, ordinal, call)?;
        Ok(())
    }

    fn get_or_add_made(
        &mut self,
        alloc: Global,
        place: usize,
        ordinal: u64,
        key: Val,
        make: Factory,
    ) -> Result<Probe, Memory> {
        let probe = self
            .places
            .get_or_add_made(self.rt, alloc, self.cells, place, ordinal, key, make)?;
        Ok(probe)
    }

    fn read(&mut self, _: Global, place: usize, ordinal: u64) -> Result<Collection, Memory> {
        let value = self.places.read(self.rt, self.cells, place, ordinal)?;
        Ok(value)
    }

    fn before(&self, worker: u32, ordinal: u64) -> Result<(), Memory> {
        self.gate.before(worker, ordinal);
        if self.stop.load(Ordering::Relaxed) {
            return Err(Memory);
        }
        Ok(())
    }

    fn after(&self, worker: u32, ordinal: u64) {
        self.gate.after(worker, ordinal, &self.places);
    }

    ghost waits = { seat_waits };
}
