//! The rights of workers to call cells.
ghost use Rattle.std.specs.Prelude.{◌≡◌, ◌≤◌, [], IfOk, length, vec_capacity};
ghost use Rattle.version_slots.specs.Tokens.{front_of};
ghost use Rattle.interlocked.specs.Known.{Known};

use crate::shared::{CellChange, CellValue};
use imm_base::Memory;
use interlocked::CellPass;
use std::alloc::Global;
use std::marker::Model;

/// The right of one worker to call a cell. Where it is dropped it is given up, and its cell can
/// never be closed then.
pub struct SharedPass {
    pub(crate) pass: CellPass<CellValue, CellChange>,
}

impl Model for SharedPass {
    ghost Value = { Known };

    ghost view = { λ p. p.pass };
}

impl Drop for SharedPass {
    fn drop(self) {
        let SharedPass { pass } = self;
        pass.give_up();
    }
}

impl SharedPass {
    /// From 1 on.
    pub fn number(&self) -> u32
        ensures { result ≡ self.now.view.number }
    {
        self.pass.number()
    }

    // The ordinal of the last call, or 0.
    pub(crate) fn last_ordinal(&self) -> u64
        ensures { result ≡ self.now.last }
    {
        self.pass.last_ordinal()
    }

    // The ticket of the newest version that it has seen.
    pub(crate) fn ticket(&self) -> u64
        ensures { result ≡ (front_of self.now.view.seen).ticket }
    {
        self.pass.seen().ticket
    }

    // The same right, which cannot be dropped.
    fn into_pass(self) -> CellPass<CellValue, CellChange>
        ensures { result ≡ self }
    {
        let SharedPass { pass } = self;
        pass
    }
}

// The passes of a new cell, which are given up where they are dropped.
pub(crate) fn wrap(
    mut passes: Vec<CellPass<CellValue, CellChange>>,
    mut all: Vec<SharedPass>,
) -> Vec<SharedPass>
    requires { (all.items ≡ []) × (length passes.items ≤ vec_capacity all) }
    ensures { result.items ≡ passes.items }
{
    while let Some(pass) = passes.pop() {
        all.push_reserved(SharedPass { pass });
    }
    passes.destroy_empty();
    all.reverse();
    all
}

// The passes of a cell that is closed.
pub(crate) fn unwrap(
    alloc: Global,
    mut passes: Vec<SharedPass>,
) -> Result<Vec<CellPass<CellValue, CellChange>>, Memory>
    ensures { IfOk result (λ all. all.items ≡ passes.items) }
{
    let mut all = Vec::with_capacity(alloc, passes.len())?;
    while let Some(pass) = passes.pop() {
        all.push_reserved(pass.into_pass());
    }
    all.reverse();
    Ok(all)
}
