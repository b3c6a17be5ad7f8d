//! The walks of a part.
ghost use Rattle.std.specs.Prelude.{◌≡◌, true, is_some, Some, IfOk, OnErr};
ghost use Rattle.plain_model.specs.Places.{new_pool};
ghost use Rattle.collection_walks.specs.Calls.{current_called, dispose_called, next_called, reset_called, start_called};
ghost use Rattle.collection_walks.specs.Refusals.{refusal_in};

use collections::Judged;
use enumerators::{Rest, Walk, WalkFault};
use imm_base::Memory;
use plain_model::{Elem, Refusal};
use stack_pool::Pool;
use std::alloc::Global;
use std::marker::Model;

/// The walks of a part, at most 35 at a time. Contracts see the pool of the plain model.
///
/// A handle is asked of the walks among which it was started.
#[derive(Drop)]
pub struct Walks {
    pool: Pool<Rest>,
}

impl Model for Walks {
    ghost use Rattle.plain_model.specs.declared.plain.Elem.{Elem as Element};
    ghost use Rattle.plain_model.specs.Places.{Pool as Places, Rest as Remainder};
    ghost use Rattle.enumerators.specs.PlainPools.{plain_pool};

    ghost Value = { Places (Remainder Element) };

    ghost view = { λ w. plain_pool w.pool };
}

impl Walks {
    /// No walks.
    pub fn make(alloc: Global) -> Result<Walks, Memory>
        ensures { IfOk result (λ walks. walks ≡ new_pool) }
    {
        Ok(Walks {
            pool: Pool::make(alloc)?,
        })
    }

    /// Puts what is left to walk into the lowest free place, under a new number. `made` is the
    /// version of what is walked. Where each place is taken, `rest` is dropped. O(1).
    ///
    /// After the last of 2^58 takings it answers `Memory`.
    pub fn start(&mut self, rest: Rest, made: u64) -> Judged<Walk>
        ensures answer { IfOk result (λ answer. answer ≡ (start_called rest made self.old).answer) }
        ensures walks { IfOk result (λ _. self.new ≡ (start_called rest made self.old).walks) }
        ensures memory { OnErr result (self.new ≡ self.old) }
    {
        match Walk::start(rest, made, &mut self.pool) {
            Ok(walk) => Ok(Ok(walk)),
            Err(WalkFault::PoolFull) => Ok(Err(Refusal::PoolFull)),
            // No number is left.
            Err(_) => Err(Memory),
        }
    }

    /// Moves the first element to come into the current one, and answers it, or `None` at the end.
    /// `now` is the version of what is walked. It takes no memory. O(log n) for n elements, so a
    /// whole walk costs O(n log n).
    pub fn next(&mut self, walk: Walk, now: u64) -> Result<Option<Elem>, Refusal>
        ensures answer { result ≡ (next_called walk now self.old).answer }
        ensures walks { self.new ≡ (next_called walk now self.old).walks }
    {
        match walk.next(&mut self.pool, now) {
            Ok(element) => Ok(element),
            Err(fault) => Err(refusal(fault)),
        }
    }

    /// The element that the walk stands at. O(1).
    pub fn current(&mut self, walk: Walk) -> Result<Elem, Refusal>
        ensures answer { result ≡ (current_called walk self.old).answer }
        ensures walks { self.new ≡ (current_called walk self.old).walks }
    {
        match walk.current(&mut self.pool) {
            Ok(element) => Ok(element),
            Err(fault) => Err(refusal(fault)),
        }
    }

    /// Goes back before the first element. `now` is the version of what is walked. O(1).
    pub fn reset(&mut self, walk: Walk, now: u64) -> Result<(), Refusal>
        ensures answer { result ≡ (reset_called walk now self.old).answer }
        ensures walks { self.new ≡ (reset_called walk now self.old).walks }
    {
        match walk.reset(&mut self.pool, now) {
            Ok(()) => Ok(()),
            Err(fault) => Err(refusal(fault)),
        }
    }

    /// Makes the walk's place free, and drops what is left to walk. O(1), besides the nodes that
    /// nobody shares.
    pub fn dispose(&mut self, walk: Walk) -> Result<(), Refusal>
        ensures answer { result ≡ (dispose_called walk self.old).answer }
        ensures walks { self.new ≡ (dispose_called walk self.old).walks }
    {
        match walk.dispose(&mut self.pool) {
            Ok(()) => Ok(()),
            Err(fault) => Err(refusal(fault)),
        }
    }
}

// Why a call on a walk is refused, as a run tells it.
fn refusal(fault: WalkFault) -> Refusal
    requires { is_some (refusal_in fault) ≡ true }
    ensures { Some result ≡ refusal_in fault }
{
    match fault {
        WalkFault::Disposed => Refusal::Disposed,
        WalkFault::Changed { made, now } => Refusal::Changed { made, now },
        WalkFault::NoCurrent => Refusal::NoCurrent,
        WalkFault::PoolFull => Refusal::PoolFull,
        // Walks of one thread wait for no other, and a call on one takes no number.
        WalkFault::Busy { .. } | WalkFault::NoNumber => unreachable!(),
    }
}
