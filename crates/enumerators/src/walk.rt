//! A handle on a walk, and the calls on it over a pool for one thread.
ghost use Rattle.std.specs.Prelude.{◌≡◌, ◌≢◌, Some, Ok, None, MatchResult};
ghost use Rattle.plain_model.specs.Places.{next, reset};
ghost use Rattle.enumerators.specs.Walking.{IsStarted, IsTurned, TurnRefused, current_elem, fault_in, own_rest, start_fault, walk_fault, without_rest};
ghost use Rattle.enumerators.specs.PlainPools.{plain_pool};

use crate::rest::Rest;
use plain_model::Elem;
use stack_pool::{Owner, Pool, PoolFault};

/// A handle on a place of a pool with what is left to walk, and the version of what is walked at
/// the start. Copies of it are the same walk: after one is disposed, each call on any of them is
/// refused.
///
/// A handle is asked of the pool in which it was started. In another pool the number alone decides.
#[derive(Clone, Copy)]
pub struct Walk {
    pub(crate) owner: Owner,
    pub(crate) made: u64,
}

/// Why a call on a walk is refused. Where several causes stand together, the first of `Disposed`,
/// `Busy`, `Changed`, `NoCurrent` is answered.
#[derive(Clone, Copy, Debug, PartialEq, Eq)]
pub enum WalkFault {
    /// The walk's number does not own its place, or there is no such place.
    Disposed,
    /// What is walked had another version at the start.
    Changed { made: u64, now: u64 },
    /// The walk stands before the first element or at the end.
    NoCurrent,
    /// The number owns the place, and is another seat's.
    Busy { number: u64 },
    /// No place was free, or the seat owns as many as a seat may.
    PoolFull,
    /// All takings were made.
    NoNumber,
}

impl Walk {
    /// A handle of nobody: each call on it is refused as `Disposed`.
    pub fn none() -> Walk
        ensures { result ≡ record { owner = record { number = 0; place = 0 }; made = 0 } }
    {
        Walk {
            owner: Owner {
                number: 0,
                place: 0,
            },
            made: 0,
        }
    }

    /// Puts what is left to walk into the lowest free place, under a new number. `made` is the
    /// version of what is walked. Refused as `NoNumber` after the pool's last taking, and else as
    /// `PoolFull` where each place is owned; then `rest` is dropped. O(1).
    #[tactic(auto, using(crate::proofs::Takings::plain_takings))]
    pub fn start(rest: Rest, made: u64, pool: &mut Pool<Rest>) -> Result<Walk, WalkFault>
        ensures { MatchResult result
            (λ walk. (walk.made ≡ made) × (start_fault pool.old ≡ None)
            × IsStarted pool.old pool.new rest walk)
            (λ fault. (start_fault pool.old ≡ Some fault) × (pool.new ≡ pool.old)) }
    {
        match pool.take(rest) {
            Ok(owner) => Ok(Walk { owner, made }),
            Err(refused) => Err(walk_fault(refused.fault)),
        }
    }

    /// Moves the first element to come into the current one, and answers it, or `None` at the end.
    /// `now` is the version of what is walked. Refused as `Disposed` where the walk's number does
    /// not own its place, and else as `Changed` where the version is not that at the start.
    ///
    /// It takes no memory. One call goes down the tree of the n elements once, O(log n), so a whole
    /// walk costs O(n log n).
    #[tactic(auto, using(crate::proofs::PlainPools::plain_calls))]
    pub fn next(self, pool: &mut Pool<Rest>, now: u64) -> Result<Option<Elem>, WalkFault>
        ensures { MatchResult result
            (λ element. (rest : _) × IsTurned pool.old pool.new self now next rest
            × (element ≡ (next rest).current))
            (TurnRefused pool.old pool.new self now) }
    {
        match pool.with(self.owner) {
            Err(_) => Err(WalkFault::Disposed),
            Ok(rest) => match self.check(now) {
                Ok(()) => Ok(rest.next()),
                Err(fault) => Err(fault),
            },
        }
    }

    /// The element that the walk stands at. Refused as `Disposed` where the walk's number does not
    /// own its place, and else as `NoCurrent` where no `next` was answered since the start or the
    /// last `reset`, or the last one answered `None`. O(1).
    #[tactic(auto, using(crate::proofs::PlainPools::plain_calls))]
    pub fn current(self, pool: &mut Pool<Rest>) -> Result<Elem, WalkFault>
        ensures answer { MatchResult result
            (λ element. current_elem pool.old self ≡ Ok element)
            (λ fault. fault_in (current_elem pool.old self) ≡ Some fault) }
        ensures same { pool.new ≡ pool.old }
    {
        match pool.with(self.owner) {
            Err(_) => Err(WalkFault::Disposed),
            Ok(rest) => match rest.current() {
                Some(element) => Ok(element),
                None => Err(WalkFault::NoCurrent),
            },
        }
    }

    /// Goes back before the first element of the list walked. Refused as `next` is. O(1).
    #[tactic(auto, using(crate::proofs::PlainPools::plain_calls))]
    pub fn reset(self, pool: &mut Pool<Rest>, now: u64) -> Result<(), WalkFault>
        ensures { MatchResult result
            (λ _. (rest : _) × IsTurned pool.old pool.new self now reset rest)
            (TurnRefused pool.old pool.new self now) }
    {
        match pool.with(self.owner) {
            Err(_) => Err(WalkFault::Disposed),
            Ok(rest) => match self.check(now) {
                Ok(()) => {
                    rest.reset();
                    Ok(())
                }
                Err(fault) => Err(fault),
            },
        }
    }

    /// Makes the walk's place free, and drops what is left to walk. Refused as `Disposed` where the
    /// walk's number does not own its place. O(1), besides the nodes that nobody shares.
    #[tactic(auto, using(crate::proofs::PlainPools::plain_calls))]
    pub fn dispose(self, pool: &mut Pool<Rest>) -> Result<(), WalkFault>
        ensures { MatchResult result
            (λ _. (rest : _) × (own_rest pool.old self ≡ Some rest)
            × (plain_pool pool.new ≡ without_rest self pool.old))
            (λ fault. (own_rest pool.old self ≡ None) × (fault ≡ WalkFault.Disposed)
            × (pool.new ≡ pool.old)) }
    {
        match pool.give_back(self.owner) {
            Ok(rest) => {
                drop(rest);
                Ok(())
            }
            Err(_) => Err(WalkFault::Disposed),
        }
    }

    // Whether what is walked has the version that it had at the start.
    pub(crate) fn check(self, now: u64) -> Result<(), WalkFault>
        ensures { MatchResult result (λ _. self.made ≡ now)
            (λ fault. (self.made ≢ now) × (fault ≡ WalkFault.Changed self.made now)) }
    {
        if self.made == now {
            Ok(())
        } else {
            Err(WalkFault::Changed {
                made: self.made,
                now,
            })
        }
    }
}

// What a fault of a pool is to a walk.
pub(crate) fn walk_fault(fault: PoolFault) -> WalkFault
    ensures { result ≡ walk_fault fault }
{
    match fault {
        PoolFault::PoolFull => WalkFault::PoolFull,
        PoolFault::NoNumber => WalkFault::NoNumber,
        PoolFault::Disposed { .. } => WalkFault::Disposed,
        PoolFault::Busy { number } => WalkFault::Busy { number },
    }
}
