//! The calls on a walk over a pool that several threads share.
ghost use Rattle.std.specs.Prelude.{◌≡◌, IfErr, IfOk, Some};
ghost use Rattle.plain_model.specs.Places.{next, reset};
ghost use Rattle.stack_pool.specs.Calls.{IsGivenBack, IsTaken, NoneLent, NotLent};
ghost use Rattle.stack_pool.specs.Seats.{SameSeat};
ghost use Rattle.enumerators.specs.SharedWalks.{CurrentRefused, IsShown, IsTurned, PlaceRefused, StartRefused, TurnRefused};

use crate::rest::Rest;
use crate::walk::{Walk, WalkFault, walk_fault};
use plain_model::Elem;
use stack_pool::{PoolSeat, SharedPool};

/// Over a shared pool a walk belongs to the seat that took its place. On another seat its calls are
/// refused: as `Busy` where a step of the call found the walk's number at its place, and as
/// `Disposed` where it found another owner or none.
impl Walk {
    /// As `start`, in a place that a step of the call found free. Refused as `PoolFull` where the
    /// seat owns as many places as a seat may, or each place was found owned. O(places).
    pub fn start_in(
        rest: Rest,
        made: u64,
        pool: &SharedPool<Rest>,
        seat: &mut PoolSeat<Rest>,
    ) -> Result<Walk, WalkFault>
        requires { seat.old.chair.table_id ≡ pool.now.table.shared.table_id }
        ensures seat { SameSeat seat.old seat.new }
        ensures ok { IfOk result (λ walk. (walk.made ≡ made)
            × IsTaken seat.old.chair.me.0 seat.new.chair.me.0 walk.owner rest) }
        ensures err { IfErr result
            (StartRefused seat.old.chair.me.0 seat.new.chair.me.0 pool.now.places) }
        ensures none_lent { NoneLent seat.old.chair.me.0 → NoneLent seat.new.chair.me.0 }
    {
        match pool.take(seat, rest) {
            Ok(owner) => Ok(Walk { owner, made }),
            Err(refused) => Err(walk_fault(refused.fault)),
        }
    }

    /// As `next`. Its cost is the same.
    #[tactic(auto, using(stack_pool::proofs::AtHome::at_home))]
    pub fn next_in(
        self,
        pool: &SharedPool<Rest>,
        seat: &mut PoolSeat<Rest>,
        now: u64,
    ) -> Result<Option<Elem>, WalkFault>
        requires table { seat.old.chair.table_id ≡ pool.now.table.shared.table_id }
        requires not_lent { NotLent seat.old.chair.me.0 self.owner }
        ensures seat { SameSeat seat.old seat.new }
        ensures ok { IfOk result (λ element. (rest : _)
            × IsTurned seat.old.chair.me.0 seat.new.chair.me.0 self now next rest
            × (element ≡ (next rest).current)) }
        ensures err { IfErr result
            (TurnRefused seat.old.chair.me.0 seat.new.chair.me.0 pool.now.places self now) }
        ensures none_lent { NoneLent seat.old.chair.me.0 → NoneLent seat.new.chair.me.0 }
    {
        match pool.hold(seat, self.owner) {
            Ok(mut held) => {
                let checked = self.check(now);
                let moved = match checked {
                    Ok(()) => Ok(held.content_mut().next()),
                    Err(fault) => Err(fault),
                };
                pool.release(seat, held);
                moved
            }
            Err(fault) => Err(walk_fault(fault)),
        }
    }

    /// As `current`. O(1).
    #[tactic(auto, using(stack_pool::proofs::AtHome::at_home))]
    pub fn current_in(
        self,
        pool: &SharedPool<Rest>,
        seat: &mut PoolSeat<Rest>,
    ) -> Result<Elem, WalkFault>
        requires table { seat.old.chair.table_id ≡ pool.now.table.shared.table_id }
        requires not_lent { NotLent seat.old.chair.me.0 self.owner }
        ensures seat { SameSeat seat.old seat.new }
        ensures ok { IfOk result (λ element. (rest : _) × (rest.current ≡ Some element)
            × IsShown seat.old.chair.me.0 seat.new.chair.me.0 self rest) }
        ensures err { IfErr result
            (CurrentRefused seat.old.chair.me.0 seat.new.chair.me.0 pool.now.places self) }
        ensures none_lent { NoneLent seat.old.chair.me.0 → NoneLent seat.new.chair.me.0 }
    {
        match pool.hold(seat, self.owner) {
            Ok(held) => {
                let current = held.content().current();
                pool.release(seat, held);
                match current {
                    Some(element) => Ok(element),
                    None => Err(WalkFault::NoCurrent),
                }
            }
            Err(fault) => Err(walk_fault(fault)),
        }
    }

    /// As `reset`. O(1).
    #[tactic(auto, using(stack_pool::proofs::AtHome::at_home))]
    pub fn reset_in(
        self,
        pool: &SharedPool<Rest>,
        seat: &mut PoolSeat<Rest>,
        now: u64,
    ) -> Result<(), WalkFault>
        requires table { seat.old.chair.table_id ≡ pool.now.table.shared.table_id }
        requires not_lent { NotLent seat.old.chair.me.0 self.owner }
        ensures seat { SameSeat seat.old seat.new }
        ensures ok { IfOk result (λ _. (rest : _)
            × IsTurned seat.old.chair.me.0 seat.new.chair.me.0 self now reset rest) }
        ensures err { IfErr result
            (TurnRefused seat.old.chair.me.0 seat.new.chair.me.0 pool.now.places self now) }
        ensures none_lent { NoneLent seat.old.chair.me.0 → NoneLent seat.new.chair.me.0 }
    {
        match pool.hold(seat, self.owner) {
            Ok(mut held) => {
                let checked = self.check(now);
                if checked.is_ok() {
                    held.content_mut().reset();
                }
                pool.release(seat, held);
                checked
            }
            Err(fault) => Err(walk_fault(fault)),
        }
    }

    /// As `dispose`. Its cost is the same.
    pub fn dispose_in(
        self,
        pool: &SharedPool<Rest>,
        seat: &mut PoolSeat<Rest>,
    ) -> Result<(), WalkFault>
        requires table { seat.old.chair.table_id ≡ pool.now.table.shared.table_id }
        requires not_lent { NotLent seat.old.chair.me.0 self.owner }
        ensures seat { SameSeat seat.old seat.new }
        ensures ok { IfOk result (λ _. (rest : _)
            × IsGivenBack seat.old.chair.me.0 seat.new.chair.me.0 self.owner rest) }
        ensures err { IfErr result
            (PlaceRefused seat.old.chair.me.0 seat.new.chair.me.0 pool.now.places self) }
        ensures none_lent { NoneLent seat.old.chair.me.0 → NoneLent seat.new.chair.me.0 }
    {
        match pool.give_back(seat, self.owner) {
            Ok(_) => Ok(()),
            Err(fault) => Err(walk_fault(fault)),
        }
    }
}
