//! A pool that several threads share.
ghost use Rattle.std.specs.Prelude.{◌≡◌, ℕ, ◌*◌, ◌<◌, ◌≤◌, [], length, IsOk, IfOk, IfErr, OnErr};
ghost use Rattle.stack_pool.specs.Views.{place_count, first_view, new_view};
ghost use Rattle.stack_pool.specs.Calls.{EachAt, NotLent, NoneLent, LentTo, KeepsNothing, IsTaken, TakeRefused, IsHeld, IsReleased, IsGivenBack, Refused};
ghost use Rattle.stack_pool.specs.Seats.{SameSeat};

use crate::calls::{give_back_on, hold_on, release_on, take_on};
use crate::closing::{empty_chair, gather};
use crate::fault::{Owner, PoolFault, TakeFault};
use crate::plays::Deal;
use crate::rule::{Board, Chair, PlaceRule};
use crate::seat::{Held, PoolSeat};
use crate::view::View;
use crate::{MOST_TAKINGS, PLACES, STRIDE};
use atomic_table::Table;
use imm_base::Memory;
use std::alloc::Global;

/// 35 places for each seat, which any of the seats may take. None of the calls waits. A place that
/// a number owns is given to no other before that number gave it back, and its content is what the
/// owner's seat left there: a seat keeps what it owns in its view, which no step of another seat
/// changes.
///
/// No call but `make` takes memory. `take` costs O(places), the other calls with a handle O(1), and
/// `close` O(places) for each seat.
#[derive(Drop)]
pub struct SharedPool<S: Drop> {
    pub(crate) places: u32,
    pub table: Table<Option<S>, View<S>, u64, PlaceRule, Global>,
    ghost sized: { (places ≡ table.shared.table_id.words)
        × (places ≡ place_count table.shared.key) × (0 < places) },
}

impl<S: Drop> SharedPool<S> {
    /// A pool of free places with its seats, in the order of their numbers, which begin with 0.
    pub fn make(alloc: Global, seats: u32) -> Result<(SharedPool<S>, Vec<PoolSeat<S>>), Memory>
        requires { (0 < seats) × (seats ≤ 8) }
        ensures pool { IfOk result (λ made. (made.0.places ≡ seats * PLACES)
            × (made.0.table.shared.key ≡ seats)) }
        ensures count { IfOk result (λ made. length made.1.items ≡ seats) }
        ensures seats { IfOk result (λ made. EachAt
            (λ k seat. (seat.chair.table_id ≡ made.0.table.shared.table_id)
            × (seat.chair.me.0 ≡ new_view seats k)) made.1.items) }
    {
        let places = seats * PLACES;
        let mut words = Vec::with_capacity(alloc, places as usize)?;
        for place in 0..places {
            let _ = place;
            words.push(0u64)?;
        }
        let (table, first) = Table::vacant(alloc, &words, places as usize, &(seats as u64))?;
        let pool = SharedPool { places, table };
        let dealt = deal_seats(alloc, &pool.table.shared, first, seats)?;
        Ok((pool, dealt))
    }

    /// Fills a place that a step of the call found free: it tries each place once, from 0 on.
    /// Refused where no number is left, else where the seat owns as many places as a seat may, and
    /// else where each place was found owned; the content comes back then.
    pub fn take(&self, seat: &mut PoolSeat<S>, rest: S) -> Result<Owner, TakeFault<S>>
        requires { seat.old.chair.table_id ≡ self.now.table.shared.table_id }
        ensures seat { SameSeat seat.old seat.new }
        ensures ok { IfOk result (λ o. IsTaken seat.old.chair.me.0 seat.new.chair.me.0 o rest) }
        ensures err { IfErr result (λ e. (e.rest ≡ rest)
            × TakeRefused self.now.places seat.old.chair.me.0 seat.new.chair.me.0 e.fault) }
        ensures none_lent { NoneLent seat.old.chair.me.0 → NoneLent seat.new.chair.me.0 }
    {
        if seat.takings == MOST_TAKINGS {
            return Err(TakeFault {
                fault: PoolFault::NoNumber,
                rest,
            });
        }
        if seat.owned == PLACES {
            return Err(TakeFault {
                fault: PoolFault::PoolFull,
                rest,
            });
        }
        let number = STRIDE * (seat.takings + 1) + seat.number;
        match take_on(
            &self.table.shared,
            &mut seat.chair,
            self.places,
            number,
            rest,
        ) {
            Ok(owner) => {
                seat.takings += 1;
                seat.owned += 1;
                Ok(owner)
            }
            Err(rest) => Err(TakeFault {
                fault: PoolFault::PoolFull,
                rest,
            }),
        }
    }

    /// Lends the content of the handle's place, which stays this seat's. Refused as `Disposed`
    /// where a step found another owner, and as `Busy` where it found the handle's number, which is
    /// another seat's: never where this seat keeps the place with the handle's number.
    pub fn hold(&self, seat: &mut PoolSeat<S>, owner: Owner) -> Result<Held<S>, PoolFault>
        requires table { seat.old.chair.table_id ≡ self.now.table.shared.table_id }
        requires not_lent { NotLent seat.old.chair.me.0 owner }
        ensures seat { SameSeat seat.old seat.new }
        ensures ok { IfOk result (λ held. (held.owner ≡ owner)
            × IsHeld seat.old.chair.me.0 seat.new.chair.me.0 owner held.content) }
        ensures err { IfErr result
            (Refused self.now.places seat.old.chair.me.0 seat.new.chair.me.0 owner) }
        ensures none_lent { OnErr result (NoneLent seat.old.chair.me.0
            → NoneLent seat.new.chair.me.0) }
    {
        match hold_on(
            &self.table.shared,
            &mut seat.chair,
            self.places,
            seat.number,
            owner,
        ) {
            Ok(content) => Ok(Held { owner, content }),
            Err(fault) => Err(fault),
        }
    }

    /// Takes back a content that this seat was lent.
    pub fn release(&self, seat: &mut PoolSeat<S>, held: Held<S>)
        requires table { seat.old.chair.table_id ≡ self.now.table.shared.table_id }
        requires lent { LentTo seat.old.chair.me.0 held.owner }
        ensures seat { SameSeat seat.old seat.new }
        ensures view { IsReleased seat.old.chair.me.0 seat.new.chair.me.0 held.owner held.content }
    {
        let Held { owner, content } = held;
        release_on(
            &self.table.shared,
            &mut seat.chair,
            self.places,
            seat.number,
            owner,
            content,
        );
    }

    /// Makes the handle's place free, and hands its content out. Refused as `hold` is.
    pub fn give_back(&self, seat: &mut PoolSeat<S>, owner: Owner) -> Result<S, PoolFault>
        requires table { seat.old.chair.table_id ≡ self.now.table.shared.table_id }
        requires not_lent { NotLent seat.old.chair.me.0 owner }
        ensures seat { SameSeat seat.old seat.new }
        ensures ok { IfOk result
            (λ content. IsGivenBack seat.old.chair.me.0 seat.new.chair.me.0 owner content) }
        ensures err { IfErr result
            (Refused self.now.places seat.old.chair.me.0 seat.new.chair.me.0 owner) }
        ensures none_lent { NoneLent seat.old.chair.me.0 → NoneLent seat.new.chair.me.0 }
    {
        match give_back_on(
            &self.table.shared,
            &mut seat.chair,
            self.places,
            seat.number,
            owner,
        ) {
            Ok(content) => {
                seat.owned -= 1;
                Ok(content)
            }
            Err(fault) => Err(fault),
        }
    }

    /// Ends the pool. These are all its seats, and no caller has a content of theirs. What they
    /// still own is given back and dropped. It takes no memory, so there is no error.
    pub fn close(self, seats: Vec<PoolSeat<S>>) -> Result<(), Memory>
        requires seats { EachAt (λ _ seat. (seat.chair.table_id ≡ self.table.shared.table_id)
            × NoneLent seat.chair.me.0) seats.items }
        requires all { length seats.items ≡ self.table.shared.key }
        ensures { IsOk result }
    {
        let mut seats = seats;
        let Some(first) = seats.pop() else {
            return Ok(());
        };
        let mut chair = emptied(&self.table.shared, self.places, first);
        while let Some(seat) = seats.pop() {
            let other = emptied(&self.table.shared, self.places, seat);
            gather(&self.table.shared, &mut chair, other);
        }
        Ok(())
    }
}

// The chair of a seat, after all that the seat owned was given back.
fn emptied<S: Drop>(board: &Board<S>, places: u32, seat: PoolSeat<S>) -> Chair<S>
    requires table { seat.chair.table_id ≡ board.now.table_id }
    requires places { (board.now.table_id.words ≡ board.now.key * PLACES)
        × (places ≡ board.now.table_id.words) }
    requires rest { NoneLent seat.chair.me.0 }
    ensures seat { (result.table_id ≡ seat.chair.table_id) × (result.me.1 ≡ []) }
    ensures empty { KeepsNothing result.me.0 }
{
    let PoolSeat {
        number,
        takings: _,
        owned: _,
        chair,
    } = seat;
    let mut chair = chair;
    empty_chair(board, &mut chair, places, number);
    chair
}

// The seats of a new pool: each gives the numbers that are left to the next one.
fn deal_seats<S: Drop>(
    alloc: Global,
    board: &Board<S>,
    first: Chair<S>,
    seats: u32,
) -> Result<Vec<PoolSeat<S>>, Memory>
    requires table { (first.table_id ≡ board.now.table_id) × (first.me ≡ (first_view seats, [])) }
    requires places { (board.now.table_id.words ≡ seats * PLACES) × (board.now.key ≡ seats)
        × (0 < seats) × (seats ≤ 8) }
    ensures count { IfOk result (λ dealt. length dealt.items ≡ seats) }
    ensures seats { IfOk result (λ dealt. EachAt
        (λ k seat. (seat.chair.table_id ≡ board.now.table_id)
        × (seat.chair.me.0 ≡ new_view seats k)) dealt.items) }
{
    let mut dealt = Vec::with_capacity(alloc, seats as usize)?;
    let mut chair = first;
    for number in 1..seats {
        let next = board.split_seat::<Deal>(&mut chair);
        dealt.push(PoolSeat {
            number: number as u64 - 1,
            takings: 0,
            owned: 0,
            chair,
        })?;
        chair = next;
    }
    dealt.push(PoolSeat {
        number: seats as u64 - 1,
        takings: 0,
        owned: 0,
        chair,
    })?;
    Ok(dealt)
}
