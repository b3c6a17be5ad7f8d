//! The calls of a shared pool, on a seat with an empty hand. `places` is the count of the pool's
//! places, and `seat` the seat's own number.
ghost use Rattle.std.specs.Prelude.{◌≡◌, ◌≢◌, ◌+◌, ◌-◌, ◌^◌, ◌<◌, length, MatchResult, OnOk, OnErr};
ghost use Rattle.stack_pool.specs.Views.{number_at, kept_count, next_number};
ghost use Rattle.stack_pool.specs.Calls.{owner_in, Seated, NotLent, LentTo, IsTaken, FoundOwned, IsHeld, IsReleased, IsGivenBack, IsMine, Refused, Counts, SameCounts};
ghost use Rattle.stack_pool.specs.Seats.{SameChair};

use crate::fault::{Owner, PoolFault};
use crate::rule::{Board, Chair};
use crate::steps::{clear, fetch, lay, lift, probe, put_home, try_take};
use crate::{MOST_TAKINGS, STRIDE};

fn read_owner(word: u64) -> Option<u64>
    ensures { result ≡ owner_in word }
{
    if word / 2 == 0 { None } else { Some(word / 2) }
}

/// Looks at the handle's place, and answers what was found there if the place is the handle's and
/// this seat's.
#[tactic(auto, using(crate::proofs::Mine::mine))]
fn find<S>(
    board: &Board<S>,
    chair: &mut Chair<S>,
    places: u32,
    seat: u64,
    owner: Owner,
) -> Result<u64, PoolFault>
    requires table { chair.old.table_id ≡ board.now.table_id }
    requires seated { Seated board.now.table_id.words board.now.key places seat chair.old.me.0 }
    ensures seat { SameChair chair.old chair.new }
    ensures answer { MatchResult result
        (λ word. IsMine places chair.old.me.0 chair.new.me.0 owner word)
        (λ fault. Refused places chair.old.me.0 chair.new.me.0 owner fault) }
{
    if owner.place >= places {
        return Err(PoolFault::Disposed { holder: None });
    }
    let word = probe(board, chair, owner.place as usize);
    let holder = read_owner(word);
    if holder != Some(owner.number) {
        return Err(PoolFault::Disposed { holder });
    }
    if owner.number % STRIDE != seat {
        return Err(PoolFault::Busy {
            number: owner.number,
        });
    }
    Ok(word)
}

/// Fills the first place that is found free, or hands the content back.
pub(crate) fn take_on<S: Drop>(
    board: &Board<S>,
    chair: &mut Chair<S>,
    places: u32,
    number: u64,
    content: S,
) -> Result<Owner, S>
    requires table { chair.old.table_id ≡ board.now.table_id }
    requires seated { Seated board.now.table_id.words board.now.key places chair.old.me.0.number chair.old.me.0 }
    requires number { (number ≡ next_number chair.old.me.0)
        × (chair.old.me.0.takings < MOST_TAKINGS) }
    ensures seat { SameChair chair.old chair.new }
    ensures taken { OnOk result
        (Counts chair.old.me.0 chair.new.me.0 (chair.old.me.0.takings + 1)
        (kept_count chair.old.me.0.kept + 1)) }
    ensures refused { OnErr result (SameCounts chair.old.me.0 chair.new.me.0) }
    ensures answer { MatchResult result
        (λ o. (o.place < length chair.old.me.0.kept)
        × IsTaken chair.old.me.0 chair.new.me.0 o content)
        (λ back. (back ≡ content) × FoundOwned places chair.old.me.0 chair.new.me.0) }
{
    let mut place = 0;
    while place < places {
        if try_take(board, chair, place as usize, number) == 0 {
            put_home(board, chair, place as usize, number, content);
            return Ok(Owner { number, place });
        }
        place += 1;
    }
    Err(content)
}

/// Lends the content of the handle's place.
pub(crate) fn hold_on<S>(
    board: &Board<S>,
    chair: &mut Chair<S>,
    places: u32,
    seat: u64,
    owner: Owner,
) -> Result<S, PoolFault>
    requires table { chair.old.table_id ≡ board.now.table_id }
    requires seated { Seated board.now.table_id.words board.now.key places seat chair.old.me.0 }
    requires not_lent { NotLent chair.old.me.0 owner }
    ensures seat { SameChair chair.old chair.new }
    ensures counts { SameCounts chair.old.me.0 chair.new.me.0 }
    ensures answer { MatchResult result
        (λ content. (owner.number ≢ 0) × (owner.number < 2 ^ 63) × (owner.place < places)
        × IsHeld chair.old.me.0 chair.new.me.0 owner content)
        (λ fault. Refused places chair.old.me.0 chair.new.me.0 owner fault) }
{
    match find(board, chair, places, seat, owner) {
        Ok(_) => {
            let content = lift(board, chair, owner.place as usize, owner.number);
            lay(board, chair, owner.place as usize);
            Ok(content)
        }
        Err(fault) => Err(fault),
    }
}

/// Brings a content back.
pub(crate) fn release_on<S: Drop>(
    board: &Board<S>,
    chair: &mut Chair<S>,
    places: u32,
    seat: u64,
    owner: Owner,
    content: S,
)
    requires table { chair.old.table_id ≡ board.now.table_id }
    requires seated { Seated board.now.table_id.words board.now.key places seat chair.old.me.0 }
    requires lent { (owner.number ≢ 0) × (owner.number < 2 ^ 63) × (owner.place < places)
        × LentTo chair.old.me.0 owner }
    ensures seat { SameChair chair.old chair.new }
    ensures counts { SameCounts chair.old.me.0 chair.new.me.0 }
    ensures view { IsReleased chair.old.me.0 chair.new.me.0 owner content }
{
    fetch(board, chair, owner.place as usize);
    put_home(board, chair, owner.place as usize, owner.number, content);
}

/// Makes the handle's place free.
pub(crate) fn give_back_on<S>(
    board: &Board<S>,
    chair: &mut Chair<S>,
    places: u32,
    seat: u64,
    owner: Owner,
) -> Result<S, PoolFault>
    requires table { chair.old.table_id ≡ board.now.table_id }
    requires seated { Seated board.now.table_id.words board.now.key places seat chair.old.me.0 }
    requires not_lent { NotLent chair.old.me.0 owner }
    ensures seat { SameChair chair.old chair.new }
    ensures counts { OnOk result
        (Counts chair.old.me.0 chair.new.me.0 chair.old.me.0.takings
        (kept_count chair.old.me.0.kept - 1)
        × (0 < kept_count chair.old.me.0.kept)) }
    ensures refused { OnErr result (SameCounts chair.old.me.0 chair.new.me.0) }
    ensures answer { MatchResult result
        (λ content. (owner.number ≢ 0) × (owner.place < places)
        × IsGivenBack chair.old.me.0 chair.new.me.0 owner content)
        (λ fault. Refused places chair.old.me.0 chair.new.me.0 owner fault) }
{
    match find(board, chair, places, seat, owner) {
        Ok(_) => {
            let content = lift(board, chair, owner.place as usize, owner.number);
            clear(board, chair, owner.place as usize);
            Ok(content)
        }
        Err(fault) => Err(fault),
    }
}
