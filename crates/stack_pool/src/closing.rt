//! The end of a shared pool.
ghost use Rattle.std.specs.Prelude.{◌≡◌, ◌≢◌, ℕ, ◌<◌, ◌≤◌, ◌*◌, length, []};
ghost use Rattle.stack_pool.specs.Views.{kept_at, number_at, joined};
ghost use Rattle.stack_pool.specs.Calls.{NoneLent, KeepsNothing, Placed, Seated};
ghost use Rattle.stack_pool.specs.Seats.{SameChair};

use crate::STRIDE;
use crate::plays::Gather;
use crate::rule::{Board, Chair};
use crate::steps::{clear, lift, probe};

// Makes the place free where it is the seat's.
fn empty_place<S: Drop>(board: &Board<S>, chair: &mut Chair<S>, place: usize, seat: u64)
    requires table { chair.old.table_id ≡ board.now.table_id }
    requires placed { Placed board.now.table_id.words board.now.key place chair.old.me.0 }
    requires rest { (chair.old.me.0.number ≡ seat) × NoneLent chair.old.me.0 }
    ensures seat { SameChair chair.old chair.new }
    ensures same { (length chair.new.me.0.kept ≡ length chair.old.me.0.kept)
        × (chair.new.me.0.number ≡ chair.old.me.0.number) }
    ensures gone { number_at chair.new.me.0 place ≡ 0 }
    ensures others { (other : ℕ) → other ≢ place
        → kept_at chair.new.me.0.kept other ≡ kept_at chair.old.me.0.kept other }
{
    let word = probe(board, chair, place);
    if word == 0 || word / 2 % STRIDE != seat {
        return;
    }
    let content = lift(board, chair, place, word / 2);
    clear(board, chair, place);
    drop(content);
}

/// Gives back all that the seat owns.
pub(crate) fn empty_chair<S: Drop>(board: &Board<S>, chair: &mut Chair<S>, places: u32, seat: u64)
    requires table { chair.old.table_id ≡ board.now.table_id }
    requires seated { Seated board.now.table_id.words board.now.key places seat chair.old.me.0 }
    requires rest { NoneLent chair.old.me.0 }
    ensures seat { SameChair chair.old chair.new }
    ensures empty { KeepsNothing chair.new.me.0 }
{
    let mut place = 0;
    while place < places {
        empty_place(board, chair, place as usize, seat);
        place += 1;
    }
}

/// Takes in a seat that keeps nothing.
pub(crate) fn gather<S>(board: &Board<S>, chair: &mut Chair<S>, other: Chair<S>)
    requires table { (chair.old.table_id ≡ board.now.table_id)
        × (other.table_id ≡ board.now.table_id)
        × (0 < board.now.table_id.words) }
    requires empty { KeepsNothing other.me.0 × (other.me.1 ≡ []) }
    ensures seat { SameChair chair.old chair.new }
    ensures view { chair.new.me.0 ≡ joined chair.old.me.0 other.me.0 }
{
    board.join_seat::<Gather>(chair, other);
}
