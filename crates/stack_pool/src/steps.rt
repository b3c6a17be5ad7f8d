//! The steps of a seat on one place.
ghost use Rattle.std.specs.Prelude.{◌≡◌, ◌≢◌, ◌+◌, ◌*◌, ◌^◌, ◌<◌, [], ◌∷◌, Some, None};
ghost use Rattle.atomic_table.specs.Table.{rest};
ghost use Rattle.stack_pool.specs.Views.{kept_at, number_at, next_number, IsHome, IsOut, IsLent};
ghost use Rattle.stack_pool.specs.Steps.{Shows, found};
ghost use Rattle.stack_pool.specs.Calls.{Placed, kept_as, taken_as, found_more};
ghost use Rattle.stack_pool.specs.Seats.{HasHand, SameChair};
ghost use Rattle.stack_pool.specs.declared.view.Keep.TheVariants.{Nothing, Home, Out, Lent};
ghost use Rattle.stack_pool.specs.declared.view.Kind.TheVariants.{Probe, Take, Back, Hold, Clear};

use crate::MOST_TAKINGS;
use crate::plays::{BackPlace, ClearPlace, FetchPlace, HoldPlace, LayPlace, ProbePlace, TakePlace};
use crate::rule::{Board, Chair};

/// The word of the place.
pub(crate) fn probe<S>(board: &Board<S>, chair: &mut Chair<S>, place: usize) -> u64
    requires table { chair.old.table_id ≡ board.now.table_id }
    requires placed { Placed board.now.table_id.words board.now.key place chair.old.me.0 }
    ensures seat { SameChair chair.old chair.new }
    ensures shows { Shows chair.old.me.0 place result }
    ensures view { chair.new.me.0 ≡ found_more chair.old.me.0 (found Probe place result ∷ []) }
{
    board.load::<ProbePlace>(chair, place)
}

/// Takes the place where it is free, and answers the word that was found there.
pub(crate) fn try_take<S>(board: &Board<S>, chair: &mut Chair<S>, place: usize, number: u64) -> u64
    requires table { chair.old.table_id ≡ board.now.table_id }
    requires placed { Placed board.now.table_id.words board.now.key place chair.old.me.0 }
    requires number { (number ≡ next_number chair.old.me.0)
        × (chair.old.me.0.takings < MOST_TAKINGS) }
    ensures seat { (chair.new.table_id ≡ chair.old.table_id) × (chair.new.id ≡ chair.old.id) }
    ensures hit { result ≡ 0 → (chair.new.me.1 ≡ (place, None) ∷ chair.old.me.1)
        × (number_at chair.old.me.0 place ≡ 0)
        × (chair.new.me.0 ≡ taken_as chair.old.me.0 place (Out number) (found Take place 0 ∷ [])) }
    ensures miss { result ≢ 0 → (chair.new.me.1 ≡ chair.old.me.1)
        × (chair.new.me.0 ≡ found_more chair.old.me.0 (found Probe place result ∷ [])) }
{
    board.compare_exchange::<TakePlace>(chair, place, 0, number * 2 + 1)
}

/// Takes the content into the seat's hand.
pub(crate) fn lift<S>(board: &Board<S>, chair: &mut Chair<S>, place: usize, number: u64) -> S
    requires table { chair.old.table_id ≡ board.now.table_id }
    requires placed { Placed board.now.table_id.words board.now.key place chair.old.me.0 }
    requires home { IsHome (kept_at chair.old.me.0.kept place)
        × (number ≡ number_at chair.old.me.0 place) × (number < 2 ^ 63) }
    ensures seat { HasHand chair.old chair.new ((place, None) ∷ chair.old.me.1) }
    ensures content { kept_at chair.old.me.0.kept place ≡ Home number result }
    ensures view { chair.new.me.0
        ≡ kept_as chair.old.me.0 place (Out number) (found Hold place (number * 2) ∷ []) }
{
    board.swap::<HoldPlace>(chair, place, number * 2 + 1);
    board.exchange(chair, place, None).unwrap()
}

/// Puts a content into the slot in the seat's hand, which goes home.
pub(crate) fn put_home<S: Drop>(
    board: &Board<S>,
    chair: &mut Chair<S>,
    place: usize,
    number: u64,
    content: S,
)
    requires table { chair.old.table_id ≡ board.now.table_id }
    requires placed { Placed board.now.table_id.words board.now.key place chair.old.me.0 }
    requires out { IsOut (kept_at chair.old.me.0.kept place)
        × (number ≡ number_at chair.old.me.0 place) × (number < 2 ^ 63)
        × (chair.old.me.1 ≡ (place, None) ∷ rest chair.old.me.1) }
    ensures seat { HasHand chair.old chair.new (rest chair.old.me.1) }
    ensures view { chair.new.me.0
        ≡ kept_as chair.old.me.0 place (Home number content) (found Back place
        (number * 2 + 1) ∷ []) }
{
    drop(board.exchange(chair, place, Some(content)));
    board.swap::<BackPlace>(chair, place, number * 2);
}

/// The empty slot goes home, and the place stays the seat's.
pub(crate) fn lay<S>(board: &Board<S>, chair: &mut Chair<S>, place: usize)
    requires table { chair.old.table_id ≡ board.now.table_id }
    requires placed { Placed board.now.table_id.words board.now.key place chair.old.me.0 }
    requires out { IsOut (kept_at chair.old.me.0.kept place)
        × (chair.old.me.1 ≡ (place, None) ∷ rest chair.old.me.1) }
    ensures seat { HasHand chair.old chair.new (rest chair.old.me.1) }
    ensures view { let number = number_at chair.old.me.0 place in
        chair.new.me.0
        ≡ kept_as chair.old.me.0 place (Lent number) (found Probe place (number * 2 + 1) ∷ []) }
{
    board.load::<LayPlace>(chair, place);
}

/// The empty slot comes into the seat's hand.
pub(crate) fn fetch<S>(board: &Board<S>, chair: &mut Chair<S>, place: usize)
    requires table { chair.old.table_id ≡ board.now.table_id }
    requires placed { Placed board.now.table_id.words board.now.key place chair.old.me.0 }
    requires lent { IsLent (kept_at chair.old.me.0.kept place) }
    ensures seat { HasHand chair.old chair.new ((place, None) ∷ chair.old.me.1) }
    ensures view { let number = number_at chair.old.me.0 place in
        chair.new.me.0
        ≡ kept_as chair.old.me.0 place (Out number) (found Probe place (number * 2 + 1) ∷ []) }
{
    board.load::<FetchPlace>(chair, place);
}

/// The empty slot goes home, and the place is nobody's.
pub(crate) fn clear<S>(board: &Board<S>, chair: &mut Chair<S>, place: usize)
    requires table { chair.old.table_id ≡ board.now.table_id }
    requires placed { Placed board.now.table_id.words board.now.key place chair.old.me.0 }
    requires out { IsOut (kept_at chair.old.me.0.kept place)
        × (chair.old.me.1 ≡ (place, None) ∷ rest chair.old.me.1) }
    ensures seat { HasHand chair.old chair.new (rest chair.old.me.1) }
    ensures view { let number = number_at chair.old.me.0 place in
        chair.new.me.0
        ≡ kept_as chair.old.me.0 place Nothing (found Clear place (number * 2 + 1) ∷ []) }
{
    board.swap::<ClearPlace>(chair, place, 0);
}
