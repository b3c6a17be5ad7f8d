//! One user of a shared pool, and a content that was lent to it.
ghost use Rattle.std.specs.Prelude.{◌≡◌, ◌≢◌, ◌^◌, ◌<◌, ◌≤◌, [], length};
ghost use Rattle.stack_pool.specs.declared.TheConstants.{MOST_TAKINGS, PLACES, STRIDE};
ghost use Rattle.stack_pool.specs.Views.{kept_count};

use crate::fault::Owner;
use crate::rule::Chair;

/// One user of a shared pool. It may go from thread to thread.
#[derive(Drop)]
pub struct PoolSeat<S> {
    pub(crate) number: u64,
    pub(crate) takings: u64,
    pub(crate) owned: u32,
    pub chair: Chair<S>,
    ghost numbered: { (chair.me.0.number ≡ number) × (number < STRIDE) },
    ghost known: { (chair.me.0.takings ≡ takings) × (takings ≤ MOST_TAKINGS) },
    ghost few: { (kept_count chair.me.0.kept ≡ owned) × (owned ≤ PLACES) },
    ghost empty_hand: { chair.me.1 ≡ [] },
    ghost long: { length chair.me.0.kept ≡ chair.table_id.words },
}

/// A content that is lent. It has to be given to `release`, so it cannot be dropped.
pub struct Held<S> {
    pub(crate) owner: Owner,
    pub(crate) content: S,
    ghost numbered: { (owner.number ≢ 0) × (owner.number < 2 ^ 63) },
}
