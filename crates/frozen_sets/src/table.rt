// The table by which keys are found.
ghost use Rattle.std.specs.Prelude.{◌≡◌, ◌≤◌, ◌<◌, ◌+◌, ◌^◌, Bool, length, position, true, IfOk};
ghost use Rattle.imm_base.specs.Order.{eq_same};
ghost use Rattle.frozen_sets.specs.Codes.{bucket_of};
ghost use Rattle.frozen_sets.specs.Table.{AreLinked};

use crate::buckets::Buckets;
use imm_base::{HashEq, Memory, Val};
use std::alloc::Global;

// The first place of each bucket, and of each place the next one of its bucket. The count stands
// where there is none.
#[derive(Drop)]
pub(crate) struct Table {
    pub(crate) firsts: Vec<u32>,
    pub(crate) nexts: Vec<u32>,
}

impl Table {
    // The table of these keys.
    pub(crate) fn new(alloc: Global, keys: &[Val], buckets: &Buckets) -> Result<Table, Memory>
        requires few { length keys.now < 2 ^ 31 }
        requires mask { buckets.now.mask < 2 ^ 33 }
        ensures linked { IfOk result (λ t. AreLinked (bucket_of buckets.now) 0 keys.now
            t.firsts.items t.nexts.items) }
        ensures size { IfOk result (λ t. length t.firsts.items ≡ buckets.now.mask + 1) }
    {
        let count = keys.len();
        let mut firsts = vec![in alloc; count as u32; buckets.mask + 1]?;
        let mut nexts = vec![in alloc; count as u32; count]?;
        for place in (0..count).rev() {
            let bucket = buckets.bucket(&keys[place]);
            nexts[place] = firsts[bucket];
            firsts[bucket] = place as u32;
        }
        Ok(Table { firsts, nexts })
    }

    // The place of the first key that is same.
    pub(crate) fn place_of(&self, keys: &[Val], buckets: &Buckets, key: &Val) -> Option<usize>
        requires linked { AreLinked (bucket_of buckets.now) 0 keys.now self.now.firsts.items
            self.now.nexts.items }
        requires size { length self.now.firsts.items ≡ buckets.now.mask + 1 }
        requires alike { (x : Val) → eq_same buckets.now.eq key.now x ≡ true
            → bucket_of buckets.now x ≡ bucket_of buckets.now key.now }
        ensures { result ≡ position (eq_same buckets.now.eq key.now) keys.now }
    {
        let mut place = self.firsts[buckets.bucket(key)] as usize;
        while place < keys.len() {
            if buckets.eq.same(key, &keys[place]) {
                return Some(place);
            }
            place = self.nexts[place] as usize;
        }
        None
    }
}
