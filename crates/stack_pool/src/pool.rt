//! A pool for one thread.
ghost use Rattle.std.specs.Prelude.{◌≡◌, ◌≢◌, ◌↔◌, ◌<◌, ◌≤◌, length, Some, None, IfOk, IfErr, IsErr, MatchResult};
ghost use Rattle.std.specs.Borrow.{sem};
ghost use Rattle.stack_pool.specs.Pools.{new_pool, holder_of, content_of, refusal, first_free, freed, IsTakenFrom};
ghost use Rattle.stack_pool.specs.PoolLends.{lends_content, lends_if_owned};

use crate::fault::{Owner, PoolFault, TakeFault};
use crate::place::Place;
use crate::{MOST_TAKINGS, PLACES, STRIDE};
use imm_base::Memory;
use std::alloc::Global;
use std::marker::Model;
use std::mem;

/// 35 places for one thread. A handle on one ends when it is given back, and so do its copies.
///
/// No call but `make` takes memory. `take` costs O(1), since a pool has 35 places at most; so do
/// the others.
#[derive(Drop)]
pub struct Pool<S> {
    places: Vec<Place<S>>,
    takings: u64,
}

impl<S> Model for Pool<S> {
    ghost use Rattle.stack_pool.specs.Pools.{Pool as Places};

    ghost Value = { Places S };

    ghost use Rattle.stack_pool.specs.Pools.{IsPool};

    ghost view = { λ p. record { places = p.places.items; takings = p.takings } };

    ghost invariant = { λ p. IsPool p.places.items p.takings };
}

impl<S: Drop> Pool<S> {
    /// A pool of free places.
    pub fn make(alloc: Global) -> Result<Pool<S>, Memory>
        ensures { IfOk result (λ p. p ≡ new_pool) }
    {
        let mut places = Vec::with_capacity(alloc, PLACES as usize)?;
        for place in 0..PLACES {
            let _ = place;
            places.push(Place::Free)?;
        }
        Ok(Pool { places, takings: 0 })
    }

    /// Fills the lowest free place. Refused where no number is left, and else where no place is
    /// free; the content comes back then.
    pub fn take(&mut self, rest: S) -> Result<Owner, TakeFault<S>>
        ensures ok { IfOk result (λ o. IsTakenFrom self.old self.new rest o) }
        ensures err { IfErr result (λ e. (refusal self.old ≡ Some e.fault) × (e.rest ≡ rest)
            × (self.new ≡ self.old)) }
        ensures places { length self.old.places ≡ PLACES }
    {
        if self.takings == MOST_TAKINGS {
            return Err(TakeFault {
                fault: PoolFault::NoNumber,
                rest,
            });
        }
        let place = self.first_free();
        if place == PLACES {
            return Err(TakeFault {
                fault: PoolFault::PoolFull,
                rest,
            });
        }
        self.takings += 1;
        let number = STRIDE * self.takings;
        self.places[place as usize] = Place::Owned(number, rest);
        Ok(Owner { number, place })
    }

    fn first_free(&self) -> u32
        ensures bound { result ≤ PLACES }
        ensures lowest { result ≡ first_free self.now }
    {
        let mut place = 0;
        while place < PLACES && self.places[place as usize].is_owned() {
            place += 1;
        }
        place
    }

    /// The content of the handle's place. Refused as `Disposed` where the place is not the
    /// handle's.
    pub fn with(&mut self, owner: Owner) -> Result<&mut S, PoolFault>
        ensures* writes_back { sem 𝓛 (lends_if_owned S.row self.entry owner.place result) }
        ensures ok { IfOk result (λ content. content_of self.old owner.place ≡ Some content.now) }
        ensures err { IfErr result (λ e. e ≡ PoolFault.Disposed (holder_of self.old owner.place)) }
        ensures disposed { IsErr result ↔ (holder_of self.old owner.place ≢ Some owner.number) }
    {
        self.check_owner(owner)?;
        Ok(self.content_mut(owner.place))
    }

    fn content_mut(&mut self, place: u32) -> &mut S
        requires { holder_of self.old place ≢ None }
        ensures* writes_back { sem 𝓛 (lends_content S.row self.entry place result) }
        ensures value { content_of self.old place ≡ Some result.now }
    {
        self.places[place as usize].content_mut()
    }

    /// Makes the handle's place free, and hands its content out. Refused as `Disposed` where the
    /// place is not the handle's.
    pub fn give_back(&mut self, owner: Owner) -> Result<S, PoolFault>
        ensures ok { IfOk result (λ content. (content_of self.old owner.place ≡ Some content)
            × (self.new ≡ freed self.old owner.place)) }
        ensures err { IfErr result (λ e. (e ≡ PoolFault.Disposed (holder_of self.old owner.place))
            × (self.new ≡ self.old)) }
        ensures disposed { IsErr result ↔ (holder_of self.old owner.place ≢ Some owner.number) }
    {
        self.check_owner(owner)?;
        match mem::replace(&mut self.places[owner.place as usize], Place::Free) {
            Place::Owned(_, content) => Ok(content),
            Place::Free => unreachable!(),
        }
    }

    // Whether the place is the handle's.
    fn check_owner(&self, owner: Owner) -> Result<(), PoolFault>
        ensures { MatchResult result (λ _. holder_of self.now owner.place ≡ Some owner.number)
            (λ e. (holder_of self.now owner.place ≢ Some owner.number)
            × (e ≡ PoolFault.Disposed (holder_of self.now owner.place))) }
    {
        let holder = self.holder_at(owner.place);
        if holder == Some(owner.number) {
            Ok(())
        } else {
            Err(PoolFault::Disposed { holder })
        }
    }

    /// The number that owns the place, if one does.
    pub fn holder(&self, place: u32) -> Option<u64>
        requires { place < PLACES }
        ensures { result ≡ holder_of self.now place }
    {
        self.holder_at(place)
    }

    fn holder_at(&self, place: u32) -> Option<u64>
        ensures { result ≡ holder_of self.now place }
    {
        match self.places.get(place as usize) {
            Some(place) => place.owner(),
            None => None,
        }
    }
}
