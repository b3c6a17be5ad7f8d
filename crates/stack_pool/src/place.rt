//! One place of a pool.
ghost use Rattle.std.specs.Prelude.{◌≡◌, Some, None, true};
ghost use Rattle.std.specs.Borrow.{sem, Lends};
ghost use Rattle.stack_pool.specs.Places.{owner_of, content_in, is_owned, refilled};

/// Nobody's, or a number's with its content.
#[derive(Drop)]
pub enum Place<S> {
    Free,
    Owned(u64, S),
}

impl<S> Place<S> {
    ghost use Rattle.stack_pool.specs.contracts.place.Place.{the_row};

    pub fn owner(&self) -> Option<u64>
        ensures { result ≡ owner_of self.now }
    {
        match self {
            Place::Free => None,
            Place::Owned(number, _) => Some(*number),
        }
    }

    pub fn is_owned(&self) -> bool
        ensures { result ≡ is_owned self.now }
    {
        match self {
            Place::Free => false,
            Place::Owned(..) => true,
        }
    }

    pub(crate) fn content_mut(&mut self) -> &mut S
        requires { is_owned self.old ≡ true }
        ensures* writes_back { sem 𝓛 (Lends (the_row S.row) S.row self.entry result (refilled self.entry.now)) }
        ensures value { content_in self.old ≡ Some result.now }
    {
        match self {
            Place::Free => unreachable!(),
            Place::Owned(_, content) => content,
        }
    }
}
