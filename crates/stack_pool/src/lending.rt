//! A content while it is lent.
ghost use Rattle.std.specs.Prelude.{◌≡◌};
ghost use Rattle.std.specs.Borrow.{sem};
ghost use Rattle.stack_pool.specs.HeldLends.{lends_held};

use crate::seat::Held;

impl<S> Held<S> {
    /// The content that is lent, to read.
    pub fn content(&self) -> &S
        ensures { result.now ≡ self.now.content }
    {
        &self.content
    }

    /// The content that is lent, to change.
    pub fn content_mut(&mut self) -> &mut S
        ensures* writes_back { sem 𝓛 (lends_held S.row self.entry result) }
        ensures value { result.now ≡ self.old.content }
    {
        &mut self.content
    }
}
