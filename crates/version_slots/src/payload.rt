//! What a cell of versions keeps.
ghost use Rattle.std.specs.Prelude.{◌≡◌, ℕ, ◌+◌, IfOk};

use imm_base::Memory;

/// What a cell keeps. It has a plain value, which histories hold; a plain value has a position, and may follow another one.
pub trait Payload: Drop {
    type Plain;

    ghost plain: { Self → Self.Plain };

    ghost position_of: { Self.Plain → ℕ };

    // The pass with this number may install the second value on the first.
    ghost follows: { ℕ → Self.Plain → Self.Plain → Type 0 };

    /// 0 at the value that a cell begins with, and one more at each that follows.
    fn position(&self) -> u64
        ensures { result ≡ position_of (plain self.now) };

    /// A payload with the same plain value. No clause says when there is no memory for it.
    fn share(&self) -> Result<Self, Memory>
        ensures { IfOk result (λ r. plain r ≡ plain self.now) };

    ghost rises: { (number : ℕ) (old new : Self.Plain) → follows number old new → position_of new ≡ position_of old + 1 };
}
