//! Why a script is refused.

ghost use Rattle.std.specs.Prelude.{◌≡◌};
ghost use Rattle.script.specs.declared.fault.ParseError.TheVariants.{Memory as OfMemory};

use imm_base::Memory;

/// The line that is refused, counted from 1, and the code of what is wrong with it, from 1 to 7.
#[derive(Clone, Copy, Debug, PartialEq, Eq)]
pub struct ParseFault {
    pub line: u32,
    pub code: u8,
}

#[derive(Clone, Copy, Debug, PartialEq, Eq)]
pub enum ParseError {
    /// The bytes are not a script.
    Fault(ParseFault),
    /// Want of memory.
    Memory,
}

impl From<Memory> for ParseError {
    ghost from_gives = { λ _ e. e ≡ OfMemory };

    fn from(_: Memory) -> Self {
        ParseError::Memory
    }
}
