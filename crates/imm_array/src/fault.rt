ghost use Rattle.std.specs.Prelude.{◌≡◌};

use imm_base::{Fault, Memory, Refused};

/// Why a call of an array or of its builder is refused. The numbers of the refusals are 1 to 5, in this
/// order.
#[derive(Clone, Copy, Debug, PartialEq, Eq)]
pub enum ArrayFault {
    /// The index is past the last place that the call may name.
    OutOfRange { index: u32, count: u32 },
    /// No element is equal to the one that was to be replaced.
    NotFound,
    /// The result would have more than `LIMIT` elements, where there are `count`.
    TooLarge { count: u32 },
    /// A builder whose count is not its capacity can't be moved out.
    NotFull { count: u32, capacity: u32 },
    /// The capacity that is wanted is below the count.
    CapacityTooSmall { count: u32, wanted: u32 },
    Memory,
}

impl From<Memory> for ArrayFault {
    ghost use Rattle.imm_array.specs.declared.fault.ArrayFault.{ArrayFault};

    ghost from_gives = { λ _ fault. fault ≡ ArrayFault.Memory };

    fn from(_: Memory) -> ArrayFault {
        ArrayFault::Memory
    }
}

/// The two refusals of capacities tell nothing here: no operation of an array is refused by them.
impl<T> Fault<T> for ArrayFault {
    ghost use Rattle.imm_array.specs.Answers.{array_why};

    ghost why = { array_why };

    fn refused(self) -> Option<Refused<T>> {
        match self {
            ArrayFault::OutOfRange { index, count } => Some(Refused::OutOfRange { index, count }),
            ArrayFault::NotFound => Some(Refused::NotFound),
            ArrayFault::TooLarge { count } => Some(Refused::TooLarge { count }),
            ArrayFault::NotFull { .. } | ArrayFault::CapacityTooSmall { .. } | ArrayFault::Memory =>
                None,
        }
    }
}
