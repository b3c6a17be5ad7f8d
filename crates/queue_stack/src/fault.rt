ghost use Rattle.std.specs.Prelude.{◌≡◌};

use imm_base::{Fault, Memory, Refused};

/// Why a call of a stack or a queue is refused. The numbers of the refusals are 1 and 2, in this order.
#[derive(Clone, Copy, Debug, PartialEq, Eq)]
pub enum EndFault {
    /// There is no element.
    Empty,
    /// The result would have more than `LIMIT` elements, where there are `count`.
    TooLarge { count: u32 },
    Memory,
}

impl From<Memory> for EndFault {
    ghost use Rattle.queue_stack.specs.declared.fault.EndFault.{EndFault};

    ghost from_gives = { λ _ fault. fault ≡ EndFault.Memory };

    fn from(_: Memory) -> EndFault {
        EndFault::Memory
    }
}

impl<T> Fault<T> for EndFault {
    ghost use Rattle.queue_stack.specs.Answers.{end_why};

    ghost why = { end_why };

    fn refused(self) -> Option<Refused<T>> {
        match self {
            EndFault::Empty => Some(Refused::Empty),
            EndFault::TooLarge { count } => Some(Refused::TooLarge { count }),
            EndFault::Memory => None,
        }
    }
}
