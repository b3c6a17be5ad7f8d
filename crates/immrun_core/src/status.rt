ghost use Rattle.std.specs.Prelude.{◌≡◌};
ghost use Rattle.immrun_core.specs.declared.status.Status.TheVariants.{Memory as OfMemory};
ghost use Rattle.immrun_core.specs.Status.{exit_code};

use imm_base::Memory;

/// How a call of `top` ended.
#[derive(Clone, Copy, Debug, PartialEq, Eq)]
pub enum Status {
    /// The whole report was written.
    Done,
    /// The words are none that the program knows.
    Usage,
    /// The input is no script: its first line that is refused, counted from 1, and the least reason.
    Refused { line: u32, code: u8 },
    /// The source failed.
    ReadFault,
    /// The sink failed, or took nothing more, before it had taken the whole report.
    WriteFault,
    /// Memory ran out.
    Memory,
    /// The input has more bytes than a script may have.
    TooLong,
}

impl Status {
    /// The exit status of the process.
    pub fn code(&self) -> u8
        ensures { result ≡ exit_code self.now }
    {
        match self {
            Status::Done => 0,
            Status::Usage => 2,
            Status::Refused { .. } => 3,
            Status::ReadFault => 4,
            Status::WriteFault => 5,
            Status::Memory => 6,
            Status::TooLong => 7,
        }
    }
}

impl From<Memory> for Status {
    ghost from_gives = { λ _ status. status ≡ OfMemory };

    fn from(_: Memory) -> Self {
        Status::Memory
    }
}
