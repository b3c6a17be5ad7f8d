//! The line that the sink of faults is told. It takes no memory.
ghost use Rattle.std.specs.Prelude.{◌≡◌};
ghost use Rattle.immrun_core.specs.declared.status.Status.TheVariants.{Refused};
ghost use Rattle.immrun_core.specs.Outside.{WriteEnd, sink_ends};
ghost use Rattle.immrun_core.specs.Status.{fault_line, reason};
ghost use Rattle.immrun_core.specs.Top.{Told};

use crate::digits::{MAX_DIGITS, digits_from, write_digits};
use crate::status::Status;
use crate::streams::{write_all, write_pieces};
use imm_base::{Failed, Sink};

fn reason(code: u8) -> &'static [u8]
    ensures { result.now ≡ reason code }
{
    match code {
        1 => b"header",
        2 => b"word",
        3 => b"value",
        4 => b"name",
        5 => b"kind",
        6 => b"structure",
        7 => b"limit",
        _ => b"form",
    }
}

fn write_refusal<E: Sink>(faults: &mut E, line: u32, code: u8) -> Result<(), Failed>
    ensures { WriteEnd (sink_ends E.taken E.faults faults.old faults.new) (fault_line (Refused line code)) result }
{
    let mut line_digits = [0; MAX_DIGITS];
    let mut code_digits = [0; MAX_DIGITS];
    let line_start = write_digits(line, &mut line_digits);
    let code_start = write_digits(u32::from(code), &mut code_digits);
    let pieces: [&[u8]; 7] = [
        b"refused line ",
        digits_from(&line_digits, line_start),
        b": ",
        digits_from(&code_digits, code_start),
        b" ",
        reason(code),
        b"\n",
    ];
    write_pieces(faults, &pieces)
}

fn write_line<E: Sink>(faults: &mut E, status: Status) -> Result<(), Failed>
    ensures { WriteEnd (sink_ends E.taken E.faults faults.old faults.new) (fault_line status) result }
{
    match status {
        Status::Done => Ok(()),
        Status::Usage => write_all(faults, b"usage: immrun run N | check | gen N\n"),
        Status::Refused { line, code } => write_refusal(faults, line, code),
        Status::ReadFault => write_all(faults, b"read fault\n"),
        Status::WriteFault => write_all(faults, b"write fault\n"),
        Status::Memory => write_all(faults, b"memory\n"),
        Status::TooLong => write_all(faults, b"input longer than 1048576 bytes\n"),
    }
}

/// Tells a sink how a call ended, where not all was done. That this sink fails changes nothing.
pub fn report_status<E: Sink>(faults: &mut E, status: Status)
    ensures { Told (sink_ends E.taken E.faults faults.old faults.new) status }
{
    match status {
        Status::Done => (),
        _ => {
            let _ = write_line(faults, status);
        }
    }
}
