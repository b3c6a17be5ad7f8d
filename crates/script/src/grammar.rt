//! Bytes as a script, line by line.

ghost use Rattle.std.specs.Prelude.{◌≡◌, ◌≤◌, length, IfOk};
ghost use Rattle.script.specs.Grammar.{read_script, Answers};
ghost use Rattle.script.specs.Ready.{IsReady};

use crate::fault::{ParseError, ParseFault};
use crate::lines::first_line;
use crate::parser::Parser;
use imm_base::Memory;
use plain_model::{INPUT_LIMIT, Script};
use std::alloc::Global;

/// The script that the bytes are, or the least refused line with the least code on it.
fn read_text(alloc: Global, bytes: &[u8]) -> Result<Result<Script, ParseFault>, Memory>
    requires { length bytes.now ≤ INPUT_LIMIT }
    ensures { IfOk result (λ read. read ≡ read_script bytes.now) }
{
    let mut parser = Parser::new(alloc);
    let mut rest = bytes;
    let mut number = 1u32;
    loop {
        let (line, others) = first_line(rest);
        let is_last = others.is_empty();
        match parser.read_line(alloc, is_last, line)? {
            Err(code) => {
                return Ok(Err(ParseFault {
                    line: number,
                    code: code.rank(),
                }));
            }
            Ok(()) => {
                if is_last {
                    return Ok(Ok(parser.into_script()));
                }
                rest = others;
                number += 1;
            }
        }
    }
}

/// The script that the bytes are, in O(n) for n bytes but for the first contents of cells, which are
/// made to be counted.
///
/// `Fault` comes exactly where the bytes are none, with the least line that is refused and the least
/// code on it. `Memory` is want of memory; no clause says when that is.
pub fn parse(alloc: Global, bytes: &[u8]) -> Result<Script, ParseError>
    requires { length bytes.now ≤ INPUT_LIMIT }
    ensures exact { Answers result (read_script bytes.now) }
    ensures sound { IfOk result (λ script. IsReady script) }
{
    match read_text(alloc, bytes)? {
        Ok(script) => Ok(script),
        Err(fault) => Err(ParseError::Fault(fault)),
    }
}
