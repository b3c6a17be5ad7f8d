//! A source is read to its end, and texts are written whole.
ghost use Rattle.std.specs.Prelude.{◌≤◌, flat_map};
ghost use Rattle.immrun_core.specs.Outside.{ReadEnd, WriteEnd, source_ends, sink_ends};

use imm_base::{Failed, Sink, Source};
use std::alloc::Global;

/// The most bytes of a script.
const MAX_INPUT: usize = 1_048_576;

/// How many bytes are asked for at once.
const CHUNK: usize = 4096;

/// Why a source was not read to its end.
#[derive(Clone, Copy, Debug, PartialEq, Eq)]
pub enum ReadStop {
    Fault,
    TooLong,
    Memory,
}

/// The bytes of a source up to its end.
pub fn read_all<Q: Source>(alloc: Global, source: &mut Q) -> Result<Vec<u8>, ReadStop>
    ensures read { ReadEnd (source_ends Q.left Q.faults source.old source.new) result }
    ensures later { Q.faults source.old ≤ Q.faults source.new }
{
    let mut input = Vec::new(alloc);
    let mut chunk = [0; CHUNK];
    'reading: while input.len() <= MAX_INPUT {
        let want = CHUNK.min(MAX_INPUT + 1 - input.len());
        match source.read(&mut chunk[..want]) {
            Ok(0) => return Ok(input),
            Ok(count) => {
                if input.extend_from_slice(&chunk[..count]).is_err() {
                    return Err(ReadStop::Memory);
                }
            }
            Err(Failed) => return Err(ReadStop::Fault),
        }
    }
    Err(ReadStop::TooLong)
}

/// Writes all of a text.
pub fn write_all<S: Sink>(sink: &mut S, text: &[u8]) -> Result<(), Failed>
    ensures write { WriteEnd (sink_ends S.taken S.faults sink.old sink.new) text.now result }
    ensures later { S.faults sink.old ≤ S.faults sink.new }
{
    let mut at = 0;
    'writing: while at < text.len() {
        match sink.write(&text[at..]) {
            Ok(0) | Err(Failed) => return Err(Failed),
            Ok(count) => at += count,
        }
    }
    Ok(())
}

/// Writes some texts, one behind the other.
pub fn write_pieces<S: Sink>(sink: &mut S, pieces: &[&[u8]]) -> Result<(), Failed>
    ensures write { WriteEnd (sink_ends S.taken S.faults sink.old sink.new) (flat_map (λ piece. piece.now) pieces.now) result }
    ensures later { S.faults sink.old ≤ S.faults sink.new }
{
    for piece in pieces {
        write_all(sink, piece)?;
    }
    Ok(())
}
