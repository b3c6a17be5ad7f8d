//! Runs the script of standard input as the words of the command line say.
#![tactic(auto)]

ghost use Rattle.std.specs.Prelude.{◌≤◌};

use imm_base::{FreeGate, StdSink, StdSource};
use immrun_core::{Text64, Word, top};
use std::env::{Env, FillError};
use std::process::ExitCode;
use std::str;

/// More than a word of the command line has that is not `Other`.
const WORD_BYTES: usize = 128;

/// More words than a command line has that is served.
const MOST_WORDS: usize = 3;

fn word_of(bytes: &[u8]) -> Word {
    match str::from_utf8(bytes) {
        Ok(text) => match Text64::from_text(text) {
            Some(short) => Word::Short(short),
            None => Word::Other,
        },
        Err(_) => Word::Other,
    }
}

// The first words behind the program's name, and how many there are of them.
fn words(rt: &impl Env) -> ([Word; MOST_WORDS], usize)
    ensures { result.1 ≤ 3 }
{
    let mut words = [Word::Other; MOST_WORDS];
    let mut buffer = [0; WORD_BYTES];
    for count in 0..MOST_WORDS {
        match rt.arg(count + 1, &mut buffer) {
            Ok(size) => words[count] = word_of(&buffer[..size]),
            Err(FillError::TooLong) => (),
            Err(FillError::NotPresent) => return (words, count),
        }
    }
    (words, MOST_WORDS)
}

fn main(rt: HostRuntime) -> ExitCode {
    let (words, count) = words(&rt);
    let status = top(
        &rt,
        rt.alloc(),
        &words[..count],
        &mut StdSource::new(rt.stdin()),
        &mut StdSink::new(rt.stdout()),
        &mut StdSink::new(rt.stderr()),
        &FreeGate,
    );
    ExitCode::from(status.code())
}
