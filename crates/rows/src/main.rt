//! Runs the rows of standard input, one after another, and writes what the program writes for each.
//!
//! A row is a line `%% NAME WORDS`, and then the script; the words are those of the command line.
//! Under the row's line stand the report, the fault line, and the exit status.
#![tactic(auto)]

use anyhow::{Result, anyhow};
use imm_base::{FreeGate, PureSink, PureSource, Source};
use immrun_core::{Text64, Word, top};
use std::alloc::Global;
use std::io::{self, Read, Write};
use std::sync::Wait;
use std::thread::Threads;

/// What each row begins with.
const MARK: &str = "%% ";

/// More bytes than a row writes.
const ROOM: u64 = 1 << 20;

// The words of a command line.
fn words_of(alloc: Global, line: &str) -> Result<Vec<Word>> {
    let mut words = Vec::new(alloc);
    for text in line.split_whitespace().skip(1) {
        words.push(match Text64::from_text(text) {
            Some(short) => Word::Short(short),
            None => Word::Other,
        })?;
    }
    Ok(words)
}

// Runs the script of one row.
fn run_row<R: Threads + Wait + Sync>(
    rt: &R,
    alloc: Global,
    line: &str,
    script: &[u8],
    out: &mut impl Write,
) -> Result<()> {
    let mut source = PureSource::new(Vec::from_slice(alloc, script)?);
    let mut sink = PureSink::new(alloc);
    sink.reserve(ROOM).map_err(|_| anyhow!("memory"))?;
    let mut faults = PureSink::new(alloc);
    faults.reserve(ROOM).map_err(|_| anyhow!("memory"))?;
    let words = words_of(alloc, line)?;
    let status = top(
        rt,
        alloc,
        &words,
        &mut source,
        &mut sink,
        &mut faults,
        &FreeGate,
    );
    let code = status.code();
    writeln!(out, "%% {line}")?;
    out.write_all(sink.bytes())?;
    out.write_all(faults.bytes())?;
    writeln!(out, "status {code}")?;
    Ok(())
}

fn main(rt: HostRuntime) -> Result<()> {
    let alloc = rt.alloc();
    let input = io::read_to_string(alloc, rt.stdin())?;
    let mut out = io::writer(&rt);
    for row in input.as_str().split(MARK).skip(1) {
        match row.split_once('\n') {
            Some((line, script)) => run_row(&rt, alloc, line, script.as_bytes(), &mut out)?,
            None => run_row(&rt, alloc, row, b"", &mut out)?,
        }
    }
    Ok(())
}
