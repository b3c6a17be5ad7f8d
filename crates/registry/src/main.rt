//! A registry of services: they register, move and vanish, while others look them up. Each line of
//! standard input is a command. The lines of a batch are served at once, by threads over one cell.
#![tactic(auto)]

mod command;
mod requests;
mod serving;
#[cfg(test)]
mod tests;

use crate::command::{Command, LineFault, Registry};
use crate::requests::MOST;
use imm_base::{Memory, ValEq};
use std::alloc::{AllocFailed, Global};
use std::process::ExitCode;
use std::sync::Wait;
use std::thread::Threads;
use std::{env, io};
use thiserror::Error;

const HELP: &str = "\
registry: a registry of services, by the lines of standard input

    put NAME ADDRESS   the service has this address from now on
    drop NAME          the service vanishes
    get NAME           the address of the service
    list               each service with its address

Lines that stand together are a batch, which an empty line or the end of the input ends. The lines
of a batch are served at once, eight at a time, each by a thread of its own; their answers are
printed in the order of the lines. A batch begins when the one before it is done.

The status is 0, or 1 where there was no memory or the input or the output failed, or 2 where the
program was called with a word or a line is no command.";

/// Why the program stopped.
#[derive(Debug, Drop, Error)]
enum Failure {
    #[error("line {0}: {1}")]
    Line(usize, LineFault),
    #[error("out of memory")]
    Memory,
    #[error("{0}")]
    Stream(io::Error),
}

impl Failure {
    fn status(&self) -> u8 {
        match self {
            Failure::Line(..) => 2,
            Failure::Memory | Failure::Stream(_) => 1,
        }
    }
}

impl From<Memory> for Failure {
    fn from(_: Memory) -> Failure {
        Failure::Memory
    }
}

impl<T: Drop> From<AllocFailed<T>> for Failure {
    fn from(_: AllocFailed<T>) -> Failure {
        Failure::Memory
    }
}

impl From<io::Error> for Failure {
    fn from(error: io::Error) -> Failure {
        Failure::Stream(error)
    }
}

/// Serves the lines of a batch, and prints their answers.
fn serve_batch<R: Threads + Wait + Sync + Print>(
    rt: &R,
    alloc: Global,
    mut registry: Registry,
    batch: &[Command],
) -> Result<Registry, Failure> {
    for commands in batch.chunks(MOST) {
        let (last, answers) = serving::serve(rt, alloc, registry, commands)?;
        for answer in answers {
            println!(rt; "{answer}")?;
        }
        registry = last;
    }
    Ok(registry)
}

/// Serves all lines of the input.
fn run<R: Threads + Wait + Sync + Print + Input>(rt: &R, alloc: Global) -> Result<(), Failure> {
    let mut registry = Registry::new(ValEq::Ordinal);
    let mut batch = Vec::new(alloc);
    for (index, line) in rt.lines(alloc).enumerate() {
        let line = line?;
        let text = line.as_str().trim();
        if text.is_empty() {
            registry = serve_batch(rt, alloc, registry, batch.as_slice())?;
            batch.clear();
            continue;
        }
        match Command::parse(text) {
            Ok(command) => batch.push(command)?,
            Err(fault) => return Err(Failure::Line(index + 1, fault)),
        }
    }
    serve_batch(rt, alloc, registry, batch.as_slice())?;
    Ok(())
}

fn main(rt: HostRuntime) -> io::Result<ExitCode> {
    match env::args(&rt)?.nth(1) {
        Some(word) if word.as_str() == "--help" => {
            println!(&rt; "{HELP}")?;
            return Ok(ExitCode::SUCCESS);
        }
        Some(word) => {
            eprintln!(&rt; "registry: there is no word {word}; --help shows how to call it")?;
            return Ok(ExitCode::from(2));
        }
        None => {}
    }
    match run(&rt, rt.alloc()) {
        Ok(()) => Ok(ExitCode::SUCCESS),
        Err(failure) => {
            eprintln!(&rt; "registry: {failure}")?;
            Ok(ExitCode::from(failure.status()))
        }
    }
}
