//! Many calls of eight workers on one cell.
use crate::tests::run_on;
use imm_base::{FreeGate, MemSource};
use immrun_core::Status;
use std::alloc::{AllocError, Global};
use std::test::Fail;

// The calls of each worker.
const EACH: u32 = 500;

// The value of a push says whose it is, in thousands, and the ordinal of its command. The remainders
// are those numbers themselves, and bound the sum.
fn value_of(worker: u32, ordinal: u32) -> u32 {
    1000 * (worker % 9) + ordinal % 1000
}

fn put_part(text: &mut String, worker: u32) -> Result<(), AllocError> {
    write!(text, "worker\n")?;
    for ordinal in 1..EACH + 1 {
        let value = value_of(worker, ordinal);
        write!(text, "push S {value}\n")?;
    }
    write!(text, "end\n")
}

fn script(alloc: Global) -> Result<Vec<u8>, AllocError> {
    let mut text = String::new(alloc);
    write!(text, "immrun 1\ncell S stack\n")?;
    for worker in 1..9 {
        put_part(&mut text, worker)?;
    }
    Ok(text.into_bytes())
}

// The line of the next push of a worker, at a position.
fn line_of(alloc: Global, position: u32, worker: u32, ordinal: u32) -> Result<String, AllocError> {
    let value = value_of(worker, ordinal);
    let mut text = String::new(alloc);
    write!(text, "{position} {worker}.{ordinal} + push {value} -> true")?;
    Ok(text)
}

// The place of the worker of a line of the history, whose number stands behind the position.
fn place_of(line: &[u8]) -> Option<usize> {
    let space = line.iter().position(|byte| *byte == b' ')?;
    let digit = *line.get(space + 1)?;
    match digit {
        b'1'..=b'8' => Some((digit - b'1') as usize),
        _ => None,
    }
}

// Judges a history, line by line: each is the next push of its worker.
fn is_legal(alloc: Global, report: &[u8]) -> Result<bool, Fail> {
    let mut pushed = [0u32; 8];
    let mut position = 0u32;
    for line in report.split(|byte| *byte == b'\n').skip(4).take(4000) {
        let place = place_of(line).unwrap_or(8);
        let Some(count) = pushed.get_mut(place) else {
            return Ok(false);
        };
        *count = count.wrapping_add(1);
        position = position.wrapping_add(1);
        let worker = (place as u32).wrapping_add(1);
        let wanted = line_of(alloc, position, worker, *count)?;
        if wanted.as_bytes() != line {
            return Ok(false);
        }
    }
    Ok(position == 4000 && pushed.iter().all(|count| *count == EACH))
}

#[test]
fn four_thousand_pushes_of_eight_workers_stand_in_one_history(rt: HostRuntime) -> Result<(), Fail> {
    let alloc = rt.alloc();
    let source = MemSource::new(script(alloc)?, Vec::new(alloc));
    let ran = run_on(
        &rt,
        alloc,
        &["run", "8"],
        source,
        1_000_000,
        1000,
        &FreeGate,
    )?;
    assert!(rt; ran.status == Status::Done);
    assert!(rt; is_legal(alloc, ran.wrote.bytes())?);
    Ok(())
}
