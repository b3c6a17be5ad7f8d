//! Lets threads call one cell, and prints what the cell ends with. With the word `push`, `update` or
//! `read` it makes many more of these calls, and prints how many thousands of them were made in a second.
#![tactic(auto)]

mod work;

ghost use Rattle.std.specs.Prelude.{◌<◌, ◌≤◌};

use crate::work::{Plan, run};
use imm_base::{Edit, MapFault, Memory, Val, ValEq};
use imm_dictionary::Dict;
use interlocked::{DictCall, StackCall};
use plain_model::Transform;
use queue_stack::ImmStack;
use std::alloc::Global;
use std::sync::Wait;
use std::thread::Threads;
use std::time::Clock;
use std::{env, io};

type Map = Dict<Val, Val, ValEq>;

/// How many keys the dictionary has.
const KEYS: u32 = 1_000;

/// How much is done.
#[derive(Drop)]
struct Scale {
    is_timed: bool,
    /// How many stacks are made, and how many values each gets.
    stacks: u32,
    pushes: u32,
    /// How often each key is updated.
    updates: u32,
    /// How often each reader reads.
    reads: u32,
}

const SHORT: Scale = Scale {
    is_timed: false,
    stacks: 1,
    pushes: 4_000,
    updates: 4,
    reads: 1_000,
};

const LONG: Scale = Scale {
    is_timed: true,
    stacks: 40,
    pushes: 60_000,
    updates: 1_000,
    reads: 2_000_000,
};

/// How many calls were made, what the cell ends with, and how long it took.
#[derive(Drop)]
struct Done {
    calls: u64,
    sum: i64,
    nanos: u64,
}

/// Threads push ones on stacks. The sum is that of their counts.
fn push<R: Threads + Wait + Sync + Clock>(
    rt: &R,
    alloc: Global,
    threads: u32,
    scale: &Scale,
) -> Result<Done, Memory>
    requires { (0 < threads) × (threads ≤ 8) }
{
    let calls = [StackCall::Push { value: Val::Int(1) }];
    let plan = Plan {
        writers: 8,
        calls: &calls,
        rounds: scale.pushes / threads,
        reads: 0,
    };
    let mut done = Done {
        calls: 0,
        sum: 0,
        nanos: 0,
    };
    for _ in 0..scale.stacks {
        let (closed, nanos) = run(rt, alloc, threads, ImmStack::new(), &plan)?;
        done.calls = done.calls.saturating_add(u64::from(scale.pushes));
        done.sum = done.sum.saturating_add(i64::from(closed.value().count()));
        done.nanos = done.nanos.saturating_add(nanos);
    }
    Ok(done)
}

/// A dictionary with each key at 0.
fn zeros(alloc: Global) -> Result<Map, MapFault<Val>> {
    let mut map = Dict::new(ValEq::Ordinal);
    for key in 0..KEYS {
        if let Edit::New(longer) = map.add(alloc, Val::Int(i64::from(key)), Val::Int(0))? {
            map = longer;
        }
    }
    Ok(map)
}

fn sum_of(map: &Map) -> i64 {
    let mut sum = 0i64;
    for key in 0..KEYS {
        if let Some(Val::Int(number)) = map.get(&Val::Int(i64::from(key))) {
            sum = sum.saturating_add(*number);
        }
    }
    sum
}

/// The calls that add 1 to each key.
fn updates(alloc: Global) -> Result<Vec<DictCall>, Memory> {
    let calls = (0..KEYS)
        .map(|key| DictCall::AddOrUpdate {
            key: Val::Int(i64::from(key)),
            value: Val::Int(1),
            transform: Transform::Plus(1),
        })
        .collect(alloc)?;
    Ok(calls)
}

/// Threads add 1 to each key of a dictionary. The sum is that of its values.
fn update<R: Threads + Wait + Sync + Clock>(
    rt: &R,
    alloc: Global,
    threads: u32,
    scale: &Scale,
) -> Result<Done, Memory>
    requires { (0 < threads) × (threads ≤ 8) }
{
    let Ok(first) = zeros(alloc) else {
        return Err(Memory);
    };
    let calls = updates(alloc)?;
    let plan = Plan {
        writers: 8,
        calls: calls.as_slice(),
        rounds: scale.updates / threads,
        reads: 0,
    };
    let (closed, nanos) = run(rt, alloc, threads, first, &plan)?;
    Ok(Done {
        calls: u64::from(scale.updates).saturating_mul(u64::from(KEYS)),
        sum: sum_of(closed.value()),
        nanos,
    })
}

/// Three threads read a dictionary while one adds 1 to each key. The calls are the reads, and the sum is
/// that of the values.
fn read<R: Threads + Wait + Sync + Clock>(
    rt: &R,
    alloc: Global,
    scale: &Scale,
) -> Result<Done, Memory> {
    let Ok(first) = zeros(alloc) else {
        return Err(Memory);
    };
    let calls = updates(alloc)?;
    let plan = Plan {
        writers: 1,
        calls: calls.as_slice(),
        rounds: scale.updates / 4,
        reads: scale.reads,
    };
    let (closed, nanos) = run(rt, alloc, 4, first, &plan)?;
    Ok(Done {
        calls: u64::from(scale.reads).saturating_mul(3),
        sum: sum_of(closed.value()),
        nanos,
    })
}

/// Which calls are made.
#[derive(Clone, Copy)]
enum Row {
    Push,
    Update,
    Read,
}

fn row_of(word: &str) -> Option<Row> {
    match word {
        "push" => Some(Row::Push),
        "update" => Some(Row::Update),
        "read" => Some(Row::Read),
        _ => None,
    }
}

fn show(
    rt: &impl Print,
    name: &str,
    threads: u32,
    scale: &Scale,
    done: Result<Done, Memory>,
) -> io::Result<()> {
    let Ok(Done { calls, sum, nanos }) = done else {
        return println!(rt; "{name}: no memory");
    };
    println!(rt; "{name}, threads: {threads}, calls: {calls}, sum: {sum}")?;
    if scale.is_timed {
        let thousands = calls.saturating_mul(1_000_000) / nanos.max(1);
        println!(rt; "  {thousands} thousand calls a second")?;
    }
    Ok(())
}

/// Makes these calls on 1, 2 and 4 threads, or reads by three threads beside one that writes.
fn show_row<R: Threads + Wait + Sync + Clock + Print>(
    rt: &R,
    alloc: Global,
    row: Row,
    scale: &Scale,
) -> io::Result<()> {
    for threads in [1, 2, 4] {
        match row {
            Row::Push => show(rt, "push", threads, scale, push(rt, alloc, threads, scale))?,
            Row::Update => show(
                rt,
                "add or update",
                threads,
                scale,
                update(rt, alloc, threads, scale),
            )?,
            Row::Read => {}
        }
    }
    if let Row::Read = row {
        show(rt, "read beside a writer", 4, scale, read(rt, alloc, scale))?;
    }
    Ok(())
}

fn main(rt: HostRuntime) -> io::Result<()> {
    let alloc = rt.alloc();
    let Some(word) = env::args(&rt)?.nth(1) else {
        for row in [Row::Push, Row::Update, Row::Read] {
            show_row(&rt, alloc, row, &SHORT)?;
        }
        return Ok(());
    };
    match row_of(&word) {
        Some(row) => show_row(&rt, alloc, row, &LONG),
        None => println!(&rt; "a row is push, update or read"),
    }
}
