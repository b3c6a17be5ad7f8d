//! Two threads on one cell.
use super::{Job, run};
use imm_base::{Edit, Val, ValEq};
use imm_dictionary::Dict;
use interlocked::{CellPass, DictCall, ImmCell, Logged, StackCall};
use plain_model::Reply;
use queue_stack::ImmStack;
use std::alloc::Global;
use std::process::Abort;
use std::sync::Wait;
use std::sync::atomic::{AtomicU64, Ordering};

type Stack = ImmStack<Val>;

type Map = Dict<Val, Val, ValEq>;

/// Pushes so many ones.
#[derive(Drop)]
struct Pushes {
    count: u32,
}

impl Job<Stack, StackCall> for Pushes {
    fn work<R: Wait + Abort>(
        &self,
        rt: &R,
        alloc: Global,
        cell: &ImmCell<Stack, StackCall>,
        pass: &mut CellPass<Stack, StackCall>,
    ) {
        for before in 0..self.count {
            let ordinal = u64::from(before) + 1;
            let Ok((reply, _)) = cell.push(rt, alloc, pass, ordinal, Val::Int(1)) else {
                panic!(rt; "a push")
            };
            assert!(rt; matches!(reply, Reply::Flag(true)));
        }
    }
}

/// How many calls of this caller are entered, where their ordinals are 1, 2 and so on.
fn entered(closed: &Logged<Stack, StackCall>, caller: u32) -> u64 {
    let mut last = 0;
    for position in 1..=20_000 {
        match closed.entry(position) {
            Some(entry) if entry.caller != caller => {}
            Some(entry) if entry.ordinal > last && entry.ordinal - 1 == last => {
                last = entry.ordinal;
            }
            _ => return 0,
        }
    }
    last
}

#[test]
fn two_threads_push_on_one_cell(rt: HostRuntime) {
    let job = Pushes { count: 10_000 };
    let closed = run(&rt, rt.alloc(), 2, ImmStack::new(), &job);
    assert!(rt; closed.value().count() == 20_000);
    assert!(rt; entered(&closed, 1) == 10_000 && entered(&closed, 2) == 10_000);
    assert!(rt; closed.entry(0).is_none() && closed.entry(20_001).is_none());
}

/// Makes one number after the other of the one before, where the key has that still. Counts how often
/// it had.
#[derive(Drop)]
struct Updates {
    count: u32,
    done: AtomicU64,
}

impl Job<Map, DictCall> for Updates {
    fn work<R: Wait + Abort>(
        &self,
        rt: &R,
        alloc: Global,
        cell: &ImmCell<Map, DictCall>,
        pass: &mut CellPass<Map, DictCall>,
    ) {
        for before in 0..self.count {
            let ordinal = u64::from(before) + 1;
            let old = Val::Int(i64::from(before));
            let new = Val::Int(i64::from(before) + 1);
            let Ok((reply, _)) = cell.try_update(rt, alloc, pass, ordinal, Val::Int(0), new, old)
            else {
                panic!(rt; "an update")
            };
            if let Reply::Flag(true) = reply {
                self.done.fetch_add(1, Ordering::SeqCst);
            }
        }
    }
}

fn one_pair(rt: &impl Abort, alloc: Global) -> Map {
    let Ok(Edit::New(map)) = Dict::new(ValEq::Ordinal).add(alloc, Val::Int(0), Val::Int(0)) else {
        panic!(rt; "one pair")
    };
    map
}

// Each number is put in by just one of the threads: when both have tried, it is there, and it comes once.
#[test]
fn one_of_two_updates(rt: HostRuntime) {
    let alloc = rt.alloc();
    let job = Updates {
        count: 1000,
        done: AtomicU64::new(0),
    };
    let closed = run(&rt, alloc, 2, one_pair(&rt, alloc), &job);
    assert!(rt; job.done.load(Ordering::SeqCst) == 1000);
    assert!(rt; closed.value().get(&Val::Int(0)) == Some(&Val::Int(1000)));
    assert!(rt; closed.entry(1000).is_some() && closed.entry(1001).is_none());
}

/// The first pass reads until it has read the last of so many versions, and the second installs them.
#[derive(Drop)]
struct Reads {
    pushes: Pushes,
}

impl Job<Stack, StackCall> for Reads {
    fn work<R: Wait + Abort>(
        &self,
        rt: &R,
        alloc: Global,
        cell: &ImmCell<Stack, StackCall>,
        pass: &mut CellPass<Stack, StackCall>,
    ) {
        if pass.number() == 2 {
            return self.pushes.work(rt, alloc, cell, pass);
        }
        let Ok((kept, at)) = cell.read(rt, pass) else {
            panic!(rt; "a value")
        };
        'reads: for _ in rt.forever() {
            let Ok((stack, stamp)) = cell.read(rt, pass) else {
                panic!(rt; "a value")
            };
            assert!(rt; u64::from(stack.count()) == stamp.position);
            assert!(rt; u64::from(kept.count()) == at.position);
            if stamp.position == u64::from(self.pushes.count) {
                return;
            }
        }
    }
}

#[test]
fn what_was_read_stays(rt: HostRuntime) {
    let job = Reads {
        pushes: Pushes { count: 2000 },
    };
    let closed = run(&rt, rt.alloc(), 2, ImmStack::new(), &job);
    assert!(rt; closed.entry(2000).is_some());
}
