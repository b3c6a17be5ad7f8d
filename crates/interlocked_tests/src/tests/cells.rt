//! Cells in one thread: each named call, and a payload that cannot be shared.
use super::rows::are_same;
use super::{Job, run};
use imm_array::ImmArray;
use imm_base::{Dup, Edit, Memory, Val, ValEq};
use imm_dictionary::Dict;
use interlocked::{
    ArrayCall, ArrayValue, CellPass, Change, DictCall, ImmCell, Outcome, PeekFault, QueueCall,
    Share, StackCall,
};
use plain_model::{Factory, Probe, Reply, Transform};
use queue_stack::{ImmQueue, ImmStack};
use std::alloc::Global;
use std::process::Abort;
use std::sync::Wait;
use std::sync::atomic::{AtomicU64, Ordering};

const A: Val = Val::Int(1);

const B: Val = Val::Int(2);

struct StackCalls;

impl Job<ImmStack<Val>, StackCall> for StackCalls {
    fn work<R: Wait + Abort>(
        &self,
        rt: &R,
        alloc: Global,
        cell: &ImmCell<ImmStack<Val>, StackCall>,
        pass: &mut CellPass<ImmStack<Val>, StackCall>,
    ) {
        let Ok((reply, _)) = cell.push(rt, alloc, pass, 1, A) else {
            panic!(rt; "a push")
        };
        assert!(rt; are_same(&reply, &Reply::Flag(true)));
        let Ok((reply, _)) = cell.try_pop(rt, alloc, pass, 2) else {
            panic!(rt; "a pop")
        };
        assert!(rt; are_same(&reply, &Reply::Taken(A)));
    }
}

struct QueueCalls;

impl Job<ImmQueue<Val>, QueueCall> for QueueCalls {
    fn work<R: Wait + Abort>(
        &self,
        rt: &R,
        alloc: Global,
        cell: &ImmCell<ImmQueue<Val>, QueueCall>,
        pass: &mut CellPass<ImmQueue<Val>, QueueCall>,
    ) {
        let Ok((reply, _)) = cell.enqueue(rt, alloc, pass, 1, A) else {
            panic!(rt; "an enqueue")
        };
        assert!(rt; are_same(&reply, &Reply::Flag(true)));
        let Ok((reply, _)) = cell.try_dequeue(rt, alloc, pass, 2) else {
            panic!(rt; "a dequeue")
        };
        assert!(rt; are_same(&reply, &Reply::Taken(A)));
    }
}

type Map = Dict<Val, Val, ValEq>;

struct PairCalls;

impl Job<Map, DictCall> for PairCalls {
    fn work<R: Wait + Abort>(
        &self,
        rt: &R,
        alloc: Global,
        cell: &ImmCell<Map, DictCall>,
        pass: &mut CellPass<Map, DictCall>,
    ) {
        let Ok((reply, _)) = cell.try_add(rt, alloc, pass, 1, A, A) else {
            panic!(rt; "a pair")
        };
        assert!(rt; are_same(&reply, &Reply::Flag(true)));
        let Ok((reply, _)) = cell.try_update(rt, alloc, pass, 2, A, B, A) else {
            panic!(rt; "a pair")
        };
        assert!(rt; are_same(&reply, &Reply::Flag(true)));
        let Ok((reply, _)) = cell.try_remove(rt, alloc, pass, 3, A) else {
            panic!(rt; "a pair")
        };
        assert!(rt; are_same(&reply, &Reply::Taken(B)));
    }
}

struct ValueCalls;

impl Job<Map, DictCall> for ValueCalls {
    fn work<R: Wait + Abort>(
        &self,
        rt: &R,
        alloc: Global,
        cell: &ImmCell<Map, DictCall>,
        pass: &mut CellPass<Map, DictCall>,
    ) {
        let Ok((reply, _)) = cell.get_or_add(rt, alloc, pass, 1, A, A) else {
            panic!(rt; "a value")
        };
        assert!(rt; are_same(&reply, &Reply::Value(A)));
        let Ok((reply, _)) = cell.add_or_update(rt, alloc, pass, 2, A, A, Transform::Plus(1)) else {
            panic!(rt; "a value")
        };
        assert!(rt; are_same(&reply, &Reply::Value(B)));
        let Ok((reply, _)) = cell.add_or_update_made(
            rt,
            alloc,
            pass,
            3,
            B,
            Factory::Key,
            Transform::Plus(1),
        ) else {
            panic!(rt; "a value")
        };
        assert!(rt; are_same(&reply, &Reply::Value(B)));
    }
}

/// A factory makes the value of an absent key, and is idle where the key is present.
struct MadeCalls;

impl Job<Map, DictCall> for MadeCalls {
    fn work<R: Wait + Abort>(
        &self,
        rt: &R,
        alloc: Global,
        cell: &ImmCell<Map, DictCall>,
        pass: &mut CellPass<Map, DictCall>,
    ) {
        let Ok((reply, _, probe)) = cell.get_or_add_made(rt, alloc, pass, 1, A, Factory::Key) else {
            panic!(rt; "a value")
        };
        assert!(rt; are_same(&reply, &Reply::Value(A)));
        assert!(rt; matches!(probe, Probe::Ran { position: 0 }));
        let Ok((reply, _, probe)) = cell.get_or_add_made(rt, alloc, pass, 2, B, Factory::Const(A))
        else {
            panic!(rt; "a value")
        };
        assert!(rt; are_same(&reply, &Reply::Value(A)));
        assert!(rt; matches!(probe, Probe::Ran { position: 1 }));
        let Ok((reply, _, probe)) = cell.get_or_add_made(rt, alloc, pass, 3, A, Factory::Const(B))
        else {
            panic!(rt; "a value")
        };
        assert!(rt; are_same(&reply, &Reply::Value(A)));
        assert!(rt; matches!(probe, Probe::Idle));
    }
}

struct ArrayCalls;

fn array_of(rt: &impl Abort, alloc: Global, value: Val) -> ImmArray<Val> {
    let Ok(array) = ImmArray::from_slice(alloc, &[value]) else {
        panic!(rt; "an array")
    };
    array
}

impl Job<ArrayValue, ArrayCall> for ArrayCalls {
    fn work<R: Wait + Abort>(
        &self,
        rt: &R,
        alloc: Global,
        cell: &ImmCell<ArrayValue, ArrayCall>,
        pass: &mut CellPass<ArrayValue, ArrayCall>,
    ) {
        let array = array_of(rt, alloc, A);
        let Ok((reply, _)) = cell.interlocked_initialize(rt, alloc, pass, 1, array) else {
            panic!(rt; "an array")
        };
        assert!(rt; are_same(&reply, &Reply::Flag(true)));
        let array = array_of(rt, alloc, B);
        let Ok((Reply::Shown(_), stamp)) = cell.interlocked_exchange(rt, alloc, pass, 2, array)
        else {
            panic!(rt; "an array")
        };
        assert!(rt; stamp.installed);
        let array = array_of(rt, alloc, A);
        let comparand = ArrayValue::Array(array_of(rt, alloc, B));
        let Ok((Reply::Shown(_), stamp)) = cell.interlocked_compare_exchange(
            rt, alloc, pass, 3, array, comparand,
        ) else {
            panic!(rt; "an array")
        };
        assert!(rt; stamp.installed);
    }
}

#[test]
fn each_call_by_its_name(rt: HostRuntime) {
    let alloc = rt.alloc();
    let closed = run(&rt, alloc, 1, ImmStack::new(), &StackCalls);
    assert!(rt; closed.value().count() == 0 && closed.entry(2).is_some());
    let closed = run(&rt, alloc, 1, ImmQueue::new(), &QueueCalls);
    assert!(rt; closed.value().count() == 0 && closed.entry(2).is_some());
    let closed = run(&rt, alloc, 1, ArrayValue::Default, &ArrayCalls);
    assert!(rt; closed.entry(3).is_some() && closed.entry(4).is_none());
}

#[test]
fn each_call_on_a_dictionary_by_its_name(rt: HostRuntime) {
    let alloc = rt.alloc();
    let closed = run(&rt, alloc, 1, Dict::new(ValEq::Ordinal), &PairCalls);
    assert!(rt; closed.value().count() == 0 && closed.entry(3).is_some());
    let closed = run(&rt, alloc, 1, Dict::new(ValEq::Ordinal), &ValueCalls);
    assert!(rt; closed.value().count() == 2 && closed.entry(3).is_some());
    let closed = run(&rt, alloc, 1, Dict::new(ValEq::Ordinal), &MadeCalls);
    assert!(rt; closed.value().count() == 2 && closed.entry(3).is_none());
}

/// A stack of no elements, of which a hundred shares are given and no more.
#[derive(Drop)]
struct Scarce<'a> {
    shares: &'a AtomicU64,
}

impl Share for Scarce<'_> {
    ghost use Rattle.std.specs.Prelude.{[]};
    ghost use Rattle.plain_model.specs.declared.plain.Kind.TheVariants.{Stack};
    ghost use Rattle.interlocked.specs.Meanings.{listed};

    ghost plain = { λ _. listed Stack [] };

    fn share(&self) -> Result<Self, Memory> {
        if self.shares.fetch_add(1, Ordering::SeqCst) >= 100 {
            return Err(Memory);
        }
        Ok(Scarce {
            shares: self.shares,
        })
    }
}

/// The call that reads the count.
#[derive(Clone, Copy)]
struct Count;

impl Dup for Count {
    fn dup(&self, _: Global) -> Result<Self, Memory> {
        Ok(Count)
    }
}

impl<'a> Change<Scarce<'a>> for Count {
    ghost use Rattle.plain_model.specs.declared.commands.PlainCall.TheVariants.{Read};

    ghost meaning = { λ _. Read };

    ghost suits = { λ _ _. Unit {0} };

    fn apply(&self, _: Global, _: &Scarce<'a>) -> Result<Outcome<Scarce<'a>>, Memory> {
        Ok(Outcome {
            edit: Edit::Same,
            reply: Reply::Count(0),
        })
    }
}

/// All shares are given away. A read then answers want of memory, and a call that installs nothing is done.
struct Exhausts;

impl<'a> Job<Scarce<'a>, Count> for Exhausts {
    fn work<R: Wait + Abort>(
        &self,
        rt: &R,
        alloc: Global,
        cell: &ImmCell<Scarce<'a>, Count>,
        pass: &mut CellPass<Scarce<'a>, Count>,
    ) {
        'shares: for _ in rt.forever() {
            match cell.peek(pass) {
                Ok(_) => {}
                Err(PeekFault::Memory) => break,
                Err(PeekFault::Pin(_)) => panic!(rt; "a pin"),
            }
        }
        let Ok((reply, _)) = cell.call(rt, alloc, pass, 1, &Count) else {
            panic!(rt; "a count")
        };
        assert!(rt; are_same(&reply, &Reply::Count(0)));
    }
}

#[test]
fn a_value_that_cannot_be_shared(rt: HostRuntime) {
    let shares = AtomicU64::new(0);
    let first = Scarce { shares: &shares };
    let closed = run::<_, Scarce, Count>(&rt, rt.alloc(), 1, first, &Exhausts);
    assert!(rt; closed.entry(1).is_none() && shares.load(Ordering::SeqCst) == 101);
}
