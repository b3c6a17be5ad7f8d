//! Calls on values, each with its outcome.
use imm_array::ImmArray;
use imm_base::{Edit, Memory, Val, ValEq};
use imm_dictionary::Dict;
use interlocked::{ArrayCall, ArrayValue, Change, DictCall, Outcome, QueueCall, Share, StackCall};
use plain_model::{Factory, Listed, Probe, Refusal, Reply, Shown, Transform};
use queue_stack::{ImmQueue, ImmStack};
use std::alloc::Global;

const A: Val = Val::Int(1);

const B: Val = Val::Int(2);

const C: Val = Val::Int(3);

const MOST: Val = Val::Int(i64::MAX);

pub(super) fn are_same(reply: &Reply, wanted: &Reply) -> bool {
    match (reply, wanted) {
        (Reply::Flag(flag), Reply::Flag(other)) => flag == other,
        (Reply::Count(count), Reply::Count(other)) => count == other,
        (Reply::Value(value), Reply::Value(other)) => value == other,
        (Reply::Taken(value), Reply::Taken(other)) => value == other,
        (Reply::Refused(refusal), Reply::Refused(other)) => refusal == other,
        (Reply::Shown(shown), Reply::Shown(other)) => {
            shown.count == other.count && shown.first.as_slice() == other.first.as_slice()
        }
        (Reply::Missing, Reply::Missing) | (Reply::Unset, Reply::Unset) => true,
        _ => false,
    }
}

/// Whether the call installs on the value, with this reply. The value is then the one that it installs.
fn installs<S: Share, X: Change<S>>(alloc: Global, value: &mut S, call: &X, wanted: &Reply) -> bool
    requires { X.suits call.now (S.plain value.old).kind }
{
    let Ok(Outcome { edit, reply }) = call.apply(alloc, value) else {
        return false;
    };
    let Edit::New(new) = edit else {
        return false;
    };
    *value = new;
    are_same(&reply, wanted)
}

/// Whether the call installs nothing on the value, with this reply.
fn stays<S: Share, X: Change<S>>(alloc: Global, value: &S, call: &X, wanted: &Reply) -> bool
    requires { X.suits call.now (S.plain value.now).kind }
{
    let Ok(Outcome { edit, reply }) = call.apply(alloc, value) else {
        return false;
    };
    matches!(edit, Edit::Same) && are_same(&reply, wanted)
}

type Stack = ImmStack<Val>;

fn pushes(alloc: Global, stack: &mut Stack, value: Val) -> bool {
    let call = StackCall::Push { value };
    installs(alloc, stack, &call, &Reply::Flag(true))
}

fn pops_one(alloc: Global, stack: &mut Stack, value: Val) -> bool {
    installs(alloc, stack, &StackCall::TryPop, &Reply::Taken(value))
}

fn pops_none(alloc: Global, stack: &Stack) -> bool {
    stays(alloc, stack, &StackCall::TryPop, &Reply::Missing)
}

// The last one pushed comes first.
fn pops(alloc: Global, stack: &mut Stack) -> bool {
    pushes(alloc, stack, A)
        && pushes(alloc, stack, B)
        && pops_one(alloc, stack, B)
        && pops_one(alloc, stack, A)
        && pops_none(alloc, stack)
}

type Queue = ImmQueue<Val>;

fn enqueues(alloc: Global, queue: &mut Queue, value: Val) -> bool {
    let call = QueueCall::Enqueue { value };
    installs(alloc, queue, &call, &Reply::Flag(true))
}

fn dequeues_one(alloc: Global, queue: &mut Queue, value: Val) -> bool {
    installs(alloc, queue, &QueueCall::TryDequeue, &Reply::Taken(value))
}

fn dequeues_none(alloc: Global, queue: &Queue) -> bool {
    stays(alloc, queue, &QueueCall::TryDequeue, &Reply::Missing)
}

// The first one put in comes first.
fn dequeues(alloc: Global, queue: &mut Queue) -> bool {
    enqueues(alloc, queue, A)
        && enqueues(alloc, queue, B)
        && enqueues(alloc, queue, C)
        && dequeues_one(alloc, queue, A)
        && dequeues_one(alloc, queue, B)
        && dequeues_one(alloc, queue, C)
        && dequeues_none(alloc, queue)
}

#[test]
fn calls_on_a_stack_and_a_queue(rt: HostRuntime) {
    assert!(rt; pops(rt.alloc(), &mut ImmStack::new()));
    assert!(rt; dequeues(rt.alloc(), &mut ImmQueue::new()));
}

type Map = Dict<Val, Val, ValEq>;

fn is_put(alloc: Global, map: &mut Map, call: &DictCall, wanted: &Reply) -> bool {
    installs(alloc, map, call, wanted)
}

fn is_kept(alloc: Global, map: &Map, call: &DictCall, wanted: &Reply) -> bool {
    stays(alloc, map, call, wanted)
}

fn tries_to_add(alloc: Global, map: &mut Map) -> bool {
    let call = DictCall::TryAdd { key: A, value: A };
    is_put(alloc, map, &call, &Reply::Flag(true)) && is_kept(alloc, map, &call, &Reply::Flag(false))
}

fn gets_or_adds(alloc: Global, map: &mut Map) -> bool {
    let call = DictCall::GetOrAdd { key: B, value: B };
    is_put(alloc, map, &call, &Reply::Value(B)) && is_kept(alloc, map, &call, &Reply::Value(B))
}

fn tries_to_remove(alloc: Global, map: &mut Map) -> bool {
    let call = DictCall::TryRemove { key: B };
    is_put(alloc, map, &call, &Reply::Taken(B)) && is_kept(alloc, map, &call, &Reply::Missing)
}

// The empty dictionary gets the pairs A=A and B=B, and loses one.
fn adds_and_removes(alloc: Global, map: &mut Map) -> bool {
    tries_to_add(alloc, map) && gets_or_adds(alloc, map) && tries_to_remove(alloc, map)
}

fn from_one(key: Val, value: Val) -> DictCall {
    DictCall::TryUpdate {
        key,
        value,
        comparison: A,
    }
}

fn updates_one(alloc: Global, map: &mut Map, value: Val) -> bool {
    is_put(alloc, map, &from_one(A, value), &Reply::Flag(true))
}

fn updates_none(alloc: Global, map: &Map, key: Val, value: Val) -> bool {
    is_kept(alloc, map, &from_one(key, value), &Reply::Flag(false))
}

// The dictionary A=A gets the same value again, which is another version, becomes A=B, and has no A then.
fn updates(alloc: Global, map: &mut Map) -> bool {
    updates_one(alloc, map, A)
        && updates_none(alloc, map, B, A)
        && updates_one(alloc, map, B)
        && updates_none(alloc, map, A, B)
}

// The factory's value is answered for a key that is absent.
fn makes_one(alloc: Global, map: &mut Map) -> bool {
    let probe = Probe::Ran { position: 0 };
    let call = DictCall::GetOrAddMade {
        key: B,
        make: Factory::Key,
        probe,
    };
    is_put(alloc, map, &call, &Reply::Value(B))
}

// B is answered for a key that is present, whether or not the factory ran.
fn makes_none(alloc: Global, map: &Map, key: Val, make: Factory, probe: Probe) -> bool {
    let call = DictCall::GetOrAddMade { key, make, probe };
    is_kept(alloc, map, &call, &Reply::Value(B))
}

fn updates_made(alloc: Global, map: &mut Map, wanted: Val) -> bool {
    let call = DictCall::AddOrUpdateMade {
        key: C,
        make: Factory::Const(A),
        transform: Transform::Plus(1),
    };
    is_put(alloc, map, &call, &Reply::Value(wanted))
}

// The dictionary A=B gets B=B by a factory, and then C=A, which becomes C=B.
fn makes(alloc: Global, map: &mut Map) -> bool {
    makes_none(alloc, map, A, Factory::Key, Probe::Idle)
        && makes_one(alloc, map)
        && makes_none(alloc, map, B, Factory::Const(C), Probe::Idle)
        && makes_none(alloc, map, B, Factory::Const(C), Probe::Ran { position: 0 })
        && updates_made(alloc, map, A)
        && updates_made(alloc, map, B)
}

// A sum at the end of the numbers stays.
fn stops(alloc: Global, map: &mut Map) -> bool {
    let call = DictCall::AddOrUpdate {
        key: Val::Int(4),
        value: MOST,
        transform: Transform::Plus(1),
    };
    is_put(alloc, map, &call, &Reply::Value(MOST))
        && is_kept(alloc, map, &call, &Reply::Value(MOST))
}

#[test]
fn calls_on_a_dictionary(rt: HostRuntime) {
    let alloc = rt.alloc();
    let mut map = Dict::new(ValEq::Ordinal);
    assert!(rt; adds_and_removes(alloc, &mut map));
    assert!(rt; updates(alloc, &mut map));
    assert!(rt; makes(alloc, &mut map));
    assert!(rt; stops(alloc, &mut map));
}

fn shown(alloc: Global, count: u32, numbers: &[Val]) -> Result<Reply, Memory> {
    let mut first = Listed::new(alloc);
    for number in numbers {
        first.push(*number)?;
    }
    Ok(Reply::Shown(Shown { count, first }))
}

fn array_of(alloc: Global, numbers: &[Val]) -> Result<ImmArray<Val>, Memory> {
    match ImmArray::from_slice(alloc, numbers) {
        Ok(array) => Ok(array),
        Err(_) => Err(Memory),
    }
}

fn is_set(alloc: Global, value: &mut ArrayValue, call: &ArrayCall, wanted: &Reply) -> bool {
    installs(alloc, value, call, wanted)
}

fn is_left(alloc: Global, value: &ArrayValue, call: &ArrayCall, wanted: &Reply) -> bool {
    stays(alloc, value, call, wanted)
}

// No array becomes B C, and an array stays.
fn initializes(alloc: Global, value: &mut ArrayValue) -> Result<bool, Memory> {
    let array = array_of(alloc, &[B, C])?;
    let call = ArrayCall::Initialize { array };
    Ok(
        is_set(alloc, value, &call, &Reply::Flag(true))
            && is_left(alloc, value, &call, &Reply::Flag(false)),
    )
}

// An array of this one number.
fn exchange(alloc: Global, number: Val) -> Result<ArrayCall, Memory> {
    let array = array_of(alloc, &[number])?;
    Ok(ArrayCall::Exchange { array })
}

// B C becomes A.
fn exchanges(alloc: Global, value: &mut ArrayValue) -> Result<bool, Memory> {
    let call = exchange(alloc, A)?;
    Ok(is_set(alloc, value, &call, &shown(alloc, 2, &[B, C])?))
}

fn only_a(alloc: Global) -> Result<ArrayValue, Memory> {
    Ok(ArrayValue::Array(array_of(alloc, &[A])?))
}

fn for_one(alloc: Global, numbers: &[Val]) -> Result<ArrayCall, Memory> {
    let array = array_of(alloc, numbers)?;
    let comparand = only_a(alloc)?;
    Ok(ArrayCall::CompareExchange { array, comparand })
}

fn for_none(alloc: Global) -> Result<ArrayCall, Memory> {
    let array = array_of(alloc, &[A])?;
    let comparand = ArrayValue::Default;
    Ok(ArrayCall::CompareExchange { array, comparand })
}

fn changes_from_a(alloc: Global, value: &mut ArrayValue, call: &ArrayCall) -> Result<bool, Memory> {
    Ok(is_set(alloc, value, call, &shown(alloc, 1, &[A])?))
}

fn stays_b_c(alloc: Global, value: &ArrayValue, call: &ArrayCall) -> Result<bool, Memory> {
    Ok(is_left(alloc, value, call, &shown(alloc, 2, &[B, C])?))
}

// A becomes B C, which is not A.
fn compares(alloc: Global, value: &mut ArrayValue) -> Result<bool, Memory> {
    let call = for_one(alloc, &[B, C])?;
    Ok(changes_from_a(alloc, value, &call)? && stays_b_c(alloc, value, &call)?)
}

fn no_array_differs(alloc: Global) -> Result<bool, Memory> {
    let call = for_one(alloc, &[B])?;
    Ok(is_left(alloc, &ArrayValue::Default, &call, &Reply::Unset))
}

fn an_array_differs(alloc: Global, value: &ArrayValue) -> Result<bool, Memory> {
    stays_b_c(alloc, value, &for_none(alloc)?)
}

// No array is not A, and B C is not no array.
fn differs(alloc: Global, value: &ArrayValue) -> Result<bool, Memory> {
    Ok(no_array_differs(alloc)? && an_array_differs(alloc, value)?)
}

#[test]
fn calls_on_an_array(rt: HostRuntime) {
    let alloc = rt.alloc();
    let mut value = ArrayValue::Default;
    assert!(rt; matches!(initializes(alloc, &mut value), Ok(true)));
    assert!(rt; matches!(exchanges(alloc, &mut value), Ok(true)));
    assert!(rt; matches!(compares(alloc, &mut value), Ok(true)));
    assert!(rt; matches!(differs(alloc, &value), Ok(true)));
}
