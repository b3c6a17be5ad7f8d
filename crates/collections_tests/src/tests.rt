use collections::*;
use imm_array::ImmArray;
use imm_base::{LIMIT, Val, ValEq, ValOrder};
use imm_dictionary::{Dict, ImmHashSet};
use plain_model::{Kind, Refusal, Values};
use queue_stack::{ImmQueue, ImmStack};
use sorted_sets::SortedSet;
use std::test::Fail;
use std::thread::join;

#[test]
fn more_than_the_limit_are_refused(rt: HostRuntime) -> Result<(), Fail> {
    let count = LIMIT + 1;
    let values = Values::Seq { first: 0, count };
    let list = Collection::of_values(rt.alloc(), Kind::List, &values);
    assert!(rt; matches!(list, Ok(Err(Refusal::TooLarge { count: 0 }))));
    Ok(())
}

#[test]
fn two_threads_read_one_sorted_set(rt: HostRuntime) -> Result<(), Fail> {
    let set = SortedSet::<Val, ValOrder>::new(ValOrder::Ordinal);
    let (one, two) = join(&rt, || set.count(), || set.count());
    assert!(rt; one == two);
    Ok(())
}

#[test]
fn two_threads_read_one_array(rt: HostRuntime) -> Result<(), Fail> {
    let array = ImmArray::<Val>::new();
    let (one, two) = join(&rt, || array.count(), || array.count());
    assert!(rt; one == two);
    Ok(())
}

#[test]
fn two_threads_read_one_stack(rt: HostRuntime) -> Result<(), Fail> {
    let stack = ImmStack::<Val>::new();
    let (one, two) = join(&rt, || stack.count(), || stack.count());
    assert!(rt; one == two);
    Ok(())
}

#[test]
fn two_threads_read_one_queue(rt: HostRuntime) -> Result<(), Fail> {
    let queue = ImmQueue::<Val>::new();
    let (one, two) = join(&rt, || queue.count(), || queue.count());
    assert!(rt; one == two);
    Ok(())
}

#[test]
fn two_threads_read_one_hash_set(rt: HostRuntime) -> Result<(), Fail> {
    let set = ImmHashSet::<Val, ValEq>::new(ValEq::Ordinal);
    let (one, two) = join(&rt, || set.count(), || set.count());
    assert!(rt; one == two);
    Ok(())
}

#[test]
fn two_threads_read_one_dictionary(rt: HostRuntime) -> Result<(), Fail> {
    let dict = Dict::<Val, Val, ValEq>::new(ValEq::Ordinal);
    let (one, two) = join(&rt, || dict.count(), || dict.count());
    assert!(rt; one == two);
    Ok(())
}
