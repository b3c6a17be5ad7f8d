//! Worked examples of walks.

use enumerators::{Rest, Walk, WalkFault, Walked};
use imm_base::{Edit, Memory, Val, ValEq, ValOrder};
use imm_dictionary::{Dict, ImmHashSet};
use imm_list::ImmList;
use plain_model::Elem;
use sorted_maps::SortedMap;
use sorted_sets::SortedSet;
use stack_pool::Pool;
use std::alloc::Global;
use std::process::Abort;

pub(crate) fn one(number: i64) -> Elem {
    Elem::One(Val::Int(number))
}

/// The list 1, 2 before its first element.
pub(crate) fn one_and_two(rt: &impl Abort, alloc: Global) -> Rest {
    let Ok(mut list) = ImmList::from_slice(alloc, &[Val::Int(1), Val::Int(2)]) else {
        panic!(rt; "no memory for a list")
    };
    let Ok(rest) = list.rest(alloc) else {
        panic!(rt; "no memory for a share")
    };
    rest
}

pub(crate) fn started(rt: &impl Abort, rest: Rest, made: u64, pool: &mut Pool<Rest>) -> Walk {
    let Ok(walk) = Walk::start(rest, made, pool) else {
        panic!(rt; "a place is free")
    };
    walk
}

#[test]
fn a_changed_version_refuses_all_but_the_current_element(rt: HostRuntime) -> Result<(), Memory> {
    let mut pool = Pool::make(rt.alloc())?;
    let walk = started(&rt, one_and_two(&rt, rt.alloc()), 0, &mut pool);
    let changed = WalkFault::Changed { made: 0, now: 1 };
    assert!(rt; walk.next(&mut pool, 0) == Ok(Some(one(1))));
    assert!(rt; walk.next(&mut pool, 0) == Ok(Some(one(2))));
    assert!(rt; walk.next(&mut pool, 1) == Err(changed));
    assert!(rt; walk.reset(&mut pool, 1) == Err(changed));
    assert!(rt; walk.current(&mut pool) == Ok(one(2)));
    assert!(rt; walk.dispose(&mut pool) == Ok(()));
    assert!(rt; walk.dispose(&mut pool) == Err(WalkFault::Disposed));
    assert!(rt; walk.next(&mut pool, 1) == Err(WalkFault::Disposed));
    Ok(())
}

#[test]
fn copies_of_a_walk_end_together(rt: HostRuntime) -> Result<(), Memory> {
    let mut pool = Pool::make(rt.alloc())?;
    let first = started(&rt, one_and_two(&rt, rt.alloc()), 0, &mut pool);
    let copy = first;
    assert!(rt; first.next(&mut pool, 0) == Ok(Some(one(1))));
    assert!(rt; copy.current(&mut pool) == Ok(one(1)));
    assert!(rt; first.dispose(&mut pool) == Ok(()));
    assert!(rt; copy.next(&mut pool, 0) == Err(WalkFault::Disposed));
    let second = started(&rt, one_and_two(&rt, rt.alloc()), 0, &mut pool);
    assert!(rt; second.current(&mut pool) == Err(WalkFault::NoCurrent));
    assert!(rt; second.next(&mut pool, 0) == Ok(Some(one(1))));
    assert!(rt; copy.next(&mut pool, 0) == Err(WalkFault::Disposed));
    assert!(rt; second.next(&mut pool, 0) == Ok(Some(one(2))));
    assert!(rt; second.next(&mut pool, 0) == Ok(None));
    assert!(rt; second.current(&mut pool) == Err(WalkFault::NoCurrent));
    assert!(rt; second.reset(&mut pool, 0) == Ok(()));
    assert!(rt; second.next(&mut pool, 0) == Ok(Some(one(1))));
    assert!(rt; Walk::none().current(&mut pool) == Err(WalkFault::Disposed));
    Ok(())
}

#[test]
fn the_36th_walk_is_refused(rt: HostRuntime) -> Result<(), Memory> {
    let mut pool = Pool::make(rt.alloc())?;
    for _ in 0..35 {
        let _ = started(&rt, one_and_two(&rt, rt.alloc()), 0, &mut pool);
    }
    let full = Walk::start(one_and_two(&rt, rt.alloc()), 0, &mut pool);
    assert!(rt; matches!(full, Err(WalkFault::PoolFull)));
    Ok(())
}

/// The first three elements that a walk along the collection comes to.
pub(crate) fn first_three<C: Walked + Drop>(
    rt: &impl Abort,
    alloc: Global,
    collection: C,
) -> Result<[Result<Option<Elem>, WalkFault>; 3], Memory> {
    let mut collection = collection;
    let mut pool = Pool::make(alloc)?;
    let rest = collection.rest(alloc)?;
    let version = collection.version();
    let walk = started(rt, rest, version, &mut pool);
    let first = walk.next(&mut pool, version);
    let second = walk.next(&mut pool, version);
    let third = walk.next(&mut pool, version);
    Ok([first, second, third])
}

pub(crate) fn shows(step: &Result<Option<Elem>, WalkFault>, element: Elem) -> bool {
    *step == Ok(Some(element))
}

#[test]
fn lists_and_sorted_collections_are_walked_in_their_order(rt: HostRuntime) -> Result<(), Memory> {
    let Ok(Edit::New(set)) = SortedSet::new(ValOrder::Reverse).union_with(
        rt.alloc(),
        &[Val::Int(1), Val::Int(2)],
    ) else {
        return Err(Memory);
    };
    let [first, second, third] = first_three(&rt, rt.alloc(), set)?;
    assert!(rt; shows(&first, one(2)) && shows(&second, one(1)) && third == Ok(None));
    let Ok(Edit::New(map)) = SortedMap::new(ValOrder::Ordinal).set_item(
        rt.alloc(),
        Val::Int(1),
        Val::Int(5),
    ) else {
        return Err(Memory);
    };
    let [first, second, _] = first_three(&rt, rt.alloc(), map)?;
    assert!(rt; shows(&first, Elem::Pair(Val::Int(1), Val::Int(5))) && second == Ok(None));
    Ok(())
}

/// The first three elements of the hash set of the first values without the others.
fn first_of_hashed(
    rt: &impl Abort,
    alloc: Global,
    eq: ValEq,
    values: &[Val],
    others: &[Val],
) -> Result<[Result<Option<Elem>, WalkFault>; 3], Memory> {
    let Ok(Edit::New(set)) = ImmHashSet::new(eq).union_with(alloc, values) else {
        return Err(Memory);
    };
    let Ok(Edit::New(less)) = set.except_with(alloc, others) else {
        return Err(Memory);
    };
    first_three(rt, alloc, less)
}

// Under the equality `one` all values have one hash, and then the ordinal order decides.
#[test]
fn hash_sets_are_walked_by_hash(rt: HostRuntime) -> Result<(), Memory> {
    let values = [
        Val::Int(1),
        Val::Int(-2),
        Val::Int(3),
        Val::Int(-1),
        Val::Int(9),
    ];
    let [first, second, third] = first_of_hashed(
        &rt,
        rt.alloc(),
        ValEq::Ordinal,
        &values,
        &[Val::Int(9)],
    )?;
    assert!(rt; shows(&first, one(-1)) && shows(&second, one(-2)) && shows(&third, one(1)));
    let [first, second, third] = first_of_hashed(
        &rt,
        rt.alloc(),
        ValEq::One,
        &values,
        &[Val::Int(-2)],
    )?;
    assert!(rt; shows(&first, one(-1)) && shows(&second, one(1)) && shows(&third, one(3)));
    Ok(())
}

#[test]
fn dictionaries_are_walked_by_pairs(rt: HostRuntime) -> Result<(), Memory> {
    let Ok(Edit::New(map)) = Dict::new(ValEq::One).set_item(rt.alloc(), Val::Int(1), Val::Int(5))
    else {
        return Err(Memory);
    };
    let [first, second, _] = first_three(&rt, rt.alloc(), map)?;
    assert!(rt; shows(&first, Elem::Pair(Val::Int(1), Val::Int(5))) && second == Ok(None));
    Ok(())
}
