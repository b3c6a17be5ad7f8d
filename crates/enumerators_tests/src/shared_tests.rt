//! Worked examples of walks over a shared pool.
ghost use Rattle.std.specs.Prelude.{◌≡◌};
ghost use Rattle.stack_pool.specs.Calls.{NoneLent};

use crate::tests::one_and_two;
use enumerators::{Rest, Walk, WalkFault};
use imm_base::{Memory, Val};
use plain_model::Elem;
use stack_pool::{PoolSeat, SharedPool};
use std::alloc::Global;
use std::process::Abort;
use std::thread::{Threads, join_mut};

type Step = Result<Option<Elem>, WalkFault>;

/// A pool of two seats, the first and the second.
fn pool_of_two(rt: &impl Abort, alloc: Global) -> (SharedPool<Rest>, PoolSeat<Rest>, PoolSeat<Rest>)
    ensures key { result.0.table.shared.key ≡ 2 }
    ensures first { (result.1.chair.table_id ≡ result.0.table.shared.table_id)
        × NoneLent result.1.chair.me.0 }
    ensures second { (result.2.chair.table_id ≡ result.0.table.shared.table_id)
        × NoneLent result.2.chair.me.0 }
{
    let Ok((pool, mut seats)) = SharedPool::make(alloc, 2) else {
        panic!(rt; "no memory for a pool")
    };
    let Some(second) = seats.pop() else {
        unreachable!()
    };
    let Some(first) = seats.pop() else {
        unreachable!()
    };
    (pool, first, second)
}

fn close(
    alloc: Global,
    pool: SharedPool<Rest>,
    first: PoolSeat<Rest>,
    second: PoolSeat<Rest>,
) -> Result<(), Memory>
    requires key { pool.table.shared.key ≡ 2 }
    requires first { (first.chair.table_id ≡ pool.table.shared.table_id)
        × NoneLent first.chair.me.0 }
    requires second { (second.chair.table_id ≡ pool.table.shared.table_id)
        × NoneLent second.chair.me.0 }
{
    let seats = vec![in alloc; first, second]?;
    pool.close(seats)
}

fn started(rt: &impl Abort, pool: &SharedPool<Rest>, seat: &mut PoolSeat<Rest>, rest: Rest) -> Walk
    requires { (seat.old.chair.table_id ≡ pool.now.table.shared.table_id)
        × NoneLent seat.old.chair.me.0 }
    ensures { (seat.new.chair.table_id ≡ pool.now.table.shared.table_id)
        × NoneLent seat.new.chair.me.0 }
{
    let Ok(walk) = Walk::start_in(rest, 0, pool, seat) else {
        panic!(rt; "a place is free")
    };
    walk
}

#[tactic(auto, using(stack_pool::proofs::AtHome::at_home))]
fn next(pool: &SharedPool<Rest>, seat: &mut PoolSeat<Rest>, walk: Walk) -> Step
    requires { (seat.old.chair.table_id ≡ pool.now.table.shared.table_id)
        × NoneLent seat.old.chair.me.0 }
    ensures { (seat.new.chair.table_id ≡ pool.now.table.shared.table_id)
        × NoneLent seat.new.chair.me.0 }
{
    walk.next_in(pool, seat, 0)
}

#[tactic(auto, using(stack_pool::proofs::AtHome::at_home))]
fn dispose(pool: &SharedPool<Rest>, seat: &mut PoolSeat<Rest>, walk: Walk) -> Result<(), WalkFault>
    requires { (seat.old.chair.table_id ≡ pool.now.table.shared.table_id)
        × NoneLent seat.old.chair.me.0 }
    ensures { (seat.new.chair.table_id ≡ pool.now.table.shared.table_id)
        × NoneLent seat.new.chair.me.0 }
{
    walk.dispose_in(pool, seat)
}

/// The element that the walk stands at after it went back to its start.
#[tactic(auto, using(stack_pool::proofs::AtHome::at_home))]
fn current_after_reset(
    pool: &SharedPool<Rest>,
    seat: &mut PoolSeat<Rest>,
    walk: Walk,
) -> Result<Elem, WalkFault>
    requires { (seat.old.chair.table_id ≡ pool.now.table.shared.table_id)
        × NoneLent seat.old.chair.me.0 }
    ensures { (seat.new.chair.table_id ≡ pool.now.table.shared.table_id)
        × NoneLent seat.new.chair.me.0 }
{
    let _ = walk.reset_in(pool, seat, 0);
    walk.current_in(pool, seat)
}

#[test]
fn a_walk_is_the_seats_that_started_it(rt: HostRuntime) -> Result<(), Memory> {
    let (pool, mut first, mut second) = pool_of_two(&rt, rt.alloc());
    let walk = started(&rt, &pool, &mut first, one_and_two(&rt, rt.alloc()));
    let here = next(&pool, &mut first, walk);
    assert!(rt; here == Ok(Some(Elem::One(Val::Int(1)))));
    let there = next(&pool, &mut second, walk);
    assert!(rt; there == Err(WalkFault::Busy { number: 16 }));
    let none = current_after_reset(&pool, &mut first, walk);
    assert!(rt; none == Err(WalkFault::NoCurrent));
    assert!(rt; dispose(&pool, &mut first, walk) == Ok(()));
    let other = started(&rt, &pool, &mut second, one_and_two(&rt, rt.alloc()));
    let others = next(&pool, &mut first, other);
    assert!(rt; others == Err(WalkFault::Busy { number: 17 }));
    assert!(rt; next(&pool, &mut first, walk) == Err(WalkFault::Disposed));
    close(rt.alloc(), pool, first, second)
}

/// The next element on both seats at once.
fn side_by_side<R: Threads + Sync>(
    rt: &R,
    pool: &SharedPool<Rest>,
    first: &mut PoolSeat<Rest>,
    second: &mut PoolSeat<Rest>,
    walk: Walk,
) -> (Step, Step)
    requires first { (first.old.chair.table_id ≡ pool.now.table.shared.table_id)
        × NoneLent first.old.chair.me.0 }
    requires second { (second.old.chair.table_id ≡ pool.now.table.shared.table_id)
        × NoneLent second.old.chair.me.0 }
    ensures first { (first.new.chair.table_id ≡ pool.now.table.shared.table_id)
        × NoneLent first.new.chair.me.0 }
    ensures second { (second.new.chair.table_id ≡ pool.now.table.shared.table_id)
        × NoneLent second.new.chair.me.0 }
{
    let copy = walk;
    join_mut(
        rt,
        &mut ||
            requires { (first.now.chair.table_id ≡ pool.now.table.shared.table_id)
                × NoneLent first.now.chair.me.0 }
            ensures { (first.exit.now.chair.table_id ≡ pool.entry.now.table.shared.table_id)
                × NoneLent first.exit.now.chair.me.0 }
        { next(pool, first, walk) },
        &mut ||
            requires { (second.now.chair.table_id ≡ pool.now.table.shared.table_id)
                × NoneLent second.now.chair.me.0 }
            ensures { (second.exit.now.chair.table_id ≡ pool.entry.now.table.shared.table_id)
                × NoneLent second.exit.now.chair.me.0 }
        { next(pool, second, copy) },
    )
}

#[test]
fn a_disposed_walk_is_refused_on_two_threads(rt: HostRuntime) -> Result<(), Memory> {
    let (pool, mut first, mut second) = pool_of_two(&rt, rt.alloc());
    let walk = started(&rt, &pool, &mut first, one_and_two(&rt, rt.alloc()));
    assert!(rt; dispose(&pool, &mut first, walk) == Ok(()));
    let (here, there) = side_by_side(&rt, &pool, &mut first, &mut second, walk);
    assert!(rt; here == Err(WalkFault::Disposed) && there == Err(WalkFault::Disposed));
    close(rt.alloc(), pool, first, second)
}
