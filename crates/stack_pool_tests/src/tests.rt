//! Worked examples on pools of numbers.
ghost use Rattle.std.specs.Prelude.{◌≡◌};
ghost use Rattle.stack_pool.specs.Calls.{NoneLent};

use imm_base::Memory;
use stack_pool::{Owner, PLACES, Pool, PoolFault, PoolSeat, SharedPool, TakeFault};
use std::alloc::Global;
use std::process::Abort;
use std::thread::{Threads, join_mut};

/// A pool of two seats, the first and the second.
fn pool_of_two(rt: &impl Abort, alloc: Global) -> (SharedPool<u32>, PoolSeat<u32>, PoolSeat<u32>)
    ensures key { result.0.table.shared.key ≡ 2 }
    ensures first { (result.1.chair.table_id ≡ result.0.table.shared.table_id)
        × NoneLent result.1.chair.me.0 }
    ensures second { (result.2.chair.table_id ≡ result.0.table.shared.table_id)
        × NoneLent result.2.chair.me.0 }
{
    let Ok((pool, mut seats)) = SharedPool::make(alloc, 2) else {
        panic!(rt; "no memory for a pool")
    };
    let Some(second) = seats.pop() else {
        unreachable!()
    };
    let Some(first) = seats.pop() else {
        unreachable!()
    };
    (pool, first, second)
}

/// Ends the pool of two seats.
fn close(
    alloc: Global,
    pool: SharedPool<u32>,
    first: PoolSeat<u32>,
    second: PoolSeat<u32>,
) -> Result<(), Memory>
    requires key { pool.table.shared.key ≡ 2 }
    requires first { (first.chair.table_id ≡ pool.table.shared.table_id)
        × NoneLent first.chair.me.0 }
    requires second { (second.chair.table_id ≡ pool.table.shared.table_id)
        × NoneLent second.chair.me.0 }
{
    let seats = vec![in alloc; first, second]?;
    pool.close(seats)
}

/// The handle of a new taking.
fn taken(rt: &impl Abort, pool: &SharedPool<u32>, seat: &mut PoolSeat<u32>, content: u32) -> Owner
    requires { (seat.old.chair.table_id ≡ pool.now.table.shared.table_id)
        × NoneLent seat.old.chair.me.0 }
    ensures { (seat.new.chair.table_id ≡ pool.now.table.shared.table_id)
        × NoneLent seat.new.chair.me.0 }
{
    let Ok(owner) = pool.take(seat, content) else {
        panic!(rt; "a place is free")
    };
    owner
}

/// Writes the number into the handle's place, or says why not.
#[tactic(auto, using(stack_pool::proofs::AtHome::at_home))]
fn write(
    pool: &SharedPool<u32>,
    seat: &mut PoolSeat<u32>,
    owner: Owner,
    content: u32,
) -> Result<(), PoolFault>
    requires { (seat.old.chair.table_id ≡ pool.now.table.shared.table_id)
        × NoneLent seat.old.chair.me.0 }
    ensures { (seat.new.chair.table_id ≡ pool.now.table.shared.table_id)
        × NoneLent seat.new.chair.me.0 }
{
    match pool.hold(seat, owner) {
        Ok(mut held) => {
            *held.content_mut() = content;
            pool.release(seat, held);
            Ok(())
        }
        Err(fault) => Err(fault),
    }
}

/// Gives the place back, and answers its content.
#[tactic(auto, using(stack_pool::proofs::AtHome::at_home))]
fn give_back(
    pool: &SharedPool<u32>,
    seat: &mut PoolSeat<u32>,
    owner: Owner,
) -> Result<u32, PoolFault>
    requires { (seat.old.chair.table_id ≡ pool.now.table.shared.table_id)
        × NoneLent seat.old.chair.me.0 }
    ensures { (seat.new.chair.table_id ≡ pool.now.table.shared.table_id)
        × NoneLent seat.new.chair.me.0 }
{
    pool.give_back(seat, owner)
}

#[test]
fn a_place_goes_from_seat_to_seat(rt: HostRuntime) -> Result<(), Memory> {
    let (pool, mut first, mut second) = pool_of_two(&rt, rt.alloc());
    let old = taken(&rt, &pool, &mut first, 7);
    assert!(rt; old.number == 16 && old.place == 0);
    let busy = write(&pool, &mut second, old, 8);
    assert!(rt; matches!(busy, Err(PoolFault::Busy { number: 16 })));
    let content = give_back(&pool, &mut first, old);
    assert!(rt; matches!(content, Ok(7)));
    let new = taken(&rt, &pool, &mut second, 8);
    assert!(rt; new.number == 17 && new.place == 0);
    let disposed = write(&pool, &mut first, old, 9);
    assert!(rt; matches!(disposed, Err(PoolFault::Disposed { holder: Some(17) })));
    close(rt.alloc(), pool, first, second)
}

/// Whether the taking was refused for want of a place, and the content came back.
fn is_full(taken: Result<Owner, TakeFault<u32>>, content: u32) -> bool {
    match taken {
        Err(refused) => matches!(refused.fault, PoolFault::PoolFull) && refused.rest == content,
        Ok(_) => false,
    }
}

#[test]
fn a_seat_owns_35_places(rt: HostRuntime) -> Result<(), Memory> {
    let (pool, mut first, mut second) = pool_of_two(&rt, rt.alloc());
    for content in 0..PLACES {
        let _ = taken(&rt, &pool, &mut first, content);
    }
    assert!(rt; is_full(pool.take(&mut first, 36), 36));
    let owner = taken(&rt, &pool, &mut second, 1);
    assert!(rt; owner.place == PLACES);
    close(rt.alloc(), pool, first, second)
}

/// Takes, writes and gives back a place 200 times, and says whether each content was what was
/// written.
fn take_and_give<R: Abort>(rt: &R, pool: &SharedPool<u32>, seat: &mut PoolSeat<u32>) -> bool
    requires { (seat.old.chair.table_id ≡ pool.now.table.shared.table_id)
        × NoneLent seat.old.chair.me.0 }
    ensures { (seat.new.chair.table_id ≡ pool.now.table.shared.table_id)
        × NoneLent seat.new.chair.me.0 }
{
    let mut right = true;
    for content in 0..200 {
        let owner = taken(rt, pool, seat, content);
        let written = write(pool, seat, owner, content + 1);
        let given = give_back(pool, seat, owner);
        right = right && written.is_ok() && matches!(given, Ok(last) if last == content + 1);
    }
    right
}

/// Both seats at once.
fn side_by_side<R: Threads + Abort + Sync>(
    rt: &R,
    pool: &SharedPool<u32>,
    first: &mut PoolSeat<u32>,
    second: &mut PoolSeat<u32>,
) -> (bool, bool)
    requires first { (first.old.chair.table_id ≡ pool.now.table.shared.table_id)
        × NoneLent first.old.chair.me.0 }
    requires second { (second.old.chair.table_id ≡ pool.now.table.shared.table_id)
        × NoneLent second.old.chair.me.0 }
    ensures first { (first.new.chair.table_id ≡ pool.now.table.shared.table_id)
        × NoneLent first.new.chair.me.0 }
    ensures second { (second.new.chair.table_id ≡ pool.now.table.shared.table_id)
        × NoneLent second.new.chair.me.0 }
{
    join_mut(
        rt,
        &mut ||
            requires { (first.now.chair.table_id ≡ pool.now.table.shared.table_id)
                × NoneLent first.now.chair.me.0 }
            ensures { (first.exit.now.chair.table_id ≡ pool.entry.now.table.shared.table_id)
                × NoneLent first.exit.now.chair.me.0 }
        { take_and_give(rt, pool, first) },
        &mut ||
            requires { (second.now.chair.table_id ≡ pool.now.table.shared.table_id)
                × NoneLent second.now.chair.me.0 }
            ensures { (second.exit.now.chair.table_id ≡ pool.entry.now.table.shared.table_id)
                × NoneLent second.exit.now.chair.me.0 }
        { take_and_give(rt, pool, second) },
    )
}

#[test]
fn two_threads_share_a_pool(rt: HostRuntime) -> Result<(), Memory> {
    let (pool, mut first, mut second) = pool_of_two(&rt, rt.alloc());
    let right = side_by_side(&rt, &pool, &mut first, &mut second);
    assert!(rt; right.0 && right.1);
    close(rt.alloc(), pool, first, second)
}

#[test]
fn copies_of_a_handle_end_together(rt: HostRuntime) -> Result<(), Memory> {
    let mut pool = Pool::make(rt.alloc())?;
    for content in 0..PLACES {
        let taken = pool.take(content);
        assert!(rt; matches!(taken, Ok(owner) if owner.number == 16 * (u64::from(content) + 1)));
    }
    assert!(rt; is_full(pool.take(35), 35));
    let owner = Owner {
        number: 48,
        place: 2,
    };
    let content = pool.with(owner);
    assert!(rt; matches!(content, Ok(content) if *content == 2));
    let given = pool.give_back(owner);
    assert!(rt; matches!(given, Ok(2)));
    let again = pool.with(owner);
    assert!(rt; matches!(again, Err(PoolFault::Disposed { holder: None })));
    assert!(rt; pool.holder(1) == Some(32));
    Ok(())
}
