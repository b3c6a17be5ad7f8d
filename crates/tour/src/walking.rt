//! A walk, whose place stands in a pool.
use enumerators::{Rest, Walk, WalkFault, Walked};
use imm_base::{Memory, Val};
use imm_list::ImmList;
use plain_model::Elem;
use stack_pool::Pool;
use std::alloc::Global;

/// The first element that a walk comes to, and the one that it comes to after the walk was set back.
pub fn first_twice(
    pool: &mut Pool<Rest>,
    rest: Rest,
    version: u64,
) -> Result<(Option<Elem>, Option<Elem>), WalkFault> {
    let walk = Walk::start(rest, version, pool)?;
    let first = walk.next(pool, version)?;
    walk.reset(pool, version)?;
    let again = walk.next(pool, version)?;
    walk.dispose(pool)?;
    Ok((first, again))
}

/// Walks along the ports.
pub fn first_port_twice(
    alloc: Global,
    ports: &mut ImmList<Val>,
) -> Result<Result<(Option<Elem>, Option<Elem>), WalkFault>, Memory> {
    let mut pool = Pool::make(alloc)?;
    let rest = ports.rest(alloc)?;
    Ok(first_twice(&mut pool, rest, ports.version()))
}
