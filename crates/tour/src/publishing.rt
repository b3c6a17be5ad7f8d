//! A list that is built in place and published.
use builders::ListBuilder;
use imm_base::Val;
use imm_list::{ImmList, ListFault};
use std::alloc::Global;

/// The ports as they were published first, and as they were after one more change.
pub fn editions(alloc: Global) -> Result<(ImmList<Val>, ImmList<Val>), ListFault> {
    let mut ports = ListBuilder::from(&ImmList::new())?;
    ports.add(alloc, Val::Int(80))?;
    ports.add(alloc, Val::Int(443))?;
    let first = ports.to_immutable(alloc)?;
    ports.set_item(alloc, 0, Val::Int(8080))?;
    let second = ports.to_immutable(alloc)?;
    Ok((first, second))
}

/// The first port of both editions.
pub fn first_of_both(alloc: Global) -> Result<(Val, Val), ListFault> {
    let (first, second) = editions(alloc)?;
    Ok((*first.get(0)?, *second.get(0)?))
}
