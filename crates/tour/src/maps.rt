//! Dictionaries, and their frozen form.
use frozen_sets::FrozenMap;
use imm_base::{Edit, MapFault, Memory, Val, ValEq};
use imm_dictionary::Dict;
use std::alloc::Global;

/// Which pool of machines serves a port.
pub type Routes = Dict<Val, Val, ValEq>;

/// The routes with this one, and the pool that serves the port then: the one that it had, or this one.
pub fn get_or_add(
    alloc: Global,
    routes: &Routes,
    port: Val,
    pool: Val,
) -> Result<(Routes, Val), MapFault<Val>> {
    match routes.add(alloc, port, pool) {
        Ok(Edit::New(more)) => Ok((more, pool)),
        Ok(Edit::Same) => Ok((routes.share()?, pool)),
        Err(MapFault::KeyExists { old }) => Ok((routes.share()?, old)),
        Err(fault) => Err(fault),
    }
}

/// The pools of one port, asked for twice.
pub fn pools(alloc: Global) -> Result<(Val, Val), MapFault<Val>> {
    let none = Routes::new(ValEq::Ordinal);
    let (one, first) = get_or_add(alloc, &none, Val::Int(80), Val::Int(1))?;
    let (_, second) = get_or_add(alloc, &one, Val::Int(80), Val::Int(2))?;
    Ok((first, second))
}

/// What a frozen map has at a key that stands twice among its pairs.
pub fn frozen_pool(alloc: Global) -> Result<Option<Val>, Memory> {
    let pairs = [
        (Val::Int(80), Val::Int(1)),
        (Val::Int(443), Val::Int(2)),
        (Val::Int(80), Val::Int(3)),
    ];
    let frozen = FrozenMap::from_list(alloc, &pairs, ValEq::Ordinal)?;
    Ok(frozen.get(&Val::Int(80)).copied())
}
