ghost use Rattle.cell_calls.specs.Calls.{PlainSuits};

use cell_calls::{CellCall, Outcome};
use collections::Collection;
use imm_base::{Dup, Edit, Memory, Val, ValEq};
use plain_model::{Kind, PlainCall, Reply};
use std::alloc::Global;
use std::test::*;

// What a copy of the call gives at an empty collection.
fn at_empty(alloc: Global, kind: Kind, call: &PlainCall) -> Result<Outcome, Memory>
    requires { PlainSuits call.now }
{
    let call = CellCall::Plain(call.dup(alloc)?).dup(alloc)?;
    call.apply(alloc, &Collection::empty(kind))
}

#[test]
fn a_key_is_added_to_an_empty_dictionary(rt: HostRuntime) -> Result<(), Fail> {
    let call = PlainCall::TryAdd(Val::Int(1), Val::Int(2));
    let outcome = at_empty(rt.alloc(), Kind::Dict(ValEq::One), &call)?;
    assert!(rt; matches!(outcome.reply, Reply::Flag(true)));
    Ok(())
}

// What a copy of a publication of an empty stack is in the plain model.
fn published(alloc: Global) -> Result<PlainCall, Memory> {
    let call = CellCall::Publish(Collection::empty(Kind::Stack)).dup(alloc)?;
    call.into_plain(alloc)
}

#[test]
fn a_collection_is_published(rt: HostRuntime) -> Result<(), Fail> {
    let call = published(rt.alloc())?;
    assert!(rt; matches!(call, PlainCall::Publish(_)));
    Ok(())
}

// What is left of an empty stack in whose place another one is published.
fn after_publish(alloc: Global) -> Result<Outcome, Memory> {
    let call = CellCall::Publish(Collection::empty(Kind::Stack));
    call.apply(alloc, &Collection::empty(Kind::Stack))
}

#[test]
fn a_published_collection_is_installed(rt: HostRuntime) -> Result<(), Fail> {
    let outcome = after_publish(rt.alloc())?;
    assert!(rt; matches!(outcome.edit, Edit::New(_)));
    Ok(())
}
