//! Calls with a key, on dictionaries and sorted maps.
ghost use Rattle.std.specs.Prelude.{◌≡◌, ◌+◌, false, true, Ok, IfOk};
ghost use Rattle.imm_base.specs.declared.val.Edit.TheVariants.{New};
ghost use Rattle.imm_base.specs.Edits.{is_over};
ghost use Rattle.imm_base.specs.Order.{val_eq};
ghost use Rattle.plain_model.specs.declared.commands.PlainOp.TheVariants as ops;
ghost use Rattle.plain_model.specs.declared.commands.PlainCall.TheVariants as calls;
ghost use Rattle.plain_model.specs.Cell.{add_if_room, add_or_update, cell, get_or_add, is_map, put_unless_equal, value_in, with_value};
ghost use Rattle.plain_model.specs.Plain.{count, plain, shape_of};
ghost use Rattle.cell_calls.specs.Lookups.{IsLookup};
ghost use Rattle.cell_calls.specs.Outcomes.{GivesOther, plain_outcome};

use crate::answers::value_told;
use crate::outcome::{Outcome, answered, declined, installed, other_by};
use collections::Collection;
use imm_base::{LIMIT, Memory, Val};
use plain_model::{Factory, Kind, PlainOp, Probe, Query, Refusal, Reply, Transform};
use std::alloc::Global;

/// What a collection has at a key.
#[derive(Clone, Copy)]
pub(crate) enum Lookup {
    /// Collections of the kind have no keys.
    NoKeys,
    Absent,
    /// The key's value.
    Present(Val),
}

fn has_keys(kind: Kind) -> bool
    ensures { result ≡ is_map (shape_of kind) }
{
    match kind {
        Kind::SMap(_) | Kind::Dict(_) => true,
        _ => false,
    }
}

/// What the collection has at a key.
fn look_up(alloc: Global, old: &Collection, key: &Val) -> Result<Lookup, Memory>
    ensures { IfOk result (IsLookup key.now old.now) }
{
    if has_keys(old.kind()) {
        let answer = old.answer(alloc, &Query::Lookup(*key))?;
        return match value_told(&answer) {
            Some(value) => Ok(Lookup::Present(value)),
            None => Ok(Lookup::Absent),
        };
    }
    Ok(Lookup::NoKeys)
}

/// The value of the key, if it has one, in the time of the collection's own lookup.
pub fn value_in(alloc: Global, map: &Collection, key: &Val) -> Result<Option<Val>, Memory>
    requires { is_map (shape_of map.now.kind) ≡ true }
    ensures { IfOk result (λ found. found ≡ value_in key.now map.now) }
{
    match look_up(alloc, map, key)? {
        Lookup::Present(value) => Ok(Some(value)),
        Lookup::Absent => Ok(None),
        Lookup::NoKeys => unreachable!(),
    }
}

/// Whether one pair more would be too many.
fn is_full(old: &Collection) -> bool
    ensures { result ≡ is_over (count old.now.values + 1) }
{
    old.count() >= LIMIT
}

/// The other collection, where to set a pair gives one.
fn set_pair(alloc: Global, old: &Collection, key: &Val, value: &Val) -> Result<Collection, Memory>
    requires { GivesOther (plain (ops.SetPair key.now value.now) old.now) }
    ensures { IfOk result (λ other. plain (ops.SetPair key.now value.now) old.now ≡ Ok (New other)) }
{
    other_by(alloc, old, &PlainOp::SetPair(*key, *value))
}

/// The collection without the pair of a key that has one.
fn remove_key(alloc: Global, old: &Collection, key: &Val) -> Result<Collection, Memory>
    requires { GivesOther (plain (ops.RemoveKey key.now) old.now) }
    ensures { IfOk result (λ other. plain (ops.RemoveKey key.now) old.now ≡ Ok (New other)) }
{
    other_by(alloc, old, &PlainOp::RemoveKey(*key))
}

/// The value for a new key, with this reply, where there is room.
fn add_if_room(
    alloc: Global,
    old: &Collection,
    key: &Val,
    value: &Val,
    reply: Reply,
) -> Result<Outcome, Memory>
    requires { IsLookup key.now old.now Lookup.Absent }
    ensures { IfOk result (λ o. plain_outcome o ≡ add_if_room key.now value.now reply old.now) }
{
    if is_full(old) {
        let count = old.count();
        return Ok(answered(Reply::Refused(Refusal::TooLarge { count })));
    }
    let other = set_pair(alloc, old, key, value)?;
    Ok(installed(other, reply))
}

/// A value that does not equal this one.
fn unlike(value: &Val) -> Val
    ensures { val_eq value.now result ≡ false }
{
    let zero = Val::Int(0);
    if *value == zero {
        return Val::Int(1);
    }
    zero
}

/// The pair with this key in place of the one that has the same key, and this value. To set the value
/// that the key has would leave its spelling, so another one is set in between.
fn respelled(alloc: Global, old: &Collection, key: &Val, value: &Val) -> Result<Collection, Memory>
    requires { IsLookup key.now old.now (Lookup.Present value.now) }
    ensures { IfOk result (λ other. other ≡ with_value key.now value.now old.now) }
{
    let between = unlike(value);
    let other = set_pair(alloc, old, key, &between)?;
    let back = set_pair(alloc, &other, key, value)?;
    Ok(back)
}

/// The pair in place of the one that has the same key, which has this value.
fn replaced(
    alloc: Global,
    old: &Collection,
    key: &Val,
    found: &Val,
    value: &Val,
) -> Result<Collection, Memory>
    requires { IsLookup key.now old.now (Lookup.Present found.now) }
    ensures { IfOk result (λ other. other ≡ with_value key.now value.now old.now) }
{
    if *found == *value {
        return respelled(alloc, old, key, value);
    }
    let other = set_pair(alloc, old, key, value)?;
    Ok(other)
}

/// The value in place of the one that the key has, unless it equals that one.
fn put_unless_equal(
    alloc: Global,
    old: &Collection,
    key: &Val,
    found: &Val,
    value: &Val,
) -> Result<Outcome, Memory>
    requires { IsLookup key.now old.now (Lookup.Present found.now) }
    ensures { IfOk result (λ o. plain_outcome o
        ≡ put_unless_equal key.now found.now value.now old.now) }
{
    if *value == *found {
        return Ok(answered(Reply::Value(*value)));
    }
    let other = replaced(alloc, old, key, found, value)?;
    Ok(installed(other, Reply::Value(*value)))
}

/// The value of the key, which is added where it is absent.
pub(crate) fn get_or_add(
    alloc: Global,
    old: &Collection,
    key: &Val,
    value: &Val,
) -> Result<Outcome, Memory>
    ensures { IfOk result (λ o. plain_outcome o ≡ cell (calls.GetOrAdd key.now value.now) old.now) }
{
    let there = look_up(alloc, old, key)?;
    match there {
        Lookup::NoKeys => Ok(declined()),
        Lookup::Absent => add_if_room(alloc, old, key, value, Reply::Value(*value)),
        Lookup::Present(found) => Ok(answered(Reply::Value(found))),
    }
}

/// What becomes of the value of the key, which is added where it is absent.
pub(crate) fn add_or_update(
    alloc: Global,
    old: &Collection,
    key: &Val,
    value: &Val,
    transform: &Transform,
) -> Result<Outcome, Memory>
    ensures { IfOk result (λ o. plain_outcome o
        ≡ cell (calls.AddOrUpdate key.now value.now transform.now) old.now) }
{
    let there = look_up(alloc, old, key)?;
    match there {
        Lookup::NoKeys => Ok(declined()),
        Lookup::Absent => add_if_room(alloc, old, key, value, Reply::Value(*value)),
        Lookup::Present(found) => {
            let value = transform.on(&found);
            put_unless_equal(alloc, old, key, &found, &value)
        }
    }
}

/// Adds the value where the key is absent.
pub(crate) fn try_add(
    alloc: Global,
    old: &Collection,
    key: &Val,
    value: &Val,
) -> Result<Outcome, Memory>
    ensures { IfOk result (λ o. plain_outcome o ≡ cell (calls.TryAdd key.now value.now) old.now) }
{
    let there = look_up(alloc, old, key)?;
    match there {
        Lookup::NoKeys => Ok(declined()),
        Lookup::Absent => add_if_room(alloc, old, key, value, Reply::Flag(true)),
        Lookup::Present(_) => Ok(answered(Reply::Flag(false))),
    }
}

/// Another value for the key, where it has the wanted one.
pub(crate) fn try_update(
    alloc: Global,
    old: &Collection,
    key: &Val,
    value: &Val,
    wanted: &Val,
) -> Result<Outcome, Memory>
    ensures { IfOk result (λ o. plain_outcome o
        ≡ cell (calls.TryUpdate key.now value.now wanted.now) old.now) }
{
    let there = look_up(alloc, old, key)?;
    match there {
        Lookup::Present(found) => {
            if found == *wanted {
                let other = replaced(alloc, old, key, &found, value)?;
                return Ok(installed(other, Reply::Flag(true)));
            }
            Ok(declined())
        }
        Lookup::Absent => Ok(declined()),
        Lookup::NoKeys => Ok(declined()),
    }
}

/// Takes the pair of the key out.
pub(crate) fn try_remove(alloc: Global, old: &Collection, key: &Val) -> Result<Outcome, Memory>
    ensures { IfOk result (λ o. plain_outcome o ≡ cell (calls.TryRemove key.now) old.now) }
{
    let there = look_up(alloc, old, key)?;
    match there {
        Lookup::NoKeys => Ok(declined()),
        Lookup::Absent => Ok(answered(Reply::Missing)),
        Lookup::Present(found) => {
            let rest = remove_key(alloc, old, key)?;
            Ok(installed(rest, Reply::Taken(found)))
        }
    }
}

/// The value of the key, which is made and added where it is absent.
pub(crate) fn get_or_add_made(
    alloc: Global,
    old: &Collection,
    key: &Val,
    make: &Factory,
    probe: &Probe,
) -> Result<Outcome, Memory>
    ensures { IfOk result (λ o. plain_outcome o
        ≡ cell (calls.GetOrAddMade key.now make.now probe.now) old.now) }
{
    if let Probe::Ran { position: _ } = probe {
        return get_or_add(alloc, old, key, &make.on(key));
    }
    let there = look_up(alloc, old, key)?;
    match there {
        Lookup::Present(found) => Ok(answered(Reply::Value(found))),
        Lookup::Absent => Ok(declined()),
        Lookup::NoKeys => Ok(declined()),
    }
}
