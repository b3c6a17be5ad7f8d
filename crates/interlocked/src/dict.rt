//! Calls on a dictionary.
ghost use Rattle.std.specs.Prelude.{◌≡◌, ◌+◌, IfOk, Some, length, true, false, if◌then◌else◌};
ghost use Rattle.imm_base.specs.Edits.{is_over};
ghost use Rattle.plain_model.specs.declared.commands.PlainCall.TheVariants as calls;
ghost use Rattle.plain_model.specs.declared.history.Reply.TheVariants.{Flag, Taken};
ghost use Rattle.plain_model.specs.Cell.{add_if_room, install_and_reply, put_unless_equal, reply_only, value_in, with_value, without_value};
ghost use Rattle.interlocked.specs.Meanings.{dict_call, dict_plain};
ghost use Rattle.interlocked.specs.Outcomes.{Applies, IsOutcome};

use crate::change::{Change, Outcome, Share};
use crate::outcomes::{answered, refused};
use imm_base::{Dup, Edit, LIMIT, Memory, Val, ValEq};
use imm_dictionary::Dict;
use plain_model::{Factory, Probe, Refusal, Reply, Transform};
use std::alloc::Global;

/// A call on a cell with a dictionary.
#[derive(Clone, Copy, Debug)]
pub enum DictCall {
    GetOrAdd {
        key: Val,
        value: Val,
    },
    AddOrUpdate {
        key: Val,
        value: Val,
        transform: Transform,
    },
    TryAdd {
        key: Val,
        value: Val,
    },
    TryUpdate {
        key: Val,
        value: Val,
        /// What the key is to have now.
        comparison: Val,
    },
    TryRemove {
        key: Val,
    },
    GetOrAddMade {
        key: Val,
        make: Factory,
        probe: Probe,
    },
    AddOrUpdateMade {
        key: Val,
        make: Factory,
        transform: Transform,
    },
}

type Map = Dict<Val, Val, ValEq>;

impl Share for Dict<Val, Val, ValEq> {
    ghost plain = { dict_plain };

    fn share(&self) -> Result<Self, Memory> {
        self.share()
    }
}

impl Dup for DictCall {
    fn dup(&self, _: Global) -> Result<Self, Memory> {
        Ok(*self)
    }
}

impl Change<Dict<Val, Val, ValEq>> for DictCall {
    ghost meaning = { dict_call };

    ghost suits = { λ _ _. Unit {0} };

    fn apply(
        &self,
        alloc: Global,
        old: &Dict<Val, Val, ValEq>,
    ) -> Result<Outcome<Dict<Val, Val, ValEq>>, Memory> {
        match self {
            DictCall::GetOrAdd { key, value } => get_or_add(alloc, old, key, value),
            DictCall::AddOrUpdate {
                key,
                value,
                transform,
            } => add_or_update(alloc, old, key, value, transform),
            DictCall::TryAdd { key, value } => try_add(alloc, old, key, value),
            DictCall::TryUpdate {
                key,
                value,
                comparison,
            } => try_update(alloc, old, key, value, comparison),
            DictCall::TryRemove { key } => try_remove(alloc, old, key),
            DictCall::GetOrAddMade { key, make, probe } => {
                get_or_add_made(alloc, old, key, make, probe)
            }
            DictCall::AddOrUpdateMade {
                key,
                make,
                transform,
            } => add_or_update(alloc, old, key, &make.on(key), transform),
        }
    }
}

/// The value of the key, if it has one.
pub(crate) fn value_in(old: &Map, key: &Val) -> Option<Val>
    ensures { result ≡ value_in key.now (dict_plain old.now) }
{
    old.get(key).copied()
}

/// The value in place of the one that the key has, or for a new key, with this reply.
fn put(
    alloc: Global,
    old: &Map,
    key: &Val,
    value: &Val,
    reply: Reply,
) -> Result<Outcome<Map>, Memory>
    ensures { IfOk result (IsOutcome dict_plain (dict_plain old.now).kind
        (install_and_reply (with_value key.now value.now (dict_plain old.now)) reply)) }
{
    let map = old.with(alloc, *key, *value)?;
    Ok(Outcome {
        edit: Edit::New(map),
        reply,
    })
}

/// Whether one pair more would be too many.
fn is_full(old: &Map) -> bool
    ensures { result ≡ is_over (length old.now.pairs + 1) }
{
    old.count() >= LIMIT
}

/// The value for a new key, with this reply, where there is room.
fn add_if_room(
    alloc: Global,
    old: &Map,
    key: &Val,
    value: &Val,
    reply: Reply,
) -> Result<Outcome<Map>, Memory>
    ensures { IfOk result (IsOutcome dict_plain (dict_plain old.now).kind
        (add_if_room key.now value.now reply (dict_plain old.now))) }
{
    if is_full(old) {
        let count = old.count();
        return Ok(refused(Refusal::TooLarge { count }));
    }
    put(alloc, old, key, value, reply)
}

/// The value in place of the one that the key has, unless it equals that one.
fn put_unless_equal(
    alloc: Global,
    old: &Map,
    key: &Val,
    found: &Val,
    value: &Val,
) -> Result<Outcome<Map>, Memory>
    ensures { IfOk result (IsOutcome dict_plain (dict_plain old.now).kind
        (put_unless_equal key.now found.now value.now (dict_plain old.now))) }
{
    if *value == *found {
        return Ok(answered(Reply::Value(*value)));
    }
    put(alloc, old, key, value, Reply::Value(*value))
}

/// The value in place of the one that the key has, where that was found to be the wanted one.
fn put_where(
    alloc: Global,
    old: &Map,
    key: &Val,
    value: &Val,
    is_wanted: bool,
) -> Result<Outcome<Map>, Memory>
    ensures { IfOk result (IsOutcome dict_plain (dict_plain old.now).kind (
        if is_wanted
        then install_and_reply (with_value key.now value.now (dict_plain old.now)) (Flag true)
        else reply_only (Flag false))) }
{
    if is_wanted {
        return put(alloc, old, key, value, Reply::Flag(true));
    }
    Ok(answered(Reply::Flag(false)))
}

/// The dictionary without the pair of the key, which has this value.
fn take(alloc: Global, old: &Map, key: &Val, value: Val) -> Result<Outcome<Map>, Memory>
    requires { value_in key.now (dict_plain old.now) ≡ Some value }
    ensures { IfOk result (IsOutcome dict_plain (dict_plain old.now).kind
        (install_and_reply (without_value key.now (dict_plain old.now)) (Taken value))) }
{
    let rest = old.reduced(alloc, key)?;
    Ok(Outcome {
        edit: Edit::New(rest),
        reply: Reply::Taken(value),
    })
}

fn get_or_add(alloc: Global, old: &Map, key: &Val, value: &Val) -> Result<Outcome<Map>, Memory>
    ensures { IfOk result
        (Applies dict_plain (calls.GetOrAdd key.now value.now) (dict_plain old.now)) }
{
    match value_in(old, key) {
        Some(found) => Ok(answered(Reply::Value(found))),
        None => add_if_room(alloc, old, key, value, Reply::Value(*value)),
    }
}

fn add_or_update(
    alloc: Global,
    old: &Map,
    key: &Val,
    value: &Val,
    transform: &Transform,
) -> Result<Outcome<Map>, Memory>
    ensures { IfOk result
        (Applies dict_plain (calls.AddOrUpdate key.now value.now transform.now) (dict_plain old.now)) }
{
    match value_in(old, key) {
        Some(found) => {
            let new = transform.on(&found);
            put_unless_equal(alloc, old, key, &found, &new)
        }
        None => add_if_room(alloc, old, key, value, Reply::Value(*value)),
    }
}

fn try_add(alloc: Global, old: &Map, key: &Val, value: &Val) -> Result<Outcome<Map>, Memory>
    ensures { IfOk result
        (Applies dict_plain (calls.TryAdd key.now value.now) (dict_plain old.now)) }
{
    match value_in(old, key) {
        Some(_) => Ok(answered(Reply::Flag(false))),
        None => add_if_room(alloc, old, key, value, Reply::Flag(true)),
    }
}

fn try_update(
    alloc: Global,
    old: &Map,
    key: &Val,
    value: &Val,
    comparison: &Val,
) -> Result<Outcome<Map>, Memory>
    ensures { IfOk result
        (Applies dict_plain (calls.TryUpdate key.now value.now comparison.now) (dict_plain old.now)) }
{
    match value_in(old, key) {
        Some(found) => put_where(alloc, old, key, value, found == *comparison),
        None => Ok(answered(Reply::Flag(false))),
    }
}

fn try_remove(alloc: Global, old: &Map, key: &Val) -> Result<Outcome<Map>, Memory>
    ensures { IfOk result (Applies dict_plain (calls.TryRemove key.now) (dict_plain old.now)) }
{
    match value_in(old, key) {
        Some(found) => take(alloc, old, key, found),
        None => Ok(answered(Reply::Missing)),
    }
}

fn get_or_add_made(
    alloc: Global,
    old: &Map,
    key: &Val,
    make: &Factory,
    probe: &Probe,
) -> Result<Outcome<Map>, Memory>
    ensures { IfOk result
        (Applies dict_plain (calls.GetOrAddMade key.now make.now probe.now) (dict_plain old.now)) }
{
    if let Probe::Ran { position: _ } = probe {
        return get_or_add(alloc, old, key, &make.on(key));
    }
    match value_in(old, key) {
        Some(found) => Ok(answered(Reply::Value(found))),
        None => Ok(answered(Reply::Flag(false))),
    }
}
