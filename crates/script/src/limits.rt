//! How many there may be.

ghost use Rattle.std.specs.Prelude.{◌≡◌, ◌≤◌, true, count_by, IfOk};
ghost use Rattle.imm_base.specs.declared.TheConstants.{LIMIT};
ghost use Rattle.plain_model.specs.declared.plain.Kind.TheVariants as kinds;
ghost use Rattle.plain_model.specs.Plain.{made};
ghost use Rattle.plain_model.specs.Sources.{is_within};
ghost use Rattle.script.specs.Limits.{seq_limit, is_short, command_is_short, few_enough, contents_fit, is_publish, may_publish};

use collections::Collection;
use imm_base::{LIMIT, Memory};
use plain_model::{CellDecl, Command, Kind, PUBLISHES_LIMIT, SEQ_LIMIT, Values, Version};
use script_line::command_values;
use std::alloc::Global;

/// The most numbers of a `seq`, and the most elements of a cell's first contents.
pub(crate) fn seq_limit(version: Version) -> u32
    ensures number { result ≡ seq_limit version }
    ensures limit { result ≤ LIMIT }
{
    match version {
        Version::One => SEQ_LIMIT,
        Version::Two => LIMIT,
    }
}

/// Whether a `seq` has at most so many numbers.
pub(crate) fn is_short(most: u32, values: &Values) -> bool
    ensures { result ≡ is_short most values.now }
{
    match values {
        Values::Seq { first: _, count } => *count <= most,
        _ => true,
    }
}

/// Whether each `seq` of a command has at most so many numbers.
#[tactic(auto, unfolding(crate::specs::Limits::command_is_short))]
pub(crate) fn command_is_short(most: u32, command: &Command) -> bool
    ensures { result ≡ command_is_short most command.now }
{
    match command_values(command) {
        Some(values) => is_short(most, values),
        None => true,
    }
}

/// Whether a list of these values has at most so many elements.
#[tactic(auto, using(crate::proofs::Contents::few_in_list))]
fn list_fits(most: u32, values: &Values) -> bool
    requires { most ≤ LIMIT }
    ensures { result ≡ few_enough most (made kinds.List values.now) }
{
    match values {
        Values::List(elements) => elements.as_slice().len() <= most as usize,
        Values::Seq { first: _, count } => *count <= most,
        Values::Pairs(_) | Values::Unset => true,
    }
}

/// Whether the collection of these values, which is made to count it, has at most so many
/// elements.
fn collection_fits(alloc: Global, most: u32, kind: Kind, values: &Values) -> Result<bool, Memory>
    requires { is_within values.now ≡ true }
    ensures { IfOk result (λ fits. fits ≡ few_enough most (made kind values.now)) }
{
    match Collection::of_values(alloc, kind, values)? {
        Ok(collection) => Ok(collection.count() <= most),
        Err(_) => Ok(false),
    }
}

/// Whether the first contents of a cell have at most so many elements.
pub(crate) fn contents_fit(alloc: Global, most: u32, cell: &CellDecl) -> Result<bool, Memory>
    requires few { most ≤ LIMIT }
    requires within { is_within cell.now.values ≡ true }
    ensures { IfOk result (λ fits. fits ≡ contents_fit most cell.now) }
{
    match cell.kind {
        Kind::List => Ok(list_fits(most, &cell.values)),
        kind => collection_fits(alloc, most, kind, &cell.values),
    }
}

#[tactic(auto, unfolding(crate::specs::Limits::is_publish))]
fn is_publish(command: &Command) -> bool
    ensures { result ≡ is_publish command.now }
{
    match command {
        Command::Publish(_, _) => true,
        _ => false,
    }
}

fn publish_count(commands: &[Command]) -> usize
    ensures { result ≡ count_by is_publish commands.now }
{
    let mut count = 0;
    for command in commands {
        if is_publish(command) {
            count += 1;
        }
    }
    count
}

/// Whether a part with these commands may have one more. It counts at most 129 times in a part,
/// since one `publish` too many ends the reading.
#[tactic(auto, unfolding(crate::specs::Limits::may_publish))]
pub(crate) fn may_publish(commands: &[Command], command: &Command) -> bool
    ensures { result ≡ may_publish commands.now command.now }
{
    match command {
        Command::Publish(_, _) => publish_count(commands) < PUBLISHES_LIMIT as usize,
        _ => true,
    }
}
