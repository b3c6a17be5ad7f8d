//! Answers to questions.
ghost use Rattle.std.specs.Prelude.{◌≡◌, IfOk, map, take};
ghost use Rattle.std.specs.Option.{option_copied};
ghost use Rattle.plain_model.specs.Queries.{place_or_none, value_or, value_or_none};

use avl_node::Tree;
use imm_base::{Item, Memory, Val};
use plain_model::{Answer, SHOWN_LIMIT};
use std::alloc::Global;

/// The value that was found, or else the other answer.
pub(crate) fn value_or(other: Answer, found: Option<&Val>) -> Answer
    ensures { result ≡ value_or other (option_copied found.entry) }
{
    match found {
        Some(value) => Answer::Value(*value),
        None => other,
    }
}

/// The value that was found, if there is one.
pub(crate) fn value_or_none(found: Option<&Val>) -> Answer
    ensures { result ≡ value_or_none (option_copied found.entry) }
{
    value_or(Answer::Missing, found)
}

/// The place that was found, or -1.
pub(crate) fn place_or_none(found: Option<u32>) -> Answer
    ensures { result ≡ place_or_none found }
{
    Answer::Index(found.map_or(-1, i64::from))
}

/// Copies of at most the first 16 elements.
pub(crate) fn first_of<T: Item>(alloc: Global, tree: &Tree<T>) -> Result<Vec<T>, Memory>
    ensures { IfOk result (λ v. v.items ≡ take 16 tree.now.items) }
{
    if tree.count() <= SHOWN_LIMIT {
        tree.to_vec(alloc)
    } else {
        tree.take(alloc, SHOWN_LIMIT)?.to_vec(alloc)
    }
}

/// At most the first 16 of these.
pub(crate) fn first_in<T: Copy>(alloc: Global, elements: &[T]) -> Result<Vec<T>, Memory>
    ensures { IfOk result (λ v. v.items ≡ take 16 elements.now) }
{
    if elements.len() <= SHOWN_LIMIT as usize {
        Ok(Vec::from_slice(alloc, elements)?)
    } else {
        Ok(Vec::from_slice(alloc, &elements[..SHOWN_LIMIT as usize])?)
    }
}

/// The keys of pairs.
pub(crate) fn keys(alloc: Global, pairs: Vec<(Val, Val)>) -> Result<Vec<Val>, Memory>
    ensures { IfOk result (λ v. v.items ≡ map (λ e. e.0) pairs.items) }
{
    let keys = pairs.into_iter().map(|pair| pair.0).collect(alloc)?;
    Ok(keys)
}

/// The values of pairs.
pub(crate) fn values(alloc: Global, pairs: Vec<(Val, Val)>) -> Result<Vec<Val>, Memory>
    ensures { IfOk result (λ v. v.items ≡ map (λ e. e.1) pairs.items) }
{
    let values = pairs.into_iter().map(|pair| pair.1).collect(alloc)?;
    Ok(values)
}
