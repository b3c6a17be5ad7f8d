//! The values at the end of a line, or the local collection that gives them.

ghost use Rattle.std.specs.Prelude.{◌≡◌, IfOk};
ghost use Rattle.script_line.specs.Words.{bytes_of};
ghost use Rattle.script_line.specs.Values.{value, pair};
ghost use Rattle.script_line.specs.Sources.{each, items, sequence, seq_words, values_of, source_in_line, source_from, source_of};

use crate::codes::{Code, both_or_least};
use crate::names::local_name;
use crate::values::{integer, number, pair, value};
use imm_base::{Memory, Text24, Val};
use plain_model::{ItemKind, Listed, Values};
use std::alloc::Global;

/// Where values stand.
#[derive(Clone, Copy)]
pub(crate) enum Scope {
    /// In a line on a cell: they are written out.
    Cell,
    /// In a local command: a local collection may give them.
    Local,
}

/// Values, or none and the name of the local collection that gives them.
#[derive(Drop)]
pub(crate) struct Source {
    pub values: Values,
    pub from: Option<Text24>,
}

/// Values, one after another.
#[tactic(auto, using(crate::proofs::Listing::listing))]
fn elements(alloc: Global, words: &[&[u8]]) -> Result<Result<Listed<Val>, Code>, Memory>
    ensures { IfOk result (λ read. read ≡ each value (bytes_of words.now)) }
{
    let mut found = Listed::new(alloc);
    for word in words {
        match value(word) {
            Ok(value) => found.push(value)?,
            Err(code) => return Ok(Err(code)),
        }
    }
    Ok(Ok(found))
}

/// Pairs, one after another.
#[tactic(auto, using(crate::proofs::Listing::listing))]
fn pairs(alloc: Global, words: &[&[u8]]) -> Result<Result<Listed<(Val, Val)>, Code>, Memory>
    ensures { IfOk result (λ read. read ≡ each pair (bytes_of words.now)) }
{
    let mut found = Listed::new(alloc);
    for word in words {
        match pair(word) {
            Ok(pair) => found.push(pair)?,
            Err(code) => return Ok(Err(code)),
        }
    }
    Ok(Ok(found))
}

fn items(alloc: Global, item: ItemKind, words: &[&[u8]]) -> Result<Result<Values, Code>, Memory>
    ensures { IfOk result (λ read. read ≡ items item (bytes_of words.now)) }
{
    match item {
        ItemKind::Elements => Ok(elements(alloc, words)?.map(Values::List)),
        ItemKind::Pairs => Ok(pairs(alloc, words)?.map(Values::Pairs)),
    }
}

fn sequence(first: i64, count: u32) -> Result<Values, Code>
    ensures { result ≡ sequence first count }
{
    if i128::from(first) + i128::from(count) <= 1 << 63 {
        Ok(Values::Seq { first, count })
    } else {
        Err(Code::Value)
    }
}

fn seq_words(words: &[&[u8]]) -> Result<Values, Code>
    ensures { result ≡ seq_words (bytes_of words.now) }
{
    match words {
        [first, count] => {
            let (first, count) = both_or_least(integer(first), number(count))?;
            sequence(first, count)
        }
        _ => Err(Code::Word),
    }
}

fn values_of(alloc: Global, item: ItemKind, words: &[&[u8]]) -> Result<Result<Values, Code>, Memory>
    ensures { IfOk result (λ read. read ≡ values_of item (bytes_of words.now)) }
{
    match words {
        [] => items(alloc, item, words),
        [first, rest @ ..] => {
            if *first == b"seq".as_slice() {
                Ok(seq_words(rest))
            } else {
                items(alloc, item, words)
            }
        }
    }
}

/// The values that the words themselves write.
fn source_in_line(
    alloc: Global,
    item: ItemKind,
    words: &[&[u8]],
) -> Result<Result<Source, Code>, Memory>
    ensures { IfOk result (λ read. read ≡ source_in_line item (bytes_of words.now)) }
{
    Ok(values_of(alloc, item, words)?.map(|values| Source { values, from: None }))
}

/// The local collection that gives the values, where no cell takes them.
fn source_from(alloc: Global, scope: Scope, words: &[&[u8]]) -> Result<Source, Code>
    ensures { result ≡ source_from scope (bytes_of words.now) }
{
    match (scope, words) {
        (Scope::Local, [name]) => local_name(name).map(|name| Source {
            values: Values::List(Listed::new(alloc)),
            from: Some(name),
        }),
        _ => Err(Code::Word),
    }
}

/// The values to the end of the line.
pub(crate) fn source_of(
    alloc: Global,
    scope: Scope,
    item: ItemKind,
    words: &[&[u8]],
) -> Result<Result<Source, Code>, Memory>
    ensures { IfOk result (λ read. read ≡ source_of scope item (bytes_of words.now)) }
{
    match words {
        [] => source_in_line(alloc, item, words),
        [first, rest @ ..] => {
            if *first == b"from".as_slice() {
                Ok(source_from(alloc, scope, rest))
            } else {
                source_in_line(alloc, item, words)
            }
        }
    }
}
