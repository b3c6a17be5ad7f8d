//! The changing operations, each with its word and its arguments.

ghost use Rattle.std.specs.Prelude.{◌≡◌, IfOk};
ghost use Rattle.script_line.specs.Words.{bytes_of};
ghost use Rattle.script_line.specs.Sources.{source_of};
ghost use Rattle.script_line.specs.Values.{number};
ghost use Rattle.script_line.specs.Arguments.{one_and_rest};
ghost use Rattle.plain_model.specs.declared.kinds.ItemKind.TheVariants as item_kinds;
ghost use Rattle.script_line.specs.Operations.{op_word, plain_op, op_of_words, op};

use crate::arguments::{
    no_word, number_and_value, one_number, one_order, one_value, test_and_value, two_numbers,
    two_values,
};
use crate::codes::{Code, both_or_least};
use crate::comparers::test_of;
use crate::sources::{Scope, Source, source_of};
use crate::table::entry;
use crate::values::number;
use imm_base::{Memory, Text24};
use plain_model::{ItemKind, PlainOp};
use std::alloc::Global;

/// The word of a changing operation.
#[derive(Clone, Copy)]
pub(crate) enum OpWord {
    Add,
    AddRange,
    Insert,
    InsertRange,
    RemoveAt,
    RemoveRange,
    Remove,
    RemoveAll,
    Replace,
    SetItem,
    GetRange,
    Reverse,
    Sort,
    Union,
    Intersect,
    Except,
    SymExcept,
    AddPair,
    AddPairs,
    SetPair,
    SetPairs,
    RemoveKey,
    RemoveKeys,
    Push,
    Pop,
    Enqueue,
    Dequeue,
    Clear,
}

/// A changing operation, with the name of the local collection that gives its values.
#[derive(Drop)]
pub(crate) struct OpWithSource {
    pub op: PlainOp,
    pub from: Option<Text24>,
}

const OPERATIONS: [(&[u8], OpWord); 28] = [
    (b"add", OpWord::Add),
    (b"addrange", OpWord::AddRange),
    (b"insert", OpWord::Insert),
    (b"insertrange", OpWord::InsertRange),
    (b"removeat", OpWord::RemoveAt),
    (b"removerange", OpWord::RemoveRange),
    (b"remove", OpWord::Remove),
    (b"removeall", OpWord::RemoveAll),
    (b"replace", OpWord::Replace),
    (b"setitem", OpWord::SetItem),
    (b"getrange", OpWord::GetRange),
    (b"reverse", OpWord::Reverse),
    (b"sort", OpWord::Sort),
    (b"union", OpWord::Union),
    (b"intersect", OpWord::Intersect),
    (b"except", OpWord::Except),
    (b"symexcept", OpWord::SymExcept),
    (b"addpair", OpWord::AddPair),
    (b"addpairs", OpWord::AddPairs),
    (b"setpair", OpWord::SetPair),
    (b"setpairs", OpWord::SetPairs),
    (b"removekey", OpWord::RemoveKey),
    (b"removekeys", OpWord::RemoveKeys),
    (b"push", OpWord::Push),
    (b"pop", OpWord::Pop),
    (b"enqueue", OpWord::Enqueue),
    (b"dequeue", OpWord::Dequeue),
    (b"clear", OpWord::Clear),
];

fn op_word(word: &[u8]) -> Result<OpWord, Code>
    ensures { result ≡ op_word word.now }
{
    entry(&OPERATIONS, word)
}

/// An operation whose words have a fixed number.
fn plain_op(word: OpWord, words: &[&[u8]]) -> Result<PlainOp, Code>
    ensures { result ≡ plain_op word (bytes_of words.now) }
{
    match word {
        OpWord::Add => one_value(words).map(PlainOp::Add),
        OpWord::Insert => number_and_value(words).map(|(i, value)| PlainOp::Insert(i, value)),
        OpWord::RemoveAt => one_number(words).map(PlainOp::RemoveAt),
        OpWord::RemoveRange => two_numbers(words).map(|(i, count)| PlainOp::RemoveRange(i, count)),
        OpWord::Remove => one_value(words).map(PlainOp::Remove),
        OpWord::RemoveAll => {
            test_and_value(words).map(|(test, value)| PlainOp::RemoveAll(test_of(test, value)))
        }
        OpWord::Replace => two_values(words).map(|(old, value)| PlainOp::Replace(old, value)),
        OpWord::SetItem => number_and_value(words).map(|(i, value)| PlainOp::SetItem(i, value)),
        OpWord::GetRange => two_numbers(words).map(|(i, count)| PlainOp::GetRange(i, count)),
        OpWord::Reverse => no_word(words).map(|()| PlainOp::Reverse),
        OpWord::Sort => one_order(words).map(PlainOp::Sort),
        OpWord::AddPair => two_values(words).map(|(key, value)| PlainOp::AddPair(key, value)),
        OpWord::SetPair => two_values(words).map(|(key, value)| PlainOp::SetPair(key, value)),
        OpWord::RemoveKey => one_value(words).map(PlainOp::RemoveKey),
        OpWord::Push => one_value(words).map(PlainOp::Push),
        OpWord::Pop => no_word(words).map(|()| PlainOp::Pop),
        OpWord::Enqueue => one_value(words).map(PlainOp::Enqueue),
        OpWord::Dequeue => no_word(words).map(|()| PlainOp::Dequeue),
        OpWord::Clear => no_word(words).map(|()| PlainOp::Clear),
        _ => Err(Code::Word),
    }
}

/// A number, and values to the end of the line.
fn number_and_elements(
    alloc: Global,
    scope: Scope,
    words: &[&[u8]],
) -> Result<Result<(u32, Source), Code>, Memory>
    ensures { IfOk result (λ read. read
        ≡ one_and_rest number (source_of scope item_kinds.Elements) (bytes_of words.now)) }
{
    match words {
        [n, rest @ ..] => {
            let source = source_of(alloc, scope, ItemKind::Elements, rest)?;
            Ok(both_or_least(number(n), source))
        }
        [] => Ok(Err(Code::Word)),
    }
}

/// An operation with its arguments, which may go to the end of the line.
fn op_of_words(
    alloc: Global,
    scope: Scope,
    word: OpWord,
    words: &[&[u8]],
) -> Result<Result<OpWithSource, Code>, Memory>
    ensures { IfOk result (λ read. read ≡ op_of_words scope word (bytes_of words.now)) }
{
    match word {
        OpWord::AddRange => Ok(source_of(alloc, scope, ItemKind::Elements, words)?.map(
            |s| OpWithSource {
                op: PlainOp::AddRange(s.values),
                from: s.from,
            },
        )),
        OpWord::Union => Ok(source_of(alloc, scope, ItemKind::Elements, words)?.map(
            |s| OpWithSource {
                op: PlainOp::Union(s.values),
                from: s.from,
            },
        )),
        OpWord::Intersect => Ok(source_of(alloc, scope, ItemKind::Elements, words)?.map(
            |s| OpWithSource {
                op: PlainOp::Intersect(s.values),
                from: s.from,
            },
        )),
        OpWord::Except => Ok(source_of(alloc, scope, ItemKind::Elements, words)?.map(
            |s| OpWithSource {
                op: PlainOp::Except(s.values),
                from: s.from,
            },
        )),
        OpWord::SymExcept => Ok(source_of(alloc, scope, ItemKind::Elements, words)?.map(
            |s| OpWithSource {
                op: PlainOp::SymExcept(s.values),
                from: s.from,
            },
        )),
        OpWord::AddPairs => Ok(source_of(alloc, scope, ItemKind::Pairs, words)?.map(
            |s| OpWithSource {
                op: PlainOp::AddPairs(s.values),
                from: s.from,
            },
        )),
        OpWord::SetPairs => Ok(source_of(alloc, scope, ItemKind::Pairs, words)?.map(
            |s| OpWithSource {
                op: PlainOp::SetPairs(s.values),
                from: s.from,
            },
        )),
        OpWord::RemoveKeys => Ok(source_of(alloc, scope, ItemKind::Elements, words)?.map(
            |s| OpWithSource {
                op: PlainOp::RemoveKeys(s.values),
                from: s.from,
            },
        )),
        OpWord::InsertRange => {
            Ok(number_and_elements(alloc, scope, words)?.map(|(i, s)| OpWithSource {
                op: PlainOp::InsertRange(i, s.values),
                from: s.from,
            }))
        }
        _ => Ok(plain_op(word, words).map(|op| OpWithSource { op, from: None })),
    }
}

/// An operation, with its word.
#[tactic(auto, unfolding(crate::specs::Operations::op))]
pub(crate) fn op(
    alloc: Global,
    scope: Scope,
    words: &[&[u8]],
) -> Result<Result<OpWithSource, Code>, Memory>
    ensures { IfOk result (λ read. read ≡ op scope (bytes_of words.now)) }
{
    match words {
        [word, rest @ ..] => match op_word(word) {
            Ok(word) => op_of_words(alloc, scope, word, rest),
            Err(code) => Ok(Err(code)),
        },
        [] => Ok(Err(Code::Word)),
    }
}
