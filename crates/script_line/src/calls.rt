//! The calls on a cell that have a word of their own, with their arguments.

ghost use Rattle.std.specs.Prelude.{◌≡◌};
ghost use Rattle.script_line.specs.Words.{bytes_of};
ghost use Rattle.script_line.specs.Values.{value};
ghost use Rattle.script_line.specs.Names.{cell_name};
ghost use Rattle.script_line.specs.Arguments.{two, one_and_rest};
ghost use Rattle.script_line.specs.Calls.{transform_word, transform_of_words, transform, factory_word, making_of_words, making, call_of_words};

use crate::arguments::{cell_and_value, one_cell_name, one_integer, one_value, two_values};
use crate::codes::{Code, both_or_least};
use crate::names::cell_name;
use crate::table::entry;
use crate::values::value;
use imm_base::{Text24, Val};
use plain_model::{Command, Factory, Transform};

/// The word of such a call.
#[derive(Clone, Copy)]
pub(crate) enum CallWord {
    GetOrAdd,
    AddOrUpdate,
    TryAdd,
    TryUpdate,
    TryRemove,
    Push,
    TryPop,
    Enqueue,
    TryDequeue,
    AddOrUpdateMade,
}

/// The word of what becomes of a value.
#[derive(Clone, Copy)]
pub(crate) enum TransformWord {
    Set,
    Plus,
    Max,
}

const TRANSFORMS: [(&[u8], TransformWord); 3] = [
    (b"set", TransformWord::Set),
    (b"plus", TransformWord::Plus),
    (b"max", TransformWord::Max),
];

fn transform_word(word: &[u8]) -> Result<TransformWord, Code>
    ensures { result ≡ transform_word word.now }
{
    entry(&TRANSFORMS, word)
}

fn transform_of_words(word: TransformWord, words: &[&[u8]]) -> Result<Transform, Code>
    ensures { result ≡ transform_of_words word (bytes_of words.now) }
{
    match word {
        TransformWord::Set => one_value(words).map(Transform::Set),
        TransformWord::Plus => one_integer(words).map(Transform::Plus),
        TransformWord::Max => one_value(words).map(Transform::Max),
    }
}

/// What becomes of a value, with its word.
#[tactic(auto, unfolding(crate::specs::Calls::transform))]
fn transform(words: &[&[u8]]) -> Result<Transform, Code>
    ensures { result ≡ transform (bytes_of words.now) }
{
    match words {
        [word, rest @ ..] => match transform_word(word) {
            Ok(word) => transform_of_words(word, rest),
            Err(code) => Err(code),
        },
        [] => Err(Code::Word),
    }
}

/// The word of how a value is made.
#[derive(Clone, Copy)]
pub(crate) enum FactoryWord {
    Key,
    Const,
}

const FACTORIES: [(&[u8], FactoryWord); 2] = [
    (b"key", FactoryWord::Key),
    (b"const", FactoryWord::Const),
];

fn factory_word(word: &[u8]) -> Result<FactoryWord, Code>
    ensures { result ≡ factory_word word.now }
{
    entry(&FACTORIES, word)
}

fn making_of_words(word: FactoryWord, words: &[&[u8]]) -> Result<(Factory, Transform), Code>
    ensures { result ≡ making_of_words word (bytes_of words.now) }
{
    match word {
        FactoryWord::Key => {
            let transform = transform(words)?;
            Ok((Factory::Key, transform))
        }
        FactoryWord::Const => {
            let (value, transform) = value_and_transform(words)?;
            Ok((Factory::Const(value), transform))
        }
    }
}

/// How a value is made, and what becomes of the one that is there.
#[tactic(auto, unfolding(crate::specs::Calls::making))]
fn making(words: &[&[u8]]) -> Result<(Factory, Transform), Code>
    ensures { result ≡ making (bytes_of words.now) }
{
    match words {
        [word, rest @ ..] => match factory_word(word) {
            Ok(word) => making_of_words(word, rest),
            Err(code) => Err(code),
        },
        [] => Err(Code::Word),
    }
}

fn key_and_making(words: &[&[u8]]) -> Result<(Val, (Factory, Transform)), Code>
    ensures { result ≡ one_and_rest value making (bytes_of words.now) }
{
    match words {
        [k, rest @ ..] => both_or_least(value(k), making(rest)),
        [] => Err(Code::Word),
    }
}

fn cell_key_and_making(words: &[&[u8]]) -> Result<(Text24, (Val, (Factory, Transform))), Code>
    ensures { result ≡ one_and_rest cell_name (one_and_rest value making) (bytes_of words.now) }
{
    match words {
        [c, rest @ ..] => both_or_least(cell_name(c), key_and_making(rest)),
        [] => Err(Code::Word),
    }
}

fn three_values(words: &[&[u8]]) -> Result<(Val, (Val, Val)), Code>
    ensures { result ≡ one_and_rest value (two value value) (bytes_of words.now) }
{
    match words {
        [k, rest @ ..] => both_or_least(value(k), two_values(rest)),
        [] => Err(Code::Word),
    }
}

fn cell_and_two_values(words: &[&[u8]]) -> Result<(Text24, (Val, Val)), Code>
    ensures { result ≡ one_and_rest cell_name (two value value) (bytes_of words.now) }
{
    match words {
        [c, rest @ ..] => both_or_least(cell_name(c), two_values(rest)),
        [] => Err(Code::Word),
    }
}

fn cell_and_three_values(words: &[&[u8]]) -> Result<(Text24, (Val, (Val, Val))), Code>
    ensures { result
        ≡ one_and_rest cell_name (one_and_rest value (two value value)) (bytes_of words.now) }
{
    match words {
        [c, rest @ ..] => both_or_least(cell_name(c), three_values(rest)),
        [] => Err(Code::Word),
    }
}

fn value_and_transform(words: &[&[u8]]) -> Result<(Val, Transform), Code>
    ensures { result ≡ one_and_rest value transform (bytes_of words.now) }
{
    match words {
        [v, rest @ ..] => both_or_least(value(v), transform(rest)),
        [] => Err(Code::Word),
    }
}

fn pair_and_transform(words: &[&[u8]]) -> Result<(Val, (Val, Transform)), Code>
    ensures { result ≡ one_and_rest value (one_and_rest value transform) (bytes_of words.now) }
{
    match words {
        [k, rest @ ..] => both_or_least(value(k), value_and_transform(rest)),
        [] => Err(Code::Word),
    }
}

fn cell_pair_and_transform(words: &[&[u8]]) -> Result<(Text24, (Val, (Val, Transform))), Code>
    ensures { result
        ≡ one_and_rest cell_name (one_and_rest value (one_and_rest value transform)) (bytes_of words.now) }
{
    match words {
        [c, rest @ ..] => both_or_least(cell_name(c), pair_and_transform(rest)),
        [] => Err(Code::Word),
    }
}

/// A call with its arguments.
pub(crate) fn call_of_words(word: CallWord, words: &[&[u8]]) -> Result<Command, Code>
    ensures { result ≡ call_of_words word (bytes_of words.now) }
{
    match word {
        CallWord::GetOrAdd => {
            cell_and_two_values(words).map(|(cell, (key, value))| Command::GetOrAdd(
                cell, key, value,
            ))
        }
        CallWord::AddOrUpdate => cell_pair_and_transform(words).map(|(
            cell,
            (key, (value, transform)),
        )| Command::AddOrUpdate(cell, key, value, transform)),
        CallWord::TryAdd => {
            cell_and_two_values(words).map(|(cell, (key, value))| Command::TryAdd(cell, key, value))
        }
        CallWord::TryUpdate => cell_and_three_values(words).map(|(
            cell,
            (key, (value, wanted)),
        )| Command::TryUpdate(cell, key, value, wanted)),
        CallWord::TryRemove => {
            cell_and_value(words).map(|(cell, key)| Command::TryRemove(cell, key))
        }
        CallWord::Push => cell_and_value(words).map(|(cell, value)| Command::Push(cell, value)),
        CallWord::TryPop => one_cell_name(words).map(Command::TryPop),
        CallWord::Enqueue => {
            cell_and_value(words).map(|(cell, value)| Command::Enqueue(cell, value))
        }
        CallWord::TryDequeue => one_cell_name(words).map(Command::TryDequeue),
        CallWord::AddOrUpdateMade => cell_key_and_making(words).map(|(
            cell,
            (key, (make, transform)),
        )| Command::AddOrUpdateMade(cell, key, make, transform)),
    }
}
