//! The questions, each with its word and its arguments.

ghost use Rattle.std.specs.Prelude.{◌≡◌, IfOk};
ghost use Rattle.script_line.specs.Words.{bytes_of};
ghost use Rattle.script_line.specs.Queries.{query_word, plain_query, query_of_words, query};

use crate::arguments::{no_word, one_number, one_value, order_and_value};
use crate::codes::Code;
use crate::sources::{Scope, source_of};
use crate::table::entry;
use imm_base::{Memory, Text24};
use plain_model::{ItemKind, Query};
use std::alloc::Global;

/// The word of a question.
#[derive(Clone, Copy)]
pub(crate) enum QueryWord {
    Count,
    Get,
    IndexOf,
    LastIndexOf,
    Search,
    Contains,
    Actual,
    Min,
    Max,
    Subset,
    Superset,
    ProperSubset,
    ProperSuperset,
    Overlaps,
    SetEquals,
    Lookup,
    KeyOf,
    HasValue,
    Keys,
    Values,
    Peek,
    Strategy,
}

/// A question, with the name of the local collection that gives its values.
#[derive(Drop)]
pub(crate) struct QueryWithSource {
    pub query: Query,
    pub from: Option<Text24>,
}

const QUESTIONS: [(&[u8], QueryWord); 22] = [
    (b"count", QueryWord::Count),
    (b"get", QueryWord::Get),
    (b"indexof", QueryWord::IndexOf),
    (b"lastindexof", QueryWord::LastIndexOf),
    (b"search", QueryWord::Search),
    (b"contains", QueryWord::Contains),
    (b"actual", QueryWord::Actual),
    (b"min", QueryWord::Min),
    (b"max", QueryWord::Max),
    (b"subset", QueryWord::Subset),
    (b"superset", QueryWord::Superset),
    (b"propersubset", QueryWord::ProperSubset),
    (b"propersuperset", QueryWord::ProperSuperset),
    (b"overlaps", QueryWord::Overlaps),
    (b"setequals", QueryWord::SetEquals),
    (b"lookup", QueryWord::Lookup),
    (b"keyof", QueryWord::KeyOf),
    (b"hasvalue", QueryWord::HasValue),
    (b"keys", QueryWord::Keys),
    (b"values", QueryWord::Values),
    (b"peek", QueryWord::Peek),
    (b"strategy", QueryWord::Strategy),
];

fn query_word(word: &[u8]) -> Result<QueryWord, Code>
    ensures { result ≡ query_word word.now }
{
    entry(&QUESTIONS, word)
}

/// A question whose words have a fixed number.
fn plain_query(word: QueryWord, words: &[&[u8]]) -> Result<Query, Code>
    ensures { result ≡ plain_query word (bytes_of words.now) }
{
    match word {
        QueryWord::Count => no_word(words).map(|()| Query::Count),
        QueryWord::Get => one_number(words).map(Query::Get),
        QueryWord::IndexOf => one_value(words).map(Query::IndexOf),
        QueryWord::LastIndexOf => one_value(words).map(Query::LastIndexOf),
        QueryWord::Search => {
            order_and_value(words).map(|(order, value)| Query::Search(order, value))
        }
        QueryWord::Contains => one_value(words).map(Query::Contains),
        QueryWord::Actual => one_value(words).map(Query::Actual),
        QueryWord::Min => no_word(words).map(|()| Query::Min),
        QueryWord::Max => no_word(words).map(|()| Query::Max),
        QueryWord::Lookup => one_value(words).map(Query::Lookup),
        QueryWord::KeyOf => one_value(words).map(Query::KeyOf),
        QueryWord::HasValue => one_value(words).map(Query::HasValue),
        QueryWord::Keys => no_word(words).map(|()| Query::Keys),
        QueryWord::Values => no_word(words).map(|()| Query::Values),
        QueryWord::Peek => no_word(words).map(|()| Query::Peek),
        QueryWord::Strategy => no_word(words).map(|()| Query::Strategy),
        _ => Err(Code::Word),
    }
}

/// A question with its arguments, which may go to the end of the line.
fn query_of_words(
    alloc: Global,
    word: QueryWord,
    words: &[&[u8]],
) -> Result<Result<QueryWithSource, Code>, Memory>
    ensures { IfOk result (λ read. read ≡ query_of_words word (bytes_of words.now)) }
{
    match word {
        QueryWord::Subset => Ok(source_of(alloc, Scope::Local, ItemKind::Elements, words)?.map(
            |s| {
                QueryWithSource {
                    query: Query::Subset(s.values),
                    from: s.from,
                }
            },
        )),
        QueryWord::Superset => Ok(source_of(alloc, Scope::Local, ItemKind::Elements, words)?.map(
            |s| {
                QueryWithSource {
                    query: Query::Superset(s.values),
                    from: s.from,
                }
            },
        )),
        QueryWord::ProperSubset => Ok(source_of(
            alloc,
            Scope::Local,
            ItemKind::Elements,
            words,
        )?.map(|s| {
            QueryWithSource {
                query: Query::ProperSubset(s.values),
                from: s.from,
            }
        })),
        QueryWord::ProperSuperset => Ok(source_of(
            alloc,
            Scope::Local,
            ItemKind::Elements,
            words,
        )?.map(|s| {
            QueryWithSource {
                query: Query::ProperSuperset(s.values),
                from: s.from,
            }
        })),
        QueryWord::Overlaps => Ok(source_of(alloc, Scope::Local, ItemKind::Elements, words)?.map(
            |s| {
                QueryWithSource {
                    query: Query::Overlaps(s.values),
                    from: s.from,
                }
            },
        )),
        QueryWord::SetEquals => Ok(source_of(alloc, Scope::Local, ItemKind::Elements, words)?.map(
            |s| {
                QueryWithSource {
                    query: Query::SetEquals(s.values),
                    from: s.from,
                }
            },
        )),
        _ => Ok(plain_query(word, words).map(|query| QueryWithSource { query, from: None })),
    }
}

/// A question, with its word.
#[tactic(auto, unfolding(crate::specs::Queries::query))]
pub(crate) fn query(alloc: Global, words: &[&[u8]]) -> Result<Result<QueryWithSource, Code>, Memory>
    ensures { IfOk result (λ read. read ≡ query (bytes_of words.now)) }
{
    match words {
        [word, rest @ ..] => match query_word(word) {
            Ok(word) => query_of_words(alloc, word, rest),
            Err(code) => Ok(Err(code)),
        },
        [] => Ok(Err(Code::Word)),
    }
}
