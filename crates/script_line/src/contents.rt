//! A kind, and the values of a collection of it.

ghost use Rattle.std.specs.Prelude.{◌≡◌, IfOk};
ghost use Rattle.script_line.specs.Words.{bytes_of};
ghost use Rattle.script_line.specs.Comparers.{order, equality};
ghost use Rattle.script_line.specs.Sources.{source_of};
ghost use Rattle.script_line.specs.Arguments.{one_and_rest};
ghost use Rattle.script_line.specs.Contents.{kind_word, contents_of, contents};

use crate::codes::{Code, both_or_least};
use crate::comparers::{equality, order};
use crate::sources::{Scope, Source, source_of};
use crate::table::entry;
use imm_base::{Memory, ValEq, ValOrder};
use plain_model::{ItemKind, Kind};
use std::alloc::Global;

/// The word of a kind.
#[derive(Clone, Copy)]
pub(crate) enum KindWord {
    List,
    Array,
    Stack,
    Queue,
    SSet,
    SMap,
    Dict,
    HSet,
}

/// A kind, and the values of a collection of it.
#[derive(Drop)]
pub(crate) struct KindWithSource {
    pub kind: Kind,
    pub source: Source,
}

const KINDS: [(&[u8], KindWord); 8] = [
    (b"list", KindWord::List),
    (b"array", KindWord::Array),
    (b"stack", KindWord::Stack),
    (b"queue", KindWord::Queue),
    (b"sset", KindWord::SSet),
    (b"smap", KindWord::SMap),
    (b"dict", KindWord::Dict),
    (b"hset", KindWord::HSet),
];

fn kind_word(word: &[u8]) -> Result<KindWord, Code>
    ensures { result ≡ kind_word word.now }
{
    entry(&KINDS, word)
}

/// An order, and values to the end of the line.
fn order_and_source(
    alloc: Global,
    scope: Scope,
    item: ItemKind,
    words: &[&[u8]],
) -> Result<Result<(ValOrder, Source), Code>, Memory>
    ensures { IfOk result (λ read. read
        ≡ one_and_rest order (source_of scope item) (bytes_of words.now)) }
{
    match words {
        [o, rest @ ..] => {
            let source = source_of(alloc, scope, item, rest)?;
            Ok(both_or_least(order(o), source))
        }
        [] => Ok(Err(Code::Word)),
    }
}

/// An equality, and values to the end of the line.
pub(crate) fn equality_and_source(
    alloc: Global,
    scope: Scope,
    item: ItemKind,
    words: &[&[u8]],
) -> Result<Result<(ValEq, Source), Code>, Memory>
    ensures { IfOk result (λ read. read
        ≡ one_and_rest equality (source_of scope item) (bytes_of words.now)) }
{
    match words {
        [e, rest @ ..] => {
            let source = source_of(alloc, scope, item, rest)?;
            Ok(both_or_least(equality(e), source))
        }
        [] => Ok(Err(Code::Word)),
    }
}

/// The values of a collection, with what its kind has before them.
fn contents_of(
    alloc: Global,
    scope: Scope,
    word: KindWord,
    words: &[&[u8]],
) -> Result<Result<KindWithSource, Code>, Memory>
    ensures { IfOk result (λ read. read ≡ contents_of scope word (bytes_of words.now)) }
{
    match word {
        KindWord::List => {
            Ok(source_of(alloc, scope, ItemKind::Elements, words)?.map(|source| KindWithSource {
                kind: Kind::List,
                source,
            }))
        }
        KindWord::Array => {
            Ok(source_of(alloc, scope, ItemKind::Elements, words)?.map(|source| KindWithSource {
                kind: Kind::Array,
                source,
            }))
        }
        KindWord::Stack => {
            Ok(source_of(alloc, scope, ItemKind::Elements, words)?.map(|source| KindWithSource {
                kind: Kind::Stack,
                source,
            }))
        }
        KindWord::Queue => {
            Ok(source_of(alloc, scope, ItemKind::Elements, words)?.map(|source| KindWithSource {
                kind: Kind::Queue,
                source,
            }))
        }
        KindWord::SSet => Ok(order_and_source(alloc, scope, ItemKind::Elements, words)?.map(|(
            order,
            source,
        )| KindWithSource {
            kind: Kind::SSet(order),
            source,
        })),
        KindWord::SMap => Ok(order_and_source(alloc, scope, ItemKind::Pairs, words)?.map(|(
            order,
            source,
        )| KindWithSource {
            kind: Kind::SMap(order),
            source,
        })),
        KindWord::Dict => Ok(equality_and_source(alloc, scope, ItemKind::Pairs, words)?.map(|(
            eq,
            source,
        )| KindWithSource {
            kind: Kind::Dict(eq),
            source,
        })),
        KindWord::HSet => Ok(equality_and_source(alloc, scope, ItemKind::Elements, words)?.map(|(
            eq,
            source,
        )| KindWithSource {
            kind: Kind::HSet(eq),
            source,
        })),
    }
}

/// A kind, and the values of a collection of it.
#[tactic(auto, unfolding(crate::specs::Contents::contents))]
pub(crate) fn contents(
    alloc: Global,
    scope: Scope,
    words: &[&[u8]],
) -> Result<Result<KindWithSource, Code>, Memory>
    ensures { IfOk result (λ read. read ≡ contents scope (bytes_of words.now)) }
{
    match words {
        [word, rest @ ..] => match kind_word(word) {
            Ok(kind) => contents_of(alloc, scope, kind, rest),
            Err(code) => Ok(Err(code)),
        },
        [] => Ok(Err(Code::Word)),
    }
}
