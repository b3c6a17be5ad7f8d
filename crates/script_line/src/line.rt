//! What the words of a line say, whatever stands on the other lines.

ghost use Rattle.std.specs.Prelude.{◌≡◌, IfOk};
ghost use Rattle.std.specs.Option.{option_copied};
ghost use Rattle.script_line.specs.Words.{bytes_of};
ghost use Rattle.script_line.specs.Names.{cell_name, local_name};
ghost use Rattle.script_line.specs.Comparers.{comparer};
ghost use Rattle.script_line.specs.Contents.{contents};
ghost use Rattle.script_line.specs.Operations.{op};
ghost use Rattle.script_line.specs.Queries.{query};
ghost use Rattle.script_line.specs.Arguments.{one_and_rest, three};
ghost use Rattle.script_line.specs.declared.sources.Scope.TheVariants as scopes;
ghost use Rattle.script_line.specs.Lines.{equality_and_source, common_keyword, newer_keyword, keyword_of, line_of_words, line_of, IsWithin, command_values};

use crate::arguments::{cell_and_local_name, no_word, one_local_name};
use crate::calls::{CallWord, call_of_words};
use crate::codes::{Code, both_or_least};
use crate::comparers::comparer;
use crate::contents::{KindWithSource, contents, equality_and_source};
use crate::names::{cell_name, local_name};
use crate::operations::{OpWithSource, op};
use crate::queries::{QueryWithSource, query};
use crate::sources::{Scope, Source};
use crate::table::entry;
use imm_base::{Memory, Text24, ValEq};
use plain_model::{CellDecl, Command, Comparer, ItemKind, Values, Version};
use std::alloc::Global;

/// A line with its arguments read.
#[derive(Drop)]
pub enum Line {
    Cell(CellDecl),
    Worker,
    Command(Command),
    End,
}

/// The first word of a line.
#[derive(Clone, Copy)]
pub(crate) enum Keyword {
    Cell,
    Worker,
    End,
    Update,
    Read,
    Publish,
    Call(CallWord),
    New,
    Let,
    Rekey,
    Ask,
    Show,
    FrozenSet,
    FrozenMap,
}

/// The first words of both versions.
const KEYWORDS: [(&[u8], Keyword); 22] = [
    (b"cell", Keyword::Cell),
    (b"worker", Keyword::Worker),
    (b"end", Keyword::End),
    (b"update", Keyword::Update),
    (b"read", Keyword::Read),
    (b"publish", Keyword::Publish),
    (b"getoradd", Keyword::Call(CallWord::GetOrAdd)),
    (b"addorupdate", Keyword::Call(CallWord::AddOrUpdate)),
    (b"tryadd", Keyword::Call(CallWord::TryAdd)),
    (b"tryupdate", Keyword::Call(CallWord::TryUpdate)),
    (b"tryremove", Keyword::Call(CallWord::TryRemove)),
    (b"push", Keyword::Call(CallWord::Push)),
    (b"trypop", Keyword::Call(CallWord::TryPop)),
    (b"enqueue", Keyword::Call(CallWord::Enqueue)),
    (b"trydequeue", Keyword::Call(CallWord::TryDequeue)),
    (b"new", Keyword::New),
    (b"let", Keyword::Let),
    (b"rekey", Keyword::Rekey),
    (b"ask", Keyword::Ask),
    (b"show", Keyword::Show),
    (b"frozenset", Keyword::FrozenSet),
    (b"frozenmap", Keyword::FrozenMap),
];

/// The first words of the second version alone.
const NEWER_KEYWORDS: [(&[u8], Keyword); 1] = [(
    b"addorupdatef",
    Keyword::Call(CallWord::AddOrUpdateMade),
)];

fn common_keyword(word: &[u8]) -> Result<Keyword, Code>
    ensures { result ≡ common_keyword word.now }
{
    entry(&KEYWORDS, word)
}

fn newer_keyword(version: Version, word: &[u8]) -> Result<Keyword, Code>
    ensures { result ≡ newer_keyword version word.now }
{
    match version {
        Version::One => Err(Code::Word),
        Version::Two => entry(&NEWER_KEYWORDS, word),
    }
}

fn keyword_of(version: Version, word: &[u8]) -> Result<Keyword, Code>
    ensures { result ≡ keyword_of version word.now }
{
    match common_keyword(word) {
        Ok(keyword) => Ok(keyword),
        Err(_) => newer_keyword(version, word),
    }
}

fn cell_and_contents(
    alloc: Global,
    words: &[&[u8]],
) -> Result<Result<(Text24, KindWithSource), Code>, Memory>
    ensures { IfOk result (λ read. read
        ≡ one_and_rest cell_name (contents scopes.Cell) (bytes_of words.now)) }
{
    match words {
        [c, rest @ ..] => {
            let contents = contents(alloc, Scope::Cell, rest)?;
            Ok(both_or_least(cell_name(c), contents))
        }
        [] => Ok(Err(Code::Word)),
    }
}

fn cell_and_op(
    alloc: Global,
    words: &[&[u8]],
) -> Result<Result<(Text24, OpWithSource), Code>, Memory>
    ensures { IfOk result (λ read. read
        ≡ one_and_rest cell_name (op scopes.Cell) (bytes_of words.now)) }
{
    match words {
        [c, rest @ ..] => {
            let op = op(alloc, Scope::Cell, rest)?;
            Ok(both_or_least(cell_name(c), op))
        }
        [] => Ok(Err(Code::Word)),
    }
}

fn name_and_contents(
    alloc: Global,
    words: &[&[u8]],
) -> Result<Result<(Text24, KindWithSource), Code>, Memory>
    ensures { IfOk result (λ read. read
        ≡ one_and_rest local_name (contents scopes.Local) (bytes_of words.now)) }
{
    match words {
        [x, rest @ ..] => {
            let contents = contents(alloc, Scope::Local, rest)?;
            Ok(both_or_least(local_name(x), contents))
        }
        [] => Ok(Err(Code::Word)),
    }
}

fn name_and_op(
    alloc: Global,
    words: &[&[u8]],
) -> Result<Result<(Text24, OpWithSource), Code>, Memory>
    ensures { IfOk result (λ read. read
        ≡ one_and_rest local_name (op scopes.Local) (bytes_of words.now)) }
{
    match words {
        [x, rest @ ..] => {
            let op = op(alloc, Scope::Local, rest)?;
            Ok(both_or_least(local_name(x), op))
        }
        [] => Ok(Err(Code::Word)),
    }
}

fn two_names_and_op(
    alloc: Global,
    words: &[&[u8]],
) -> Result<Result<(Text24, (Text24, OpWithSource)), Code>, Memory>
    ensures { IfOk result (λ read. read
        ≡ one_and_rest local_name (one_and_rest local_name (op scopes.Local)) (bytes_of words.now)) }
{
    match words {
        [y, rest @ ..] => {
            let old_and_op = name_and_op(alloc, rest)?;
            Ok(both_or_least(local_name(y), old_and_op))
        }
        [] => Ok(Err(Code::Word)),
    }
}

fn two_names_and_comparer(words: &[&[u8]]) -> Result<(Text24, (Text24, Comparer)), Code>
    ensures { result ≡ three local_name local_name comparer (bytes_of words.now) }
{
    match words {
        [y, x, c] => both_or_least(local_name(y), both_or_least(local_name(x), comparer(c))),
        _ => Err(Code::Word),
    }
}

fn name_and_query(
    alloc: Global,
    words: &[&[u8]],
) -> Result<Result<(Text24, QueryWithSource), Code>, Memory>
    ensures { IfOk result (λ read. read
        ≡ one_and_rest local_name query (bytes_of words.now)) }
{
    match words {
        [x, rest @ ..] => {
            let query = query(alloc, rest)?;
            Ok(both_or_least(local_name(x), query))
        }
        [] => Ok(Err(Code::Word)),
    }
}

fn name_equality_and_source(
    alloc: Global,
    item: ItemKind,
    words: &[&[u8]],
) -> Result<Result<(Text24, (ValEq, Source)), Code>, Memory>
    ensures { IfOk result (λ read. read
        ≡ one_and_rest local_name (equality_and_source item) (bytes_of words.now)) }
{
    match words {
        [x, rest @ ..] => {
            let eq_and_source = equality_and_source(alloc, Scope::Local, item, rest)?;
            Ok(both_or_least(local_name(x), eq_and_source))
        }
        [] => Ok(Err(Code::Word)),
    }
}

/// What a line says, by its first word and the words behind it.
fn line_of_words(
    alloc: Global,
    keyword: Keyword,
    words: &[&[u8]],
) -> Result<Result<Line, Code>, Memory>
    ensures { IfOk result (λ read. read ≡ line_of_words keyword (bytes_of words.now)) }
{
    match keyword {
        Keyword::Cell => Ok(cell_and_contents(alloc, words)?.map(|(name, contents)| Line::Cell(
            CellDecl {
                name,
                kind: contents.kind,
                values: contents.source.values,
            },
        ))),
        Keyword::Worker => Ok(no_word(words).map(|()| Line::Worker)),
        Keyword::End => Ok(no_word(words).map(|()| Line::End)),
        Keyword::Update => Ok(cell_and_op(alloc, words)?.map(|(cell, op)| Line::Command(
            Command::Update(cell, op.op),
        ))),
        Keyword::Read => Ok(cell_and_local_name(words).map(|(cell, name)| Line::Command(
            Command::Read(cell, name),
        ))),
        Keyword::Publish => Ok(cell_and_local_name(words).map(|(cell, name)| Line::Command(
            Command::Publish(cell, name),
        ))),
        Keyword::Call(call) => Ok(call_of_words(call, words).map(Line::Command)),
        Keyword::New => Ok(name_and_contents(alloc, words)?.map(|(name, contents)| Line::Command(
            Command::New(
                name,
                contents.kind,
                contents.source.values,
                contents.source.from,
            ),
        ))),
        Keyword::Let => Ok(two_names_and_op(alloc, words)?.map(|(new, (old, op))| Line::Command(
            Command::Let(new, old, op.op, op.from),
        ))),
        Keyword::Rekey => Ok(two_names_and_comparer(words).map(|(new, (old, comparer))| {
            Line::Command(Command::Rekey(new, old, comparer))
        })),
        Keyword::Ask => Ok(name_and_query(alloc, words)?.map(|(name, asked)| Line::Command(
            Command::Ask(name, asked.query, asked.from),
        ))),
        Keyword::Show => Ok(one_local_name(words).map(|name| Line::Command(Command::Show(name)))),
        Keyword::FrozenSet => Ok(name_equality_and_source(alloc, ItemKind::Elements, words)?.map(|(
            name,
            (eq, source),
        )| { Line::Command(Command::FrozenSet(name, eq, source.values, source.from)) })),
        Keyword::FrozenMap => Ok(name_equality_and_source(alloc, ItemKind::Pairs, words)?.map(|(
            name,
            (eq, source),
        )| { Line::Command(Command::FrozenMap(name, eq, source.values, source.from)) })),
    }
}

/// What a line says in a version, by its words, in O(n) for n bytes.
pub fn line_of(
    alloc: Global,
    version: Version,
    words: &[&[u8]],
) -> Result<Result<Line, Code>, Memory>
    ensures read { IfOk result (λ read. read ≡ line_of version (bytes_of words.now)) }
    // The integers of a sequence are integers of 64 bits.
    ensures within { IfOk result (λ read. IfOk read IsWithin) }
{
    match words {
        [] => Ok(Err(Code::Word)),
        [first, rest @ ..] => match keyword_of(version, first) {
            Ok(keyword) => line_of_words(alloc, keyword, rest),
            Err(code) => Ok(Err(code)),
        },
    }
}

/// The values among the arguments of a command, if it has some.
pub fn command_values(command: &Command) -> Option<&Values>
    ensures { option_copied result ≡ command_values command.now }
{
    match command {
        Command::Update(_, op) => op.values(),
        Command::New(_, _, values, _) => Some(values),
        Command::Let(_, _, op, _) => op.values(),
        Command::Ask(_, query, _) => query.values(),
        Command::FrozenSet(_, _, values, _) => Some(values),
        Command::FrozenMap(_, _, pairs, _) => Some(pairs),
        _ => None,
    }
}
