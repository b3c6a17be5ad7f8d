//! Calls, commands and declarations of cells. What has a long word is in a function of its own, since
//! a word is proved letter by letter.
ghost use Rattle.std.specs.Prelude.{◌∷◌, [], OnOk};
ghost use Rattle.plain_model.specs.declared.commands.PlainCall.TheVariants as calls;
ghost use Rattle.plain_model.specs.declared.commands.Command.TheVariants as commands;
ghost use Rattle.plain_model.specs.Text.{Adds, AddsWords, spaced, transforming_words, transforming_at, add_or_update_at, made_words, making_words, made_at_words, making_at, list_words, call_words, name_or_hyphen, names_at, name_at, command_words, decl_words};

use crate::text::ops::{put_op, put_query};
use crate::text::values::{put_collection, put_list, put_source, put_values};
use crate::text::words::{put_factory, put_kind, put_probe, put_transform};
use crate::{CellDecl, Command, Factory, PlainCall, Transform};
use imm_base::{Text24, Val};
use std::alloc::AllocError;

/// A word, a pair and what becomes of the value that is there.
fn put_transforming(
    text: &mut String,
    word: &str,
    key: Val,
    value: Val,
    transform: Transform,
) -> Result<(), AllocError>
    ensures { OnOk result (AddsWords text.old text.new (transforming_words word.now key value transform)) }
{
    write!(text, " {word} {key} {value}")?;
    put_transform(text, transform)
}

fn put_add_or_update(
    text: &mut String,
    key: Val,
    value: Val,
    transform: Transform,
) -> Result<(), AllocError>
    ensures { OnOk result (AddsWords text.old text.new (call_words (calls.AddOrUpdate key value transform))) }
{
    put_transforming(text, "addorupdate", key, value, transform)
}

/// A word and the elements of an array.
fn put_array(text: &mut String, word: &str, elements: &[Val]) -> Result<(), AllocError>
    ensures { OnOk result (AddsWords text.old text.new (word.now ∷ list_words elements.now)) }
{
    write!(text, " {word}")?;
    put_list(text, elements)
}

/// A word, a key and how its value is made.
fn put_made(text: &mut String, word: &str, key: Val, make: Factory) -> Result<(), AllocError>
    ensures { OnOk result (AddsWords text.old text.new (made_words word.now key make)) }
{
    write!(text, " {word} {key}")?;
    put_factory(text, make)
}

fn put_initialize(text: &mut String, elements: &[Val]) -> Result<(), AllocError>
    ensures { OnOk result (AddsWords text.old text.new (call_words (calls.Initialize elements.now))) }
{
    put_array(text, "initialize", elements)
}

/// A word, a key, how its value is made, and what becomes of the value that is there.
fn put_making(
    text: &mut String,
    word: &str,
    key: Val,
    make: Factory,
    transform: Transform,
) -> Result<(), AllocError>
    ensures { OnOk result (AddsWords text.old text.new (making_words word.now key make transform)) }
{
    put_made(text, word, key, make)?;
    put_transform(text, transform)
}

/// A call, without the cell's name.
pub fn put_call(text: &mut String, call: &PlainCall) -> Result<(), AllocError>
    ensures { OnOk result (AddsWords text.old text.new (call_words call.now)) }
{
    match call {
        PlainCall::Update(op) => {
            write!(text, " update")?;
            put_op(text, op, None)
        }
        PlainCall::Read => write!(text, " read"),
        PlainCall::Publish(plain) => {
            write!(text, " publish")?;
            put_collection(text, &plain.values)
        }
        PlainCall::GetOrAdd(key, value) => write!(text, " getoradd {key} {value}"),
        PlainCall::AddOrUpdate(key, value, transform) => {
            put_add_or_update(text, *key, *value, *transform)
        }
        PlainCall::TryAdd(key, value) => write!(text, " tryadd {key} {value}"),
        PlainCall::TryUpdate(key, value, wanted) => write!(
            text,
            " tryupdate {key} {value} {wanted}"
        ),
        PlainCall::TryRemove(key) => write!(text, " tryremove {key}"),
        PlainCall::Push(value) => write!(text, " push {value}"),
        PlainCall::TryPop => write!(text, " trypop"),
        PlainCall::Enqueue(value) => write!(text, " enqueue {value}"),
        PlainCall::TryDequeue => write!(text, " trydequeue"),
        PlainCall::Exchange(array) => put_array(text, "exchange", array.as_slice()),
        PlainCall::CompareExchange(array, wanted) => {
            put_array(text, "compareexchange", array.as_slice())?;
            write!(text, " if")?;
            put_collection(text, wanted)
        }
        PlainCall::Initialize(array) => put_initialize(text, array.as_slice()),
        PlainCall::GetOrAddMade(key, make, probe) => {
            put_made(text, "getoraddf", *key, *make)?;
            put_probe(text, *probe)
        }
        PlainCall::AddOrUpdateMade(key, make, transform) => {
            put_making(text, "addorupdatef", *key, *make, *transform)
        }
    }
}

/// The same, with the cell's name behind the word.
fn put_transforming_at(
    text: &mut String,
    word: &str,
    cell: Text24,
    key: Val,
    value: Val,
    transform: Transform,
) -> Result<(), AllocError>
    ensures { OnOk result (Adds text.old text.new (spaced (transforming_at word.now cell key value transform))) }
{
    write!(text, "{word} {cell} {key} {value}")?;
    put_transform(text, transform)
}

fn put_add_or_update_at(
    text: &mut String,
    cell: Text24,
    key: Val,
    value: Val,
    transform: Transform,
) -> Result<(), AllocError>
    ensures { OnOk result (Adds text.old text.new (spaced (add_or_update_at cell key value transform))) }
{
    put_transforming_at(text, "addorupdate", cell, key, value, transform)
}

fn put_try_dequeue_at(text: &mut String, cell: Text24) -> Result<(), AllocError>
    ensures { OnOk result (Adds text.old text.new (spaced (command_words (commands.TryDequeue cell)))) }
{
    write!(text, "trydequeue {cell}")
}

/// A name, or a hyphen in place of one.
fn put_name_or_hyphen(text: &mut String, name: Option<Text24>) -> Result<(), AllocError>
    ensures { OnOk result (AddsWords text.old text.new (name_or_hyphen name ∷ [])) }
{
    match name {
        Some(name) => write!(text, " {name}"),
        None => write!(text, " -"),
    }
}

/// A word, a cell and two names, of which the second may be left out.
fn put_names_at(
    text: &mut String,
    word: &str,
    cell: Text24,
    name: Text24,
    other: Option<Text24>,
) -> Result<(), AllocError>
    ensures { OnOk result (Adds text.old text.new (spaced (names_at word.now cell name other))) }
{
    write!(text, "{word} {cell} {name}")?;
    put_name_or_hyphen(text, other)
}

/// The same as `put_made`, with the cell's name behind the word.
fn put_made_at(
    text: &mut String,
    word: &str,
    cell: Text24,
    key: Val,
    make: Factory,
) -> Result<(), AllocError>
    ensures { OnOk result (Adds text.old text.new (spaced (made_at_words word.now cell key make))) }
{
    write!(text, "{word} {cell} {key}")?;
    put_factory(text, make)
}

/// A word, a cell and a name.
fn put_name_at(text: &mut String, word: &str, cell: Text24, name: Text24) -> Result<(), AllocError>
    ensures { OnOk result (Adds text.old text.new (spaced (name_at word.now cell name))) }
{
    write!(text, "{word} {cell} {name}")
}

/// The same as `put_making`, with the cell's name behind the word.
fn put_making_at(
    text: &mut String,
    word: &str,
    cell: Text24,
    key: Val,
    make: Factory,
    transform: Transform,
) -> Result<(), AllocError>
    ensures { OnOk result (Adds text.old text.new (spaced (making_at word.now cell key make transform))) }
{
    put_made_at(text, word, cell, key, make)?;
    put_transform(text, transform)
}

/// A command, with its first word at the very beginning.
pub fn put_command(text: &mut String, command: &Command) -> Result<(), AllocError>
    ensures { OnOk result (Adds text.old text.new (spaced (command_words command.now))) }
{
    match command {
        Command::Update(cell, op) => {
            write!(text, "update {cell}")?;
            put_op(text, op, None)
        }
        Command::Read(cell, name) => write!(text, "read {cell} {name}"),
        Command::Publish(cell, name) => write!(text, "publish {cell} {name}"),
        Command::GetOrAdd(cell, key, value) => write!(text, "getoradd {cell} {key} {value}"),
        Command::AddOrUpdate(cell, key, value, transform) => {
            put_add_or_update_at(text, *cell, *key, *value, *transform)
        }
        Command::TryAdd(cell, key, value) => write!(text, "tryadd {cell} {key} {value}"),
        Command::TryUpdate(cell, key, value, wanted) => {
            write!(text, "tryupdate {cell}")?;
            write!(text, " {key} {value} {wanted}")
        }
        Command::TryRemove(cell, key) => write!(text, "tryremove {cell} {key}"),
        Command::Push(cell, value) => write!(text, "push {cell} {value}"),
        Command::TryPop(cell) => write!(text, "trypop {cell}"),
        Command::Enqueue(cell, value) => write!(text, "enqueue {cell} {value}"),
        Command::TryDequeue(cell) => put_try_dequeue_at(text, *cell),
        Command::Exchange(cell, name) => write!(text, "exchange {cell} {name}"),
        Command::CompareExchange(cell, name, wanted) => {
            put_names_at(text, "compareexchange", *cell, *name, *wanted)
        }
        Command::Initialize(cell, name) => put_name_at(text, "initialize", *cell, *name),
        Command::GetOrAddMade(cell, key, make) => put_made_at(
            text,
            "getoraddf",
            *cell,
            *key,
            *make,
        ),
        Command::AddOrUpdateMade(cell, key, make, transform) => {
            put_making_at(text, "addorupdatef", *cell, *key, *make, *transform)
        }
        Command::New(name, kind, values, from) => {
            write!(text, "new {name}")?;
            put_kind(text, *kind)?;
            put_source(text, values, *from)
        }
        Command::Let(name, old, op, from) => {
            write!(text, "let {name} {old}")?;
            put_op(text, op, *from)
        }
        Command::Rekey(name, old, comparer) => write!(text, "rekey {name} {old} {comparer}"),
        Command::Ask(name, query, from) => {
            write!(text, "ask {name}")?;
            put_query(text, query, *from)
        }
        Command::Show(name) => write!(text, "show {name}"),
        Command::Builder(builder, name) => write!(text, "builder {builder} {name}"),
        Command::Change(builder, op, from) => {
            write!(text, "change {builder}")?;
            put_op(text, op, *from)
        }
        Command::Freeze(name, builder) => write!(text, "freeze {name} {builder}"),
        Command::Version(builder) => write!(text, "version {builder}"),
        Command::Capacity(builder, wanted) => write!(text, "capacity {builder} {wanted}"),
        Command::Move(name, builder) => write!(text, "move {name} {builder}"),
        Command::Drain(name, builder) => write!(text, "drain {name} {builder}"),
        Command::FrozenSet(name, eq, values, from) => {
            write!(text, "frozenset {name} {eq}")?;
            put_source(text, values, *from)
        }
        Command::FrozenMap(name, eq, pairs, from) => {
            write!(text, "frozenmap {name} {eq}")?;
            put_source(text, pairs, *from)
        }
        Command::Walk(walk, name) => write!(text, "walk {walk} {name}"),
        Command::Copy(copy, walk) => write!(text, "copy {copy} {walk}"),
        Command::Next(walk) => write!(text, "next {walk}"),
        Command::Current(walk) => write!(text, "current {walk}"),
        Command::Reset(walk) => write!(text, "reset {walk}"),
        Command::Dispose(walk) => write!(text, "dispose {walk}"),
    }
}

/// The line of a script that declares a cell, without its line feed.
pub fn put_decl(text: &mut String, cell: &CellDecl) -> Result<(), AllocError>
    ensures { OnOk result (Adds text.old text.new (spaced (decl_words cell.now))) }
{
    let name = cell.name;
    write!(text, "cell {name}")?;
    put_kind(text, cell.kind)?;
    put_values(text, &cell.values)
}
