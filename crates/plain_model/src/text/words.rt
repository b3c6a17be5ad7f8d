//! Versions, comparers, kinds, transformers, factories, strategies, refusals and replies.
ghost use Rattle.std.specs.Prelude.{◌≡◌, ◌++◌, Some, OnOk, [], ◌∷◌, codes, decimal};
ghost use Rattle.imm_base.specs.Spell.{val_text, test_words};
ghost use Rattle.plain_model.specs.declared.history.Refusal.TheVariants.{OutOfRange};
ghost use Rattle.plain_model.specs.Text.{AddsWords, version_word, comparer_word, elem_word, kind_words, transform_words, factory_words, probe_words, word_and_numbers, strategy_words, refusal_words, reply_words};

use crate::text::values::put_shown;
use crate::{Comparer, Elem, Factory, Kind, Probe, Refusal, Reply, Strategy, Transform, Version};
use imm_base::{Val, ValTest};
use std::alloc::AllocError;
use std::fmt;

impl fmt::Display for Version {
    ghost output = { λ version. Some (version_word version) };

    fn fmt<W: fmt::Write>(&self, f: &mut fmt::Formatter<W>) -> fmt::Result {
        match self {
            Version::One => write!(f, "1"),
            Version::Two => write!(f, "2"),
        }
    }
}

impl fmt::Display for Comparer {
    ghost output = { λ comparer. Some (comparer_word comparer) };

    fn fmt<W: fmt::Write>(&self, f: &mut fmt::Formatter<W>) -> fmt::Result {
        match self {
            Comparer::Ordinal => write!(f, "ordinal"),
            Comparer::Reverse => write!(f, "reverse"),
            Comparer::NoCase => write!(f, "nocase"),
            Comparer::One => write!(f, "one"),
        }
    }
}

impl fmt::Display for Elem {
    ghost output = { λ element. Some (elem_word element) };

    fn fmt<W: fmt::Write>(&self, f: &mut fmt::Formatter<W>) -> fmt::Result {
        match self {
            Elem::One(value) => write!(f, "{value}"),
            Elem::Pair(key, value) => write!(f, "{key}={value}"),
        }
    }
}

/// A word and two numbers.
pub fn put_numbers(text: &mut String, word: &str, first: u32, second: u32) -> Result<(), AllocError>
    ensures { OnOk result (AddsWords text.old text.new (word_and_numbers word.now first second)) }
{
    write!(text, " {word} {first} {second}")
}

/// A word and a value.
pub fn put_valued(text: &mut String, word: &str, value: Val) -> Result<(), AllocError>
    ensures { OnOk result (AddsWords text.old text.new (word.now ∷ val_text value ∷ [])) }
{
    write!(text, " {word} {value}")
}

pub fn put_kind(text: &mut String, kind: Kind) -> Result<(), AllocError>
    ensures { OnOk result (AddsWords text.old text.new (kind_words kind)) }
{
    match kind {
        Kind::List => write!(text, " list"),
        Kind::Array => write!(text, " array"),
        Kind::Stack => write!(text, " stack"),
        Kind::Queue => write!(text, " queue"),
        Kind::SSet(order) => write!(text, " sset {order}"),
        Kind::SMap(order) => write!(text, " smap {order}"),
        Kind::Dict(eq) => write!(text, " dict {eq}"),
        Kind::HSet(eq) => write!(text, " hset {eq}"),
    }
}

pub fn put_test(text: &mut String, test: ValTest) -> Result<(), AllocError>
    ensures { OnOk result (AddsWords text.old text.new (test_words test)) }
{
    match test {
        ValTest::Is(value) => write!(text, " is {value}"),
        ValTest::Below(value) => write!(text, " below {value}"),
        ValTest::Above(value) => write!(text, " above {value}"),
    }
}

pub fn put_transform(text: &mut String, transform: Transform) -> Result<(), AllocError>
    ensures { OnOk result (AddsWords text.old text.new (transform_words transform)) }
{
    match transform {
        Transform::Set(value) => write!(text, " set {value}"),
        Transform::Plus(number) => write!(text, " plus {number}"),
        Transform::Max(value) => write!(text, " max {value}"),
    }
}

pub fn put_factory(text: &mut String, make: Factory) -> Result<(), AllocError>
    ensures { OnOk result (AddsWords text.old text.new (factory_words make)) }
{
    match make {
        Factory::Key => write!(text, " key"),
        Factory::Const(value) => write!(text, " const {value}"),
    }
}

pub fn put_probe(text: &mut String, probe: Probe) -> Result<(), AllocError>
    ensures { OnOk result (AddsWords text.old text.new (probe_words probe)) }
{
    match probe {
        Probe::Idle => write!(text, " idle"),
        Probe::Ran { position } => write!(text, " ran {position}"),
    }
}

pub fn put_strategy(text: &mut String, strategy: Strategy) -> Result<(), AllocError>
    ensures { OnOk result (AddsWords text.old text.new (strategy_words strategy)) }
{
    match strategy {
        Strategy::Linear => write!(text, " linear"),
        Strategy::Length => write!(text, " length"),
        Strategy::Slice { start, len } => write!(text, " slice {start} {len}"),
        Strategy::Hash => write!(text, " hash"),
    }
}

fn put_out_of_range(text: &mut String, index: u32, count: u32) -> Result<(), AllocError>
    ensures { OnOk result (AddsWords text.old text.new (refusal_words (OutOfRange index count))) }
{
    put_numbers(text, "outofrange", index, count)
}

fn put_reason(text: &mut String, refusal: Refusal) -> Result<(), AllocError>
    ensures { OnOk result (AddsWords text.old text.new (refusal_words refusal)) }
{
    match refusal {
        Refusal::OutOfRange { index, count } => put_out_of_range(text, index, count),
        Refusal::NotFound => write!(text, " notfound"),
        Refusal::KeyExists { old } => write!(text, " keyexists {old}"),
        Refusal::TooLarge { count } => write!(text, " toolarge {count}"),
        Refusal::NotFull { count, capacity } => write!(text, " notfull {count} {capacity}"),
        Refusal::Capacity { count, wanted } => write!(text, " capacity {count} {wanted}"),
        Refusal::Empty => write!(text, " empty"),
        Refusal::Unsorted => write!(text, " unsorted"),
        Refusal::PoolFull => write!(text, " poolfull"),
        Refusal::Disposed => write!(text, " disposed"),
        Refusal::Changed { made, now } => write!(text, " changed {made} {now}"),
        Refusal::NoCurrent => write!(text, " nocurrent"),
        Refusal::Publish { count } => write!(text, " publish {count}"),
        Refusal::Unset => write!(text, " default"),
    }
}

pub fn put_refusal(text: &mut String, refusal: Refusal) -> Result<(), AllocError>
    ensures { OnOk result (AddsWords text.old text.new (codes "refused" ∷ refusal_words refusal)) }
{
    write!(text, " refused")?;
    put_reason(text, refusal)
}

pub fn put_reply(text: &mut String, reply: &Reply) -> Result<(), AllocError>
    ensures { OnOk result (AddsWords text.old text.new (reply_words reply.now)) }
{
    match reply {
        Reply::Flag(flag) => write!(text, " {flag}"),
        Reply::Value(value) => write!(text, " {value}"),
        Reply::Taken(value) => write!(text, " true {value}"),
        Reply::Missing => write!(text, " false"),
        Reply::Count(count) => write!(text, " {count}"),
        Reply::Refused(refusal) => put_refusal(text, *refusal),
        Reply::Shown(shown) => put_shown(text, shown),
        Reply::Unset => write!(text, " default"),
    }
}
