//! Operations and queries.
ghost use Rattle.std.specs.Prelude.{◌∷◌, [], None, OnOk, decimal};
ghost use Rattle.plain_model.specs.declared.commands.PlainOp.TheVariants.{InsertRange, RemoveRange, RemoveKeys};
ghost use Rattle.plain_model.specs.declared.commands.Query.TheVariants.{LastIndexOf};
ghost use Rattle.plain_model.specs.Text.{AddsWords, source_words, indexed_words, op_words, query_words};

use crate::text::values::put_source;
use crate::text::words::{put_numbers, put_test, put_valued};
use crate::{PlainOp, Query, Values};
use imm_base::{Text24, Val};
use std::alloc::AllocError;

/// A word with an argument behind it.
fn put_with(
    text: &mut String,
    word: &str,
    values: &Values,
    from: Option<Text24>,
) -> Result<(), AllocError>
    ensures { OnOk result (AddsWords text.old text.new (word.now ∷ source_words values.now from)) }
{
    write!(text, " {word}")?;
    put_source(text, values, from)
}

/// A word with an index and an argument behind it.
fn put_with_index(
    text: &mut String,
    word: &str,
    index: u32,
    values: &Values,
    from: Option<Text24>,
) -> Result<(), AllocError>
    ensures { OnOk result (AddsWords text.old text.new (indexed_words word.now index values.now from)) }
{
    write!(text, " {word} {index}")?;
    put_source(text, values, from)
}

fn put_insert_range(
    text: &mut String,
    index: u32,
    values: &Values,
    from: Option<Text24>,
) -> Result<(), AllocError>
    ensures { OnOk result (AddsWords text.old text.new (op_words (InsertRange index values.now) from)) }
{
    put_with_index(text, "insertrange", index, values, from)
}

fn put_remove_range(text: &mut String, index: u32, count: u32) -> Result<(), AllocError>
    ensures { OnOk result (AddsWords text.old text.new (op_words (RemoveRange index count) None)) }
{
    put_numbers(text, "removerange", index, count)
}

fn put_remove_keys(text: &mut String, keys: &Values, from: Option<Text24>) -> Result<(), AllocError>
    ensures { OnOk result (AddsWords text.old text.new (op_words (RemoveKeys keys.now) from)) }
{
    put_with(text, "removekeys", keys, from)
}

/// An operation, with the name that its values come from, if they come from one.
pub fn put_op(text: &mut String, op: &PlainOp, from: Option<Text24>) -> Result<(), AllocError>
    ensures { OnOk result (AddsWords text.old text.new (op_words op.now from)) }
{
    match op {
        PlainOp::Add(value) => write!(text, " add {value}"),
        PlainOp::AddRange(values) => put_with(text, "addrange", values, from),
        PlainOp::Insert(index, value) => write!(text, " insert {index} {value}"),
        PlainOp::InsertRange(index, values) => put_insert_range(text, *index, values, from),
        PlainOp::RemoveAt(index) => write!(text, " removeat {index}"),
        PlainOp::RemoveRange(index, count) => put_remove_range(text, *index, *count),
        PlainOp::Remove(value) => write!(text, " remove {value}"),
        PlainOp::RemoveAll(test) => {
            write!(text, " removeall")?;
            put_test(text, *test)
        }
        PlainOp::Replace(old, value) => write!(text, " replace {old} {value}"),
        PlainOp::SetItem(index, value) => write!(text, " setitem {index} {value}"),
        PlainOp::GetRange(index, count) => write!(text, " getrange {index} {count}"),
        PlainOp::Reverse => write!(text, " reverse"),
        PlainOp::Sort(order) => write!(text, " sort {order}"),
        PlainOp::Union(values) => put_with(text, "union", values, from),
        PlainOp::Intersect(values) => put_with(text, "intersect", values, from),
        PlainOp::Except(values) => put_with(text, "except", values, from),
        PlainOp::SymExcept(values) => put_with(text, "symexcept", values, from),
        PlainOp::AddPair(key, value) => write!(text, " addpair {key} {value}"),
        PlainOp::AddPairs(pairs) => put_with(text, "addpairs", pairs, from),
        PlainOp::SetPair(key, value) => write!(text, " setpair {key} {value}"),
        PlainOp::SetPairs(pairs) => put_with(text, "setpairs", pairs, from),
        PlainOp::RemoveKey(key) => write!(text, " removekey {key}"),
        PlainOp::RemoveKeys(keys) => put_remove_keys(text, keys, from),
        PlainOp::Push(value) => write!(text, " push {value}"),
        PlainOp::Pop => write!(text, " pop"),
        PlainOp::Enqueue(value) => write!(text, " enqueue {value}"),
        PlainOp::Dequeue => write!(text, " dequeue"),
        PlainOp::Clear => write!(text, " clear"),
    }
}

fn put_last_index_of(text: &mut String, value: Val) -> Result<(), AllocError>
    ensures { OnOk result (AddsWords text.old text.new (query_words (LastIndexOf value) None)) }
{
    put_valued(text, "lastindexof", value)
}

/// A query, with the name that its values come from, if they come from one.
pub fn put_query(text: &mut String, query: &Query, from: Option<Text24>) -> Result<(), AllocError>
    ensures { OnOk result (AddsWords text.old text.new (query_words query.now from)) }
{
    match query {
        Query::Count => write!(text, " count"),
        Query::Get(index) => write!(text, " get {index}"),
        Query::IndexOf(value) => write!(text, " indexof {value}"),
        Query::LastIndexOf(value) => put_last_index_of(text, *value),
        Query::Search(order, value) => write!(text, " search {order} {value}"),
        Query::Contains(value) => write!(text, " contains {value}"),
        Query::Actual(value) => write!(text, " actual {value}"),
        Query::Min => write!(text, " min"),
        Query::Max => write!(text, " max"),
        Query::Subset(values) => put_with(text, "subset", values, from),
        Query::Superset(values) => put_with(text, "superset", values, from),
        Query::ProperSubset(values) => put_with(text, "propersubset", values, from),
        Query::ProperSuperset(values) => put_with(text, "propersuperset", values, from),
        Query::Overlaps(values) => put_with(text, "overlaps", values, from),
        Query::SetEquals(values) => put_with(text, "setequals", values, from),
        Query::Lookup(key) => write!(text, " lookup {key}"),
        Query::KeyOf(key) => write!(text, " keyof {key}"),
        Query::HasValue(value) => write!(text, " hasvalue {value}"),
        Query::Keys => write!(text, " keys"),
        Query::Values => write!(text, " values"),
        Query::Peek => write!(text, " peek"),
        Query::Strategy => write!(text, " strategy"),
    }
}
