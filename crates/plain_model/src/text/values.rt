//! Values, collections and arguments.
ghost use Rattle.std.specs.Prelude.{OnOk, map};
ghost use Rattle.imm_base.specs.Spell.{val_text};
ghost use Rattle.plain_model.specs.Text.{AddsWords, pair_word, values_words, source_words, counted_words, list_words, collection_words, more_words, short_words, shown_words};

use crate::{Shown, Values};
use imm_base::{Text24, Val};
use std::alloc::AllocError;

fn put_elements(text: &mut String, elements: &[Val]) -> Result<(), AllocError>
    ensures { OnOk result (AddsWords text.old text.new (map val_text elements.now)) }
{
    for value in elements {
        write!(text, " {value}")?;
    }
    Ok(())
}

fn put_pairs(text: &mut String, pairs: &[(Val, Val)]) -> Result<(), AllocError>
    ensures { OnOk result (AddsWords text.old text.new (map pair_word pairs.now)) }
{
    for pair in pairs {
        let key = pair.0;
        let value = pair.1;
        write!(text, " {key}={value}")?;
    }
    Ok(())
}

pub fn put_values(text: &mut String, values: &Values) -> Result<(), AllocError>
    ensures { OnOk result (AddsWords text.old text.new (values_words values.now)) }
{
    match values {
        Values::List(elements) => put_elements(text, elements.as_slice()),
        Values::Pairs(pairs) => put_pairs(text, pairs.as_slice()),
        Values::Seq { first, count } => write!(text, " seq {first} {count}"),
        Values::Unset => write!(text, " -"),
    }
}

/// An argument: its values, or the name that they come from.
pub fn put_source(
    text: &mut String,
    values: &Values,
    from: Option<Text24>,
) -> Result<(), AllocError>
    ensures { OnOk result (AddsWords text.old text.new (source_words values.now from)) }
{
    match from {
        Some(name) => write!(text, " from {name}"),
        None => put_values(text, values),
    }
}

/// A count, and then some elements.
pub fn put_counted(text: &mut String, count: u64, values: &Values) -> Result<(), AllocError>
    ensures { OnOk result (AddsWords text.old text.new (counted_words count values.now)) }
{
    write!(text, " {count}:")?;
    put_values(text, values)
}

/// The elements of an array behind their count.
pub fn put_list(text: &mut String, elements: &[Val]) -> Result<(), AllocError>
    ensures { OnOk result (AddsWords text.old text.new (list_words elements.now)) }
{
    let count = elements.len();
    write!(text, " {count}:")?;
    put_elements(text, elements)
}

/// All elements behind their count; an unset array has a word of its own.
pub fn put_collection(text: &mut String, values: &Values) -> Result<(), AllocError>
    ensures { OnOk result (AddsWords text.old text.new (collection_words values.now)) }
{
    match values {
        Values::Unset => write!(text, " default"),
        _ => put_counted(text, values.count(), values),
    }
}

/// Two points, where a collection has more elements than are shown.
fn put_more(text: &mut String, count: u64, shown: u64) -> Result<(), AllocError>
    ensures { OnOk result (AddsWords text.old text.new (more_words count shown)) }
{
    if shown < count {
        write!(text, " ..")?;
    }
    Ok(())
}

/// A collection in short: its count, and the first elements.
pub fn put_short(text: &mut String, count: u32, first: &Values) -> Result<(), AllocError>
    ensures { OnOk result (AddsWords text.old text.new (short_words count first.now)) }
{
    put_counted(text, count as u64, first)?;
    put_more(text, count as u64, first.count())
}

/// An array in short.
pub fn put_shown(text: &mut String, shown: &Shown) -> Result<(), AllocError>
    ensures { OnOk result (AddsWords text.old text.new (shown_words shown.now)) }
{
    let count = shown.count as u64;
    let first = shown.first.as_slice();
    write!(text, " {count}:")?;
    put_elements(text, first)?;
    put_more(text, count, first.len() as u64)
}
