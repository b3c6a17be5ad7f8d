//! A line as its words.

ghost use Rattle.std.specs.Prelude.{◌≡◌, ◌++◌, ◌&&◌, not, IfOk, OnOk};
ghost use Rattle.script_line.specs.Words.{is_blank, quoted_after, words, bytes_of, unless_empty};

use imm_base::Memory;
use smallvec::SmallVec;
use std::alloc::Global;

/// The words of a line. Most lines have few, which stay inline.
pub type Words<'a> = SmallVec<&'a [u8], 8>;

fn is_blank(byte: u8) -> bool
    ensures { result ≡ is_blank byte }
{
    byte == b' ' || byte == b'\t'
}

/// Whether this byte ends a word.
fn is_split(is_quoted: bool, byte: u8) -> bool
    ensures { result ≡ (is_blank byte && not is_quoted) }
{
    is_blank(byte) && !is_quoted
}

pub(crate) fn quoted_after(is_quoted: bool, byte: u8) -> bool
    ensures { result ≡ quoted_after is_quoted byte }
{
    if byte == b'"' { !is_quoted } else { is_quoted }
}

/// Adds the word, unless it is empty.
fn push_word<'a>(words: &mut Words<'a>, word: &'a [u8]) -> Result<(), Memory>
    ensures { OnOk result (bytes_of words.new.items
        ≡ bytes_of words.old.items ++ unless_empty word.now) }
{
    if !word.is_empty() {
        words.push(word)?;
    }
    Ok(())
}

/// The words of a line, in O(n) for n bytes.
pub fn split_words(alloc: Global, line: &[u8]) -> Result<Words<'_>, Memory>
    ensures { IfOk result (λ found. bytes_of found.items ≡ words line.now) }
{
    let mut words = SmallVec::new(alloc);
    let mut start = 0;
    let mut is_quoted = false;
    for (i, byte) in line.iter().enumerate() {
        if is_split(is_quoted, *byte) {
            push_word(&mut words, &line[start..i])?;
            start = i + 1;
        }
        is_quoted = quoted_after(is_quoted, *byte);
    }
    push_word(&mut words, &line[start..])?;
    Ok(words)
}
