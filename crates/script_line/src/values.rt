//! Words that stand for values and numbers.

ghost use Rattle.std.specs.Prelude.{◌≡◌, ◌<◌, length, IfSome, false, not, ◌&&◌, ◌==◌};
ghost use Rattle.script_line.specs.Values.{text_of, quoted_text, value_of, value, equals_sign, pair, integer, number};

use crate::codes::{Code, both_or_least};
use crate::numerals::{integer_of, number_of};
use crate::words::quoted_after;
use imm_base::{Text24, Val};

pub(crate) fn text_of(text: &[u8]) -> Option<Text24>
    ensures { result ≡ text_of text.now }
{
    Text24::from_bytes(text)
}

/// The text before a closing quote.
fn quoted_text(rest: &[u8]) -> Option<Text24>
    ensures { result ≡ quoted_text rest.now }
{
    match rest {
        [text @ .., b'"'] => text_of(text),
        _ => None,
    }
}

fn value_of(word: &[u8]) -> Option<Val>
    ensures { result ≡ value_of word.now }
{
    match word {
        [] => None,
        [b'"', rest @ ..] => quoted_text(rest).map(Val::Text),
        _ => integer_of(word).map(Val::Int),
    }
}

pub(crate) fn value(word: &[u8]) -> Result<Val, Code>
    ensures { result ≡ value word.now }
{
    value_of(word).ok_or(Code::Value)
}

/// The index of the first equals sign that stands in no pair of quotes.
fn equals_sign(word: &[u8]) -> Option<usize>
    ensures found { result ≡ equals_sign false word.now }
    ensures within { IfSome result (λ i. i < length word.now) }
{
    let mut is_quoted = false;
    for (i, byte) in word.iter().enumerate() {
        if is_sign(is_quoted, *byte) {
            return Some(i);
        }
        is_quoted = quoted_after(is_quoted, *byte);
    }
    None
}

fn is_sign(is_quoted: bool, byte: u8) -> bool
    ensures { result ≡ (byte == 61 && not is_quoted) }
{
    byte == b'=' && !is_quoted
}

/// A key, an equals sign and a value, without spaces.
pub(crate) fn pair(word: &[u8]) -> Result<(Val, Val), Code>
    ensures { result ≡ pair word.now }
{
    match equals_sign(word) {
        Some(i) => both_or_least(value(&word[..i]), value(&word[i + 1..])),
        None => Err(Code::Value),
    }
}

pub(crate) fn integer(word: &[u8]) -> Result<i64, Code>
    ensures { result ≡ integer word.now }
{
    integer_of(word).ok_or(Code::Value)
}

/// An index or a count.
pub(crate) fn number(word: &[u8]) -> Result<u32, Code>
    ensures { result ≡ number word.now }
{
    number_of(word).ok_or(Code::Value)
}
