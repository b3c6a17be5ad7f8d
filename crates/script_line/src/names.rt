//! Words that stand for names.

ghost use Rattle.std.specs.Prelude.{◌≡◌, ◌||◌};
ghost use Rattle.std.specs.List.{list_all};
ghost use Rattle.std.specs.Char.{is_ascii_digit};
ghost use Rattle.script_line.specs.Names.{is_capital, is_small, is_name, cell_name, local_name};

use crate::codes::Code;
use crate::values::text_of;
use imm_base::Text24;

fn is_capital(byte: u8) -> bool
    ensures { result ≡ is_capital byte }
{
    byte.is_ascii_uppercase()
}

fn is_small(byte: u8) -> bool
    ensures { result ≡ is_small byte }
{
    byte.is_ascii_lowercase()
}

fn are_capitals_or_digits(bytes: &[u8]) -> bool
    ensures { result ≡ list_all (λ c. is_capital c || is_ascii_digit c) bytes.now }
{
    bytes
        .iter()
        .all(|byte| is_capital(*byte) || byte.is_ascii_digit())
}

fn are_small_or_digits(bytes: &[u8]) -> bool
    ensures { result ≡ list_all (λ c. is_small c || is_ascii_digit c) bytes.now }
{
    bytes
        .iter()
        .all(|byte| is_small(*byte) || byte.is_ascii_digit())
}

fn is_cell_name(word: &[u8]) -> bool
    ensures { result ≡ is_name is_capital word.now }
{
    match word {
        [] => false,
        [first, rest @ ..] => {
            is_capital(*first) && rest.len() <= 7 && are_capitals_or_digits(rest)
        }
    }
}

fn is_local_name(word: &[u8]) -> bool
    ensures { result ≡ is_name is_small word.now }
{
    match word {
        [] => false,
        [first, rest @ ..] => is_small(*first) && rest.len() <= 7 && are_small_or_digits(rest),
    }
}

pub(crate) fn cell_name(word: &[u8]) -> Result<Text24, Code>
    ensures { result ≡ cell_name word.now }
{
    if !is_cell_name(word) {
        return Err(Code::Name);
    }
    text_of(word).ok_or(Code::Name)
}

pub(crate) fn local_name(word: &[u8]) -> Result<Text24, Code>
    ensures { result ≡ local_name word.now }
{
    if !is_local_name(word) {
        return Err(Code::Name);
    }
    text_of(word).ok_or(Code::Name)
}
