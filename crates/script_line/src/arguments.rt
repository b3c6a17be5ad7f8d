//! The words that follow a word, where their number is fixed.

ghost use Rattle.std.specs.Prelude.{◌≡◌};
ghost use Rattle.script_line.specs.Words.{bytes_of};
ghost use Rattle.script_line.specs.Values.{value, integer, number};
ghost use Rattle.script_line.specs.Names.{cell_name, local_name};
ghost use Rattle.script_line.specs.Comparers.{order, test_word};
ghost use Rattle.script_line.specs.Arguments.{no_word, one, two};

use crate::codes::{Code, both_or_least};
use crate::comparers::{TestWord, order, test_word};
use crate::names::{cell_name, local_name};
use crate::values::{integer, number, value};
use imm_base::{Text24, Val, ValOrder};

pub(crate) fn no_word(words: &[&[u8]]) -> Result<(), Code>
    ensures { result ≡ no_word (bytes_of words.now) }
{
    match words {
        [] => Ok(()),
        _ => Err(Code::Word),
    }
}

pub(crate) fn one_value(words: &[&[u8]]) -> Result<Val, Code>
    ensures { result ≡ one value (bytes_of words.now) }
{
    match words {
        [v] => value(v),
        _ => Err(Code::Word),
    }
}

pub(crate) fn one_integer(words: &[&[u8]]) -> Result<i64, Code>
    ensures { result ≡ one integer (bytes_of words.now) }
{
    match words {
        [i] => integer(i),
        _ => Err(Code::Word),
    }
}

pub(crate) fn one_number(words: &[&[u8]]) -> Result<u32, Code>
    ensures { result ≡ one number (bytes_of words.now) }
{
    match words {
        [n] => number(n),
        _ => Err(Code::Word),
    }
}

pub(crate) fn one_order(words: &[&[u8]]) -> Result<ValOrder, Code>
    ensures { result ≡ one order (bytes_of words.now) }
{
    match words {
        [o] => order(o),
        _ => Err(Code::Word),
    }
}

pub(crate) fn one_local_name(words: &[&[u8]]) -> Result<Text24, Code>
    ensures { result ≡ one local_name (bytes_of words.now) }
{
    match words {
        [x] => local_name(x),
        _ => Err(Code::Word),
    }
}

pub(crate) fn two_values(words: &[&[u8]]) -> Result<(Val, Val), Code>
    ensures { result ≡ two value value (bytes_of words.now) }
{
    match words {
        [u, v] => both_or_least(value(u), value(v)),
        _ => Err(Code::Word),
    }
}

pub(crate) fn two_numbers(words: &[&[u8]]) -> Result<(u32, u32), Code>
    ensures { result ≡ two number number (bytes_of words.now) }
{
    match words {
        [m, n] => both_or_least(number(m), number(n)),
        _ => Err(Code::Word),
    }
}

pub(crate) fn number_and_value(words: &[&[u8]]) -> Result<(u32, Val), Code>
    ensures { result ≡ two number value (bytes_of words.now) }
{
    match words {
        [n, v] => both_or_least(number(n), value(v)),
        _ => Err(Code::Word),
    }
}

pub(crate) fn test_and_value(words: &[&[u8]]) -> Result<(TestWord, Val), Code>
    ensures { result ≡ two test_word value (bytes_of words.now) }
{
    match words {
        [t, v] => both_or_least(test_word(t), value(v)),
        _ => Err(Code::Word),
    }
}

pub(crate) fn order_and_value(words: &[&[u8]]) -> Result<(ValOrder, Val), Code>
    ensures { result ≡ two order value (bytes_of words.now) }
{
    match words {
        [o, v] => both_or_least(order(o), value(v)),
        _ => Err(Code::Word),
    }
}

pub(crate) fn cell_and_local_name(words: &[&[u8]]) -> Result<(Text24, Text24), Code>
    ensures { result ≡ two cell_name local_name (bytes_of words.now) }
{
    match words {
        [c, x] => both_or_least(cell_name(c), local_name(x)),
        _ => Err(Code::Word),
    }
}

pub(crate) fn one_cell_name(words: &[&[u8]]) -> Result<Text24, Code>
    ensures { result ≡ one cell_name (bytes_of words.now) }
{
    match words {
        [c] => cell_name(c),
        _ => Err(Code::Word),
    }
}

pub(crate) fn cell_and_value(words: &[&[u8]]) -> Result<(Text24, Val), Code>
    ensures { result ≡ two cell_name value (bytes_of words.now) }
{
    match words {
        [c, v] => both_or_least(cell_name(c), value(v)),
        _ => Err(Code::Word),
    }
}
