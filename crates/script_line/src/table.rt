//! Tables of words.

ghost use Rattle.std.specs.Prelude.{◌≡◌};
ghost use Rattle.script_line.specs.Table.{entry, rows_of};

use crate::codes::Code;

/// What stands beside a word in a table.
pub(crate) fn entry<T: Copy>(rows: &[(&[u8], T)], word: &[u8]) -> Result<T, Code>
    ensures { result ≡ entry (rows_of rows.now) word.now }
{
    for (name, found) in rows {
        if word == *name {
            return Ok(*found);
        }
    }
    Err(Code::Word)
}
