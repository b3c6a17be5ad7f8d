//! Words that are numbers.

ghost use Rattle.std.specs.Prelude.{◌≡◌, Some};
ghost use Rattle.std.specs.Char.{is_ascii_digit};
ghost use Rattle.std.specs.List.{list_all};
ghost use Rattle.script_line.specs.Numerals.{is_numeral, magnitude_of, positive_from, negative_from, integer_of, number_from, number_of};

fn are_digits(bytes: &[u8]) -> bool
    ensures { result ≡ list_all is_ascii_digit bytes.now }
{
    bytes.iter().all(|byte| byte.is_ascii_digit())
}

fn is_numeral(word: &[u8]) -> bool
    ensures { result ≡ is_numeral word.now }
{
    match word {
        [] => false,
        [_] => are_digits(word),
        [first, _, ..] => are_digits(word) && *first != b'0',
    }
}

/// The number that a numeral writes, where it has at most 64 bits.
fn magnitude_of(word: &[u8]) -> Option<u64>
    ensures { result ≡ magnitude_of word.now }
{
    if !is_numeral(word) {
        return None;
    }
    match str::from_utf8(word) {
        Ok(text) => text.parse::<u64>().ok(),
        Err(_) => None,
    }
}

fn positive(magnitude: Option<u64>) -> Option<i64>
    ensures { result ≡ positive_from magnitude }
{
    match magnitude {
        Some(value) if value < 1 << 63 => Some(value as i64),
        _ => None,
    }
}

/// The number with a minus sign, where it has 64 bits and is below 0.
fn negated(value: u64) -> Option<i64>
    ensures { result ≡ negative_from (Some value) }
{
    if 0 < value && value <= 1 << 63 {
        Some(-i128::from(value) as i64)
    } else {
        None
    }
}

fn negative(magnitude: Option<u64>) -> Option<i64>
    ensures { result ≡ negative_from magnitude }
{
    negated(magnitude?)
}

/// The signed number that a word writes.
pub(crate) fn integer_of(word: &[u8]) -> Option<i64>
    ensures { result ≡ integer_of word.now }
{
    match word {
        [] => None,
        [b'-', digits @ ..] => negative(magnitude_of(digits)),
        _ => positive(magnitude_of(word)),
    }
}

fn number_from(magnitude: Option<u64>) -> Option<u32>
    ensures { result ≡ number_from magnitude }
{
    match magnitude {
        Some(value) if value < 1 << 32 => Some(value as u32),
        _ => None,
    }
}

/// The number of 32 bits that a word writes.
pub(crate) fn number_of(word: &[u8]) -> Option<u32>
    ensures { result ≡ number_of word.now }
{
    number_from(magnitude_of(word))
}
