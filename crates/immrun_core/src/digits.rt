//! Numbers in decimal, without memory.
ghost use Rattle.std.specs.Prelude.{◌≡◌, ◌≤◌, ◌<◌, ◌^◌, ℕ, None, IfSome, decimal, drop, length};

use std::str;

/// The most digits of a number of 32 bits.
pub const MAX_DIGITS: usize = 10;

/// Writes a number so that its digits end where the buffer ends, and answers where they begin.
pub fn write_digits(number: u32, into: &mut [u8; MAX_DIGITS]) -> usize
    ensures written { drop result into.new ≡ decimal number }
    ensures within { result ≤ 10 }
{
    let mut left = number;
    let mut start = MAX_DIGITS;
    'digits: while left >= 10 {
        start -= 1;
        into[start] = b'0' + (left % 10) as u8;
        left /= 10;
    }
    start -= 1;
    into[start] = b'0' + left as u8;
    start
}

/// The digits that begin there.
pub fn digits_from(bytes: &[u8], start: usize) -> &[u8]
    requires { start ≤ length bytes.now }
    ensures { result.now ≡ drop start bytes.now }
{
    &bytes[start..]
}

/// The number of 32 bits that these bytes write as it is written here.
pub fn number_of(bytes: &[u8]) -> Option<u32>
    ensures is { IfSome result (λ n. bytes.now ≡ decimal n) }
    ensures other { result ≡ None → (n : ℕ) → n < 2 ^ 32 → ¬ (bytes.now ≡ decimal n) }
{
    let Ok(text) = str::from_utf8(bytes) else {
        return None;
    };
    let Ok(number) = text.parse::<u32>() else {
        return None;
    };
    let mut digits = [0; MAX_DIGITS];
    let start = write_digits(number, &mut digits);
    if digits_from(&digits, start) == bytes {
        Some(number)
    } else {
        None
    }
}
