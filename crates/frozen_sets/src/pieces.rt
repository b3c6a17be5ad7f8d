// The texts of keys, and pieces of them.
ghost use Rattle.std.specs.Prelude.{◌≡◌, ◌≤◌, fold, length, map};
ghost use Rattle.frozen_sets.specs.Codes.{less_of, piece_of};
ghost use Rattle.plain_model.specs.Frozen.{least_length, text_bytes};

use imm_base::Val;

// The bytes of a text, and none of an integer.
pub(crate) fn text(key: &Val) -> &[u8]
    ensures text { result.now ≡ text_bytes key.now }
    ensures short { length result.now ≤ 24 }
{
    match key {
        Val::Int(_) => &[],
        Val::Text(text) => text.as_bytes(),
    }
}

// So many bytes from the place `start` on, as far as there are some.
pub(crate) fn piece(bytes: &[u8], start: u32, len: u32) -> &[u8]
    ensures { result.now ≡ piece_of start len bytes.now }
{
    let (start, len) = (start as usize, len as usize);
    if bytes.len() <= start {
        return &[];
    }
    let rest = &bytes[start..];
    if rest.len() <= len {
        rest
    } else {
        &rest[..len]
    }
}

// The length of the shortest text.
pub(crate) fn least_length(keys: &[Val]) -> u32
    ensures least { result ≡ least_length (map text_bytes keys.now) }
    ensures short { result ≤ 24 }
{
    match keys.first() {
        None => 0,
        Some(first) => least_from(text(first).len() as u32, keys),
    }
}

// The least of a number and the lengths of the texts.
fn least_from(most: u32, keys: &[Val]) -> u32
    ensures { result ≡ fold less_of most keys.now }
{
    keys.iter()
        .fold(most, |least, key| least.min(text(key).len() as u32))
}
