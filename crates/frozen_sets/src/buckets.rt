// The bucket of a key.
ghost use Rattle.std.specs.Prelude.{◌≡◌, ◌≤◌};
ghost use Rattle.frozen_sets.specs.Codes.{bucket_of, bytes_code, code_of};

use crate::pieces::{piece, text};
use imm_base::{HashEq, Val, ValEq};
use plain_model::Strategy;

// How keys are put into buckets: by the bits of `mask` of a code, which the strategy says.
#[derive(Clone, Copy)]
pub(crate) struct Buckets {
    pub(crate) strategy: Strategy,
    pub(crate) eq: ValEq,
    pub(crate) mask: usize,
}

impl Buckets {
    // The bucket of a key.
    pub(crate) fn bucket(&self, key: &Val) -> usize
        ensures bucket { result ≡ bucket_of self.now key.now }
        ensures within { result ≤ self.now.mask }
    {
        self.code(key) as usize & self.mask
    }

    fn code(&self, key: &Val) -> u32
        ensures { result ≡ code_of self.now.strategy self.now.eq key.now }
    {
        match self.strategy {
            Strategy::Linear => 0,
            Strategy::Length => text(key).len() as u32,
            Strategy::Slice { start, len } => bytes_code(piece(text(key), start, len)),
            Strategy::Hash => self.eq.hash(key).cast_unsigned(),
        }
    }
}

// The code of these bytes.
fn bytes_code(bytes: &[u8]) -> u32
    ensures { result ≡ bytes_code bytes.now }
{
    bytes.iter().fold(0, |code: u32, byte| {
        code.wrapping_mul(31).wrapping_add(u32::from(*byte))
    })
}
