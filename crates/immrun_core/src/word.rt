ghost use Rattle.std.specs.Prelude.{◌≡◌, ◌≤◌, IfSome, IsSome, ◌↔◌, length};

use std::marker::Model;

/// A text of at most 64 bytes, which contracts see as its bytes.
///
/// Zeros stand behind it, so equal texts are equal buffers.
#[derive(Clone, Copy, Debug, PartialEq, Eq)]
pub struct Text64 {
    bytes: [u8; 64],
    size: u8,
}

impl Model for Text64 {
    ghost use Rattle.std.specs.Prelude.{List, ℕ, take, length};
    ghost use Rattle.immrun_core.specs.WordBuffer.{IsBuffer, buffer_of, buffer_again, size_again};

    ghost Value = { List ℕ };

    ghost view = { λ t. take t.size t.bytes };

    ghost invariant = { λ t. IsBuffer t.size t.bytes };

    ghost inverse = { λ text. record { bytes = buffer_of text; size = length text } };

    ghost inverse_ok = { λ t h i. record {
      bytes = buffer_again t.size t.bytes h i;
      size = size_again t.size t.bytes h i;
    } };
}

impl Text64 {
    /// The text, where it has at most 64 bytes.
    #[tactic(auto, using(crate::proofs::Buffer::buffer_is))]
    pub fn from_text(text: &str) -> Option<Text64>
        ensures short { IsSome result ↔ (length text.now ≤ 64) }
        ensures same { IfSome result (λ copy. copy ≡ text.now) }
    {
        let from = text.as_bytes();
        if from.len() > 64 {
            return None;
        }
        let mut bytes = [0; 64];
        bytes[..from.len()].copy_from_slice(from);
        Some(Text64 {
            bytes,
            size: from.len() as u8,
        })
    }

    /// The bytes of the text.
    pub fn as_bytes(&self) -> &[u8]
        ensures { result.now ≡ self.now }
    {
        &self.bytes[..self.size as usize]
    }
}

/// A word of the command line.
#[derive(Clone, Copy, Debug, PartialEq, Eq)]
pub enum Word {
    Short(Text64),
    /// A word of more than 64 bytes, or one that is not UTF-8.
    Other,
}
