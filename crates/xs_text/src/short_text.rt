//! Short texts, whose bytes lie in the value itself.
ghost use Rattle.std.specs.Prelude.{◌≡◌, ◌<◌, ◌≤◌, ◌↔◌, IfSome, IsSome, length};

use std::marker::Model;
use std::str;

/// A text of at most `N` bytes. Contracts see it as its bytes.
#[derive(Debug, Drop)]
pub(crate) struct ShortText<const N: usize> {
    len: u8,
    bytes: [u8; N],
}

impl<const N: usize> Model for ShortText<N> {
    ghost use Rattle.std.specs.Prelude.{ℕ, ◌≤◌, List, take};
    ghost use Rattle.std.specs.Str.{IsUtf8};

    ghost Value = { List ℕ };

    ghost view = { λ t. take t.len t.bytes };

    ghost invariant = { λ t. (t.len ≤ N) × ∥ IsUtf8 (take t.len t.bytes) ∥₁ };
}

impl<const N: usize> ShortText<N> {
    /// A copy of a text, if it is short.
    pub(crate) fn of(text: &str) -> Option<ShortText<N>>
        requires few { N < 256 }
        ensures variant { IsSome result ↔ (length text.now ≤ N) }
        ensures text { IfSome result (λ copy. copy ≡ text.now) }
    {
        let len = text.len();
        if len > N {
            return None;
        }
        let mut bytes = [0; N];
        bytes[..len].copy_from_slice(text.as_bytes());
        Some(ShortText {
            len: len as u8,
            bytes,
        })
    }

    /// The text itself.
    pub(crate) fn as_str(&self) -> &str
        ensures text { result.now ≡ self.now }
    {
        // They are those of a text, and are not tested again.
        unsafe { str::from_utf8_unchecked(&self.bytes[..self.len as usize]) }
    }

    /// Its length in bytes.
    pub(crate) fn len(&self) -> usize
        ensures length { result ≡ length self.now }
    {
        self.len as usize
    }

    /// A second text with the same bytes.
    pub(crate) fn copy(&self) -> ShortText<N>
        ensures text { result ≡ self.now }
    {
        ShortText {
            len: self.len,
            bytes: self.bytes,
        }
    }
}
