//! The text of an event, which lies in the event itself where it is short.
ghost use Rattle.std.specs.Prelude.{◌≡◌, ◌==◌, ◌≤◌, ◌↔◌, IfOk, IfSome, IsSome, length};
ghost use Rattle.std.specs.String.{string_bytes};
ghost use Rattle.xs_text.specs.Characters.{held_bytes};

use crate::short_text::ShortText;
use crate::text::TextBuf;
use std::alloc::{AllocError, Global};
use std::marker::Model;
use std::mem::size_of;

/// The most bytes of a text that lie in the value itself.
const SHORT: usize = 14;

/// A text: in the value itself, or shared with its copies.
#[derive(Debug, Drop)]
enum Held {
    Short(ShortText<SHORT>),
    Shared(TextBuf),
}

/// The characters of a text node (XPath 1.0, 5.7). Contracts see them as their bytes, in UTF-8.
///
/// A text of up to 14 bytes lies in the value, and takes no other memory. A longer one is a
/// `TextBuf`, and so is what `from_text` takes.
#[derive(Debug, Drop)]
pub struct Characters {
    held: Held,
}

impl Model for Characters {
    ghost use Rattle.std.specs.Prelude.{ℕ, List};
    ghost use Rattle.xs_text.specs.Characters.{held_bytes};

    ghost Value = { List ℕ };

    ghost view = { λ c. held_bytes c.held };
}

// Beside its kind an event has room for two pointers.
const _: () = prove!(size_of::<Characters>() <= 16);

impl Characters {
    /// The text `text`.
    pub fn of(alloc: Global, text: &str) -> Result<Characters, AllocError>
        ensures text { IfOk result (λ copy. copy ≡ text.now) }
    {
        match Characters::short(text) {
            Some(short) => Ok(short),
            None => Ok(Characters::from_text(TextBuf::of(alloc, text)?)),
        }
    }

    // The text `text`, if it is short.
    fn short(text: &str) -> Option<Characters>
        ensures variant { IsSome result ↔ (length text.now ≤ 14) }
        ensures text { IfSome result (λ copy. copy ≡ text.now) }
    {
        let short = ShortText::of(text)?;
        Some(Characters {
            held: Held::Short(short),
        })
    }

    /// The same text, with the bytes where they are.
    pub fn from_text(text: TextBuf) -> Characters
        ensures text { result ≡ text }
    {
        Characters {
            held: Held::Shared(text),
        }
    }

    /// The same text, which shares the bytes if they are many.
    pub fn sharing(text: &TextBuf) -> Result<Characters, AllocError>
        ensures text { IfOk result (λ copy. copy ≡ text.now) }
    {
        match Characters::short(text.as_str()) {
            Some(short) => Ok(short),
            None => Ok(Characters::from_text(text.copy()?)),
        }
    }

    /// The text that a string holds.
    pub fn from_string(text: String) -> Result<Characters, AllocError>
        ensures text { IfOk result (λ copy. copy ≡ string_bytes text) }
    {
        match Characters::short(text.as_str()) {
            Some(short) => Ok(short),
            None => Ok(Characters::from_text(TextBuf::from_string(text)?)),
        }
    }

    /// The text itself.
    pub fn as_str(&self) -> &str
        ensures text { result.now ≡ self.now }
    {
        match &self.held {
            Held::Short(text) => text.as_str(),
            Held::Shared(text) => text.as_str(),
        }
    }

    /// Its length in bytes.
    pub fn len(&self) -> usize
        ensures length { result ≡ length self.now }
    {
        match &self.held {
            Held::Short(text) => text.len(),
            Held::Shared(text) => text.as_str().len(),
        }
    }

    /// Whether it has no byte.
    pub fn is_empty(&self) -> bool
        ensures empty { result ≡ (length self.now == 0) }
    {
        self.len() == 0
    }

    /// The same text, with bytes that can be shared.
    pub fn to_text(&self, alloc: Global) -> Result<TextBuf, AllocError>
        ensures text { IfOk result (λ text. text ≡ self.now) }
    {
        match &self.held {
            Held::Short(text) => TextBuf::of(alloc, text.as_str()),
            Held::Shared(text) => text.copy(),
        }
    }

    /// A second text with the same bytes.
    pub fn copy(&self) -> Result<Characters, AllocError>
        ensures text { IfOk result (λ copy. copy ≡ self.now) }
    {
        let held = match &self.held {
            Held::Short(text) => Held::Short(text.copy()),
            Held::Shared(text) => Held::Shared(text.copy()?),
        };
        Ok(Characters { held })
    }
}
