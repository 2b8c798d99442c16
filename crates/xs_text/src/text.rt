//! Texts that are owned.
ghost use Rattle.std.specs.Prelude.{◌≡◌, IfOk};
ghost use Rattle.std.specs.String.{string_bytes};
ghost use Rattle.xs_text.specs.Text.{block_bytes};

use crate::short_text::ShortText;
use std::alloc::{AllocError, Global};
use std::marker::Model;
use std::sync::Arc;

/// The most bytes of a text that lie in its block itself.
const SHORT: usize = 30;

/// The bytes of a text: in the block itself, or where they are too many, in a string of their own.
#[derive(Debug, Drop)]
enum Block {
    Short(ShortText<SHORT>),
    Long(String),
}

/// A text. Contracts see it as its bytes, in UTF-8.
///
/// It is one pointer: a text of up to 30 bytes takes one block of memory, a longer one two, and a
/// copy takes none, since it shares the bytes.
#[derive(Debug, Drop)]
pub struct TextBuf {
    block: Arc<Block, Global>,
}

impl Model for TextBuf {
    ghost use Rattle.std.specs.Prelude.{ℕ, List};
    ghost use Rattle.std.specs.Arc.{arc_value};
    ghost use Rattle.xs_text.specs.Text.{block_bytes};

    ghost Value = { List ℕ };

    ghost view = { λ a. block_bytes (arc_value a.block) };
}

impl TextBuf {
    /// The text `text`, in memory of its own.
    pub fn of(alloc: Global, text: &str) -> Result<TextBuf, AllocError>
        ensures text { IfOk result (λ copy. copy ≡ text.now) }
    {
        Ok(TextBuf {
            block: Arc::new(alloc, block_of(alloc, text)?)?,
        })
    }

    /// The text that a string holds.
    pub fn from_string(text: String) -> Result<TextBuf, AllocError>
        ensures text { IfOk result (λ copy. copy ≡ string_bytes text) }
    {
        if text.len() <= SHORT {
            return TextBuf::of(*text.allocator(), text.as_str());
        }
        Ok(TextBuf {
            block: Arc::new(*text.allocator(), Block::Long(text))?,
        })
    }

    /// The text itself.
    pub fn as_str(&self) -> &str
        ensures text { result.now ≡ self.now }
    {
        match &*self.block {
            Block::Short(text) => text.as_str(),
            Block::Long(text) => text.as_str(),
        }
    }

    /// A second text with the same bytes.
    pub fn copy(&self) -> Result<TextBuf, AllocError>
        ensures text { IfOk result (λ copy. copy ≡ self.now) }
    {
        Ok(TextBuf {
            block: Arc::try_clone(&self.block)?,
        })
    }
}

// A block with these bytes.
fn block_of(alloc: Global, text: &str) -> Result<Block, AllocError>
    ensures bytes { IfOk result (λ block. block_bytes block ≡ text.now) }
{
    match ShortText::of(text) {
        Some(short) => Ok(Block::Short(short)),
        None => Ok(Block::Long(String::from_str(alloc, text)?)),
    }
}
