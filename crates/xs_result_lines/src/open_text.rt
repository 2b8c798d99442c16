//! The text before the next event.
ghost use Rattle.std.specs.Prelude.{◌≡◌, ◌++◌, [], OnOk, length, take};
ghost use Rattle.std.specs.Str.{IsUtf8};
ghost use Rattle.xs_result_lines.specs.Lines.{bytes_of};
ghost use Rattle.xs_result_lines.specs.steps.Pending.{text_lines};

use crate::name_lines::append_joined;
use std::alloc::{AllocError, Global};
use std::marker::Model;
use xs_text::Characters;

/// A text that may go on, in the pieces that came, which are lent. Contracts see it as its bytes.
#[derive(Drop)]
pub(crate) struct OpenText<'e> {
    pieces: Vec<&'e Characters>,
}

impl<'e> Model for OpenText<'e> {
    ghost use Rattle.std.specs.Prelude.{List, ℕ};
    ghost use Rattle.xs_result_lines.specs.steps.Pending.{joined};

    ghost Value = { List ℕ };

    ghost view = { λ t. joined t.pieces.items };
}

impl<'e> OpenText<'e> {
    /// No text.
    pub(crate) fn new(alloc: Global) -> OpenText<'e>
        ensures { result ≡ [] }
    {
        OpenText {
            pieces: Vec::new(alloc),
        }
    }

    /// One piece more, at the end.
    pub(crate) fn push(&mut self, text: &'e Characters) -> Result<(), AllocError>
        ensures { OnOk result (self.new ≡ self.old ++ text.now) }
    {
        self.pieces.push(text)?;
        Ok(())
    }

    /// Appends its line, unless it is empty. Then there is no text.
    pub(crate) fn write(&mut self, out: &mut Vec<u8>) -> Result<(), AllocError>
        ensures state { OnOk result (self.new ≡ []) }
        ensures written { OnOk result
            (out.new.items ≡ out.old.items ++ bytes_of (text_lines self.old)) }
        ensures front { take (length out.old.items) out.new.items ≡ out.old.items }
        ensures utf8 { IsUtf8 out.old.items → IsUtf8 out.new.items }
    {
        if self.pieces.is_empty() {
            return Ok(());
        }
        append_joined(out, self.pieces.as_slice())?;
        self.pieces.clear();
        Ok(())
    }
}
