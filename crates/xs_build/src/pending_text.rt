//! The text before the next line, which is no node yet.

ghost use Rattle.std.specs.Prelude.{◌≡◌, ◌++◌, [], IfSome, OnOk, if◌then◌else◌, string_bytes};
ghost use Rattle.xs_build.specs.Namespaces.{is_empty};

use std::alloc::{AllocError, Global};
use std::marker::Model;

/// The text before the next line. Where it is that of one line, it is borrowed from the document.
#[derive(Drop)]
pub struct PendingText<'a> {
    /// Whether the text is `line`; else it is `joined`.
    is_line: bool,
    line: &'a str,
    joined: String,
}

impl<'a> Model for PendingText<'a> {
    ghost use Rattle.std.specs.Prelude.{List, ℕ, if◌then◌else◌, string_bytes};

    ghost Value = { List ℕ };

    ghost view = { λ t. if t.is_line then t.line.now else string_bytes t.joined };
}

impl<'a> PendingText<'a> {
    /// No text.
    pub fn new(alloc: Global) -> PendingText<'a>
        ensures { result ≡ [] }
    {
        PendingText {
            is_line: true,
            line: "",
            joined: String::new(alloc),
        }
    }

    /// The characters.
    #[inline(always)]
    pub fn as_str(&self) -> &str
        ensures { result.now ≡ self.now }
    {
        if self.is_line {
            self.line
        } else {
            self.joined.as_str()
        }
    }

    /// Whether there is no text.
    #[inline(always)]
    #[tactic(auto, using(crate::proofs::TextLemmas::empty_by_length))]
    pub fn is_empty(&self) -> bool
        ensures { result ≡ is_empty self.now }
    {
        self.as_str().is_empty()
    }

    /// Forgets the text.
    #[inline(always)]
    pub fn clear(&mut self)
        ensures { self.new ≡ [] }
    {
        self.is_line = true;
        self.line = "";
    }

    /// Begins with a text, which is `line` where the document holds it as it is.
    #[inline(always)]
    pub fn begin(&mut self, text: &str, line: Option<&'a str>) -> Result<(), AllocError>
        requires none { self.old ≡ [] }
        requires same { IfSome line (λ line. line.now ≡ text.now) }
        ensures { OnOk result (self.new ≡ text.now) }
    {
        match line {
            Some(line) => {
                self.is_line = true;
                self.line = line;
                Ok(())
            }
            None => self.push(text),
        }
    }

    /// Appends a text.
    #[inline(never)]
    pub fn push(&mut self, text: &str) -> Result<(), AllocError>
        ensures { OnOk result (self.new ≡ self.old ++ text.now) }
    {
        copy_line(self.is_line, self.line, &mut self.joined)?;
        self.is_line = false;
        self.joined.push_str(text)?;
        Ok(())
    }
}

/// Copies the text of a line, if it is one, so that others can follow it.
fn copy_line(is_line: bool, line: &str, joined: &mut String) -> Result<(), AllocError>
    ensures { OnOk result (string_bytes joined.new
        ≡ (if is_line then line.now else string_bytes joined.old)) }
{
    if !is_line {
        return Ok(());
    }
    joined.clear();
    joined.push_str(line)?;
    Ok(())
}
