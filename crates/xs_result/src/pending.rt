//! The text before the next event.

ghost use Rattle.std.specs.Prelude.{◌≡◌, ◌++◌, [], IfOk, OnOk};
ghost use Rattle.xs_result.specs.Building.{option_events, text_events};

use std::alloc::{AllocError, Global};
use std::marker::Model;
use xs_text::Characters;

/// A text that may go on. Contracts see it as its bytes.
#[derive(Drop)]
pub(crate) struct PendingText {
    /// The only piece so far.
    one: Option<Characters>,
    /// Otherwise the pieces, joined.
    several: String,
}

impl Model for PendingText {
    ghost use Rattle.std.specs.Prelude.{List, ℕ, string_bytes};
    ghost use Rattle.std.specs.Option.{unwrap_or};

    ghost Value = { List ℕ };

    ghost view = { λ t. unwrap_or t.one (string_bytes t.several) };
}

impl PendingText {
    /// No text.
    pub(crate) fn new(alloc: Global) -> PendingText
        ensures { result ≡ [] }
    {
        PendingText {
            one: None,
            several: String::new(alloc),
        }
    }

    /// The text so far.
    fn as_str(&self) -> &str
        ensures { result.now ≡ self.now }
    {
        match &self.one {
            Some(text) => text.as_str(),
            None => self.several.as_str(),
        }
    }

    /// One piece more, at the end.
    pub(crate) fn push(&mut self, text: &Characters) -> Result<(), AllocError>
        ensures { OnOk result (self.new ≡ self.old ++ text.now) }
    {
        if self.as_str().is_empty() {
            self.one = Some(text.copy()?);
            return Ok(());
        }
        if let Some(first) = &self.one {
            self.several.clear();
            self.several.push_str(first.as_str())?;
        }
        self.several.push_str(text.as_str())?;
        self.one = None;
        Ok(())
    }

    /// The text, which is ended; none where it is empty.
    pub(crate) fn end(&mut self, alloc: Global) -> Result<Option<Characters>, AllocError>
        ensures text { IfOk result (λ text. option_events text ≡ text_events self.old) }
        ensures empty { OnOk result (self.new ≡ []) }
    {
        let text = self.text(alloc)?;
        self.one = None;
        self.several.clear();
        Ok(text)
    }

    /// The text, if it is not empty.
    #[tactic(auto, unfolding(crate::specs::Building::text_events))]
    fn text(&self, alloc: Global) -> Result<Option<Characters>, AllocError>
        ensures { IfOk result (λ text. option_events text ≡ text_events self.now) }
    {
        if self.as_str().is_empty() {
            return Ok(None);
        }
        match &self.one {
            Some(text) => Ok(Some(text.copy()?)),
            None => Ok(Some(Characters::of(alloc, self.several.as_str())?)),
        }
    }
}
