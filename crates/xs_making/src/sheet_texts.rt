//! Texts and names of a stylesheet in memory of an evaluation's own.
ghost use Rattle.std.specs.Prelude.{◌≡◌, true, IfOk, IfSome};
ghost use Rattle.std.specs.Cow.{cow_str_bytes};
ghost use Rattle.xs_making.specs.Labels.{put_label, put_prefix};

use crate::compared::is_text;
use crate::labels::put_prefix;
use crate::recent::is_name;
use crate::slots::{Slots, TRIED};
use std::alloc::{AllocError, Global};
use std::borrow::CowStr;
use xs_text::TextBuf;
use xs_trace::event::Label;

/// Copies of the texts and names of a stylesheet that an evaluation puts. Each is copied once, and
/// the events in which it is share that copy: so evaluations of one stylesheet share no text.
#[derive(Drop)]
pub struct SheetTexts {
    alloc: Global,
    texts: Slots<TextBuf>,
    names: Slots<Label>,
}

impl SheetTexts {
    /// With no copy yet.
    pub fn new(alloc: Global) -> SheetTexts {
        SheetTexts {
            alloc,
            texts: Slots::new(alloc),
            names: Slots::new(alloc),
        }
    }

    /// The copy of a text.
    pub fn text(&mut self, text: &str) -> Result<TextBuf, AllocError>
        ensures text { IfOk result (λ copy. copy ≡ text.now) }
    {
        let place = place_of(text);
        if let Some(kept) = self.texts.at(place, 0) {
            if is_text(kept.as_str(), text) {
                return kept.copy();
            }
        }
        match self.kept_text(place, text)? {
            Some(copy) => Ok(copy),
            None => self.copy_text(place, text),
        }
    }

    /// The copy of a text that is lent; one that is owned stays as it is.
    pub fn text_of(&mut self, text: CowStr<'_, Global>) -> Result<TextBuf, AllocError>
        ensures text { IfOk result (λ copy. copy ≡ cow_str_bytes text.entry) }
    {
        match text {
            CowStr::Borrowed(text) => self.text(text),
            CowStr::Owned(text) => TextBuf::from_string(text),
        }
    }

    /// The copy of a name as it is put: with the prefix that fits its namespace.
    pub fn label(&mut self, uri: &str, local: &str, prefix: &str) -> Result<Label, AllocError>
        ensures label { IfOk result (λ label. label ≡ put_label uri.now local.now prefix.now) }
    {
        let prefix = put_prefix(uri, prefix);
        let place = place_of(local);
        if let Some(kept) = self.names.at(place, 0) {
            if is_name(kept, uri, local, prefix) {
                return kept.copy();
            }
        }
        match self.kept_name(place, uri, local, prefix)? {
            Some(name) => Ok(name),
            None => self.copy_name(place, uri, local, prefix),
        }
    }

    /// The copy of a text, if it is in another slot than the first.
    fn kept_text(&self, place: usize, text: &str) -> Result<Option<TextBuf>, AllocError>
        ensures { IfOk result (λ found. IfSome found (λ copy. copy ≡ text.now)) }
    {
        for step in 1..TRIED {
            match self.texts.at(place, step) {
                Some(kept) => {
                    if is_text(kept.as_str(), text) {
                        return Ok(Some(kept.copy()?));
                    }
                }
                None => return Ok(None),
            }
        }
        Ok(None)
    }

    /// Copies a text, and keeps the copy.
    fn copy_text(&mut self, place: usize, text: &str) -> Result<TextBuf, AllocError>
        ensures { IfOk result (λ copy. copy ≡ text.now) }
    {
        let copy = TextBuf::of(self.alloc, text)?;
        self.texts.keep(place, copy.copy()?)?;
        Ok(copy)
    }

    /// The copy of a name, if it is in another slot than the first.
    fn kept_name(
        &self,
        place: usize,
        uri: &str,
        local: &str,
        prefix: &str,
    ) -> Result<Option<Label>, AllocError>
        ensures { IfOk result (λ found. IfSome found (λ name.
            name ≡ record { uri = uri.now; local = local.now; prefix = prefix.now })) }
    {
        for step in 1..TRIED {
            match self.names.at(place, step) {
                Some(kept) => {
                    if is_name(kept, uri, local, prefix) {
                        return Ok(Some(kept.copy()?));
                    }
                }
                None => return Ok(None),
            }
        }
        Ok(None)
    }

    /// Copies a name, and keeps the copy.
    fn copy_name(
        &mut self,
        place: usize,
        uri: &str,
        local: &str,
        prefix: &str,
    ) -> Result<Label, AllocError>
        ensures { IfOk result (λ name.
            name ≡ record { uri = uri.now; local = local.now; prefix = prefix.now }) }
    {
        let uri = self.text(uri)?;
        let local = self.text(local)?;
        let prefix = self.text(prefix)?;
        let name = Label::of(self.alloc, uri, local, prefix)?;
        self.names.keep(place, name.copy()?)?;
        Ok(name)
    }
}

/// Where a text is looked for: by its length and three of its bytes, since texts and names of one
/// stylesheet seldom agree in these.
fn place_of(text: &str) -> usize {
    let bytes = text.as_bytes();
    let len = bytes.len();
    if len == 0 {
        return 0;
    }
    let first = bytes[0] as usize;
    let middle = bytes[len / 2] as usize;
    let last = bytes[len - 1] as usize;
    first * 3 + middle * 9 + last + len
}
