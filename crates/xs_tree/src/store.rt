//! The names and the texts of a tree's nodes.

ghost use Rattle.std.specs.Prelude.{◌≡◌, ◌≤◌, [], false, length, slice_get, string_bytes, true};
ghost use Rattle.std.specs.Prelude.{IfOk};
ghost use Rattle.std.specs.Option.{option_copied, unwrap_or};
ghost use Rattle.xs_tree.specs.Store.{name_at, text_at, text_in, IsPlaceIn, IsTextIn, Grows};

use crate::entries::TextPlace;
use crate::kinds::Kind;
use crate::names::{Name, NameText};
use crate::table::{NameTable, UriTable};
use std::alloc::{AllocError, Global};

/// The names and the namespace URIs, each kept once, and all other texts one after another.
#[derive(Drop)]
pub struct Store {
    pub names: NameTable,
    pub uris: UriTable,
    pub text: String,
}

impl Store {
    /// A store of nothing.
    pub fn new(alloc: Global) -> Store
        ensures empty { string_bytes result.text ≡ [] }
    {
        Store {
            names: NameTable::new(alloc),
            uris: UriTable::new(alloc),
            text: String::new(alloc),
        }
    }

    /// Keeps a name if there is one.
    pub fn keep_name(&mut self, name: Option<Name>) -> Result<u32, AllocError>
        ensures stored { IfOk result (λ number. name_at self.new.names number ≡ name) }
        ensures numbered { IfOk result (λ number. number ≤ length self.new.names) }
        ensures grown { Grows self.old self.new }
    {
        self.names.intern_any(name)
    }

    /// Keeps the text of a node: of a namespace node in the table of URIs, of any other in the
    /// buffer.
    #[inline(always)]
    pub fn keep_text(&mut self, kind: Kind, text: &str) -> Result<TextPlace, AllocError>
        ensures stored { IfOk result (λ place. text_at self.new kind place ≡ text.now) }
        ensures within { IfOk result (λ place. IsTextIn self.new kind place) }
        ensures grown { Grows self.old self.new }
    {
        match kind {
            Kind::Space => self.keep_uri(text),
            _ => self.push_text(text),
        }
    }

    // Keeps a namespace URI.
    fn keep_uri(&mut self, uri: &str) -> Result<TextPlace, AllocError>
        ensures stored { IfOk result (λ place. text_in self.new true place ≡ uri.now) }
        ensures within { IfOk result (λ place. IsPlaceIn self.new true place) }
        ensures grown { Grows self.old self.new }
    {
        let uri = NameText::of(*self.text.allocator(), uri)?;
        let number = self.uris.intern(uri)?;
        Ok(TextPlace {
            start: number,
            end: 0,
        })
    }

    // Keeps a text at the end of the buffer, or nothing of an empty one.
    #[inline(always)]
    fn push_text(&mut self, text: &str) -> Result<TextPlace, AllocError>
        ensures stored { IfOk result (λ place. text_in self.new false place ≡ text.now) }
        ensures within { IfOk result (λ place. IsPlaceIn self.new false place) }
        ensures grown { Grows self.old self.new }
    {
        if text.is_empty() {
            return Ok(TextPlace { start: 0, end: 0 });
        }
        let start = small(self.text.len())?;
        let end = small(self.text.len().saturating_add(text.len()))?;
        self.text.push_str(text)?;
        Ok(TextPlace { start, end })
    }

    /// The name with a number.
    pub fn name(&self, number: u32) -> Option<&Name>
        ensures name { option_copied result ≡ name_at self.now.names number }
    {
        self.names.get(number)
    }

    /// The text of a node of this kind, at its place.
    pub fn text(&self, kind: Kind, place: TextPlace) -> &str
        requires { IsTextIn self.now kind place }
        ensures text { result.now ≡ text_at self.now kind place }
    {
        match kind {
            Kind::Space => self.uri(place.start),
            _ => &self.text.as_str()[place.start as usize..place.end as usize],
        }
    }

    // The namespace URI with a number.
    fn uri(&self, number: u32) -> &str
        ensures { result.now ≡ unwrap_or (slice_get self.now.uris number) [] }
    {
        match self.uris.get(number) {
            Some(uri) => uri.as_str(),
            None => "",
        }
    }
}

// A place in the buffer as an entry keeps it.
fn small(place: usize) -> Result<u32, AllocError>
    ensures same { IfOk result (λ p. p ≡ place) }
{
    u32::try_from(place).map_err(|_| AllocError)
}
