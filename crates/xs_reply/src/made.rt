//! The files that a run makes itself, whatever its library has.

ghost use Rattle.std.specs.Prelude.{◌≡◌, ◌+◌, ◌≤◌, [], length, take, IfOk, MatchOption, Some};
ghost use Rattle.std.specs.Prelude.{option_map};
ghost use Rattle.xs_reply.specs.Made.{two_files};
ghost use Rattle.xs_outside.specs.Edge.{asked_after, failed_after};

use std::alloc::Global;
use std::marker::Model;
use xs_outside::{FetchEnd, Library};
use xs_text::TextBuf;

/// The name of the stylesheet.
pub const MADE_SHEET: &str = "load.sheet";

/// The name of the source.
pub const MADE_SOURCE: &str = "load.source";

/// A library of a stylesheet and a source. None of its fetches fails.
#[derive(Drop)]
pub struct MadeFiles {
    sheet: Vec<u8>,
    source: Vec<u8>,
    asked: Vec<TextBuf>,
}

impl Model for MadeFiles {
    ghost use Rattle.xs_reply.specs.Made.{Made};

    ghost Value = { Made };

    ghost view = { λ m. record {
      sheet = m.sheet.items;
      source = m.source.items;
      asked = m.asked.items;
    } };
}

impl MadeFiles {
    /// A library of these two files, of which none was asked for.
    pub fn new(alloc: Global, sheet: Vec<u8>, source: Vec<u8>) -> MadeFiles
        ensures { result ≡ record { sheet = sheet.items; source = source.items; asked = [] } }
    {
        MadeFiles {
            sheet,
            source,
            asked: Vec::new(alloc),
        }
    }
}

impl Library for MadeFiles {
    ghost asked = { λ m. m.asked };

    ghost failed = { λ _. [] };

    ghost files = { λ m. Some (two_files m.sheet m.source) };

    // No other name is asked for: the stylesheet mentions no module.
    fn fetch(&mut self, alloc: Global, name: &str, limit: u64) -> Result<Vec<u8>, FetchEnd>
        ensures sheet { self.new.sheet ≡ self.old.sheet }
        ensures source { self.new.source ≡ self.old.source }
        ensures asked { self.new.asked ≡ asked_after result name.now self.old.asked }
        ensures failed { [] ≡ failed_after result name.now [] }
        ensures cut { IfOk result (λ v. length v.items ≤ limit + 1) }
        ensures bytes { IfOk result (λ v.
            MatchOption (two_files self.old.sheet self.old.source name.now) ⊥
            (λ b. v.items ≡ take (limit + 1) b)) }
    {
        let name_kept = TextBuf::of(alloc, name)?;
        self.asked.reserve(1)?;
        match find(&self.sheet, &self.source, name) {
            Some(bytes) => {
                let given = Vec::from_slice(alloc, cut(bytes, limit))?;
                self.asked.push_reserved(name_kept);
                Ok(given)
            }
            None => Err(FetchEnd::NoMemory),
        }
    }
}

/// The bytes of the file of this name.
#[tactic(auto, unfolding(crate::specs::Made::two_files))]
fn find<'a>(sheet: &'a [u8], source: &'a [u8], name: &str) -> Option<&'a [u8]>
    ensures { option_map (λ b. b.now) result ≡ two_files sheet.now source.now name.now }
{
    if name == MADE_SHEET {
        return Some(sheet);
    }
    if name == MADE_SOURCE {
        return Some(source);
    }
    None
}

/// At most `limit + 1` of the bytes.
fn cut(bytes: &[u8], limit: u64) -> &[u8]
    ensures { result.now ≡ take (limit + 1) bytes.now }
{
    let most = limit as usize;
    if most < bytes.len() {
        &bytes[..most + 1]
    } else {
        bytes
    }
}
