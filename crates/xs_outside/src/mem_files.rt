//! A library that lives in memory.

ghost use Rattle.std.specs.Prelude.{◌≡◌, ◌+◌, ◌≤◌, [], length, map, take, IfOk, find, IsFalse};
ghost use Rattle.std.specs.Prelude.{IsTrue, MatchOption, Some, string_bytes};
ghost use Rattle.std.specs.Option.{option_copied};
ghost use Rattle.std.specs.Str.{bytes_eq};
ghost use Rattle.xs_outside.specs.Edge.{asked_after, failed_after};
ghost use Rattle.xs_outside.specs.Fetches.{failed_names, names};
ghost use Rattle.xs_outside.specs.Memory.{file_of, file_parts, fetch_fails, fetched, IfFailed};

use super::edge::{FetchEnd, Library};
use super::fetches::Fetch;
use std::alloc::Global;
use std::marker::Model;
use xs_text::TextBuf;

/// A library of files in memory, which fails the fetches that it was reported to fail.
#[derive(Drop)]
pub struct MemLibrary {
    files: Vec<(String, Vec<u8>)>,
    failing: Vec<u64>,
    calls: u64,
    fetches: Vec<Fetch>,
}

impl Model for MemLibrary {
    ghost use Rattle.std.specs.Prelude.{map};
    ghost use Rattle.xs_outside.specs.Memory.{MemFiles, file_parts};

    ghost Value = { MemFiles };

    ghost view = { λ m. record {
      files = map file_parts m.files.items;
      failing = m.failing.items;
      calls = m.calls;
      fetches = m.fetches.items;
    } };
}

impl MemLibrary {
    /// A library of these files, of which the first of a name counts. It fails the fetches whose
    /// numbers, from 1, are in `failing`, and those of a name that it does not have.
    pub fn new(alloc: Global, files: Vec<(String, Vec<u8>)>, failing: Vec<u64>) -> MemLibrary
        ensures { result ≡ record {
          files = map file_parts files.items;
          failing = failing.items;
          calls = 0;
          fetches = [];
        } }
    {
        MemLibrary {
            files,
            failing,
            calls: 0,
            fetches: Vec::new(alloc),
        }
    }
}

impl Library for MemLibrary {
    ghost asked = { λ m. names m.fetches };

    ghost failed = { λ m. failed_names m.fetches };

    ghost files = { λ m. Some (file_of m.files) };

    // A call that is to fail, or a name without a file, is a failed fetch.
    #[tactic(auto, using(crate::proofs::FetchLemmas::given, crate::proofs::FetchLemmas::failed))]
    fn fetch(&mut self, alloc: Global, name: &str, limit: u64) -> Result<Vec<u8>, FetchEnd>
        ensures files_stay { self.new.files ≡ self.old.files }
        ensures asked { names self.new.fetches
            ≡ asked_after result name.now (names self.old.fetches) }
        ensures failed { failed_names self.new.fetches
            ≡ failed_after result name.now (failed_names self.old.fetches) }
        ensures cut { IfOk result (λ v. length v.items ≤ limit + 1) }
        ensures bytes { IfOk result (λ v. MatchOption (file_of self.old.files name.now) ⊥
            (λ b. v.items ≡ take (limit + 1) b)) }
        ensures not_failed { IfOk result (λ _. IsFalse (fetch_fails self.old name.now)) }
        ensures when { IfFailed result (IsTrue (fetch_fails self.old name.now)) }
        ensures after { self.new ≡ fetched result name.now self.old }
    {
        self.calls = self.calls.saturating_add(1);
        let name_kept = TextBuf::of(alloc, name)?;
        self.fetches.reserve(1)?;
        if !self.failing.contains(&self.calls)
            && let Some(bytes) = find_file(&self.files, name)
        {
            let given = Vec::from_slice(alloc, cut(bytes, limit))?;
            self.fetches.push_reserved(Fetch {
                name: name_kept,
                failed: false,
            });
            return Ok(given);
        }
        self.fetches.push_reserved(Fetch {
            name: name_kept,
            failed: true,
        });
        Err(FetchEnd::Failed)
    }
}

/// The bytes of the first file of this name.
#[tactic(auto, using(crate::proofs::FileLemmas::file_of_entries))]
fn find_file<'a>(files: &'a [(String, Vec<u8>)], name: &str) -> Option<&'a [u8]>
    ensures { option_copied result ≡ file_of (map file_parts files.now) name.now }
{
    match find_entry(files, name) {
        Some(file) => Some(file.1.as_slice()),
        None => None,
    }
}

/// The first file of this name.
fn find_entry<'a>(files: &'a [(String, Vec<u8>)], name: &str) -> Option<&'a (String, Vec<u8>)>
    ensures { option_copied result
        ≡ find (λ f. bytes_eq (string_bytes f.0) name.now) files.now }
{
    files.iter().find(|file| file.0.as_str() == name)
}

/// At most `limit + 1` of the bytes.
fn cut(bytes: &[u8], limit: u64) -> &[u8]
    ensures { result.now ≡ take (limit + 1) bytes.now }
{
    let most = limit as usize;
    if most < bytes.len() {
        &bytes[..most + 1]
    } else {
        bytes
    }
}
