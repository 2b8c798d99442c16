//! A library of the files that the system has.

ghost use Rattle.std.specs.Prelude.{◌≡◌, ◌+◌, ◌<◌, ◌≤◌, [], length, take, IfOk, IfSome, None};
ghost use Rattle.std.specs.Prelude.{vec_len};
ghost use Rattle.xs_outside.specs.Edge.{asked_after, failed_after};
ghost use Rattle.xs_outside.specs.Fetches.{failed_names, names};
ghost use Rattle.xs_outside.specs.Reads.{GainsPiece};

use super::edge::{FetchEnd, Library};
use super::fetches::Fetch;
use std::alloc::{AllocError, Global};
use std::fs;
use std::io::Read;
use std::marker::Model;
use std::rt::Files;
use xs_text::TextBuf;

/// How many bytes one read asks for.
const PIECE: usize = 65536;

/// A library of the files that the system has, by their paths.
///
/// It reports nothing of what they hold.
#[derive(Drop)]
pub struct FileLibrary<R> {
    system: R,
    fetches: Vec<Fetch>,
}

impl<R> Model for FileLibrary<R> {
    ghost use Rattle.std.specs.Prelude.{List};
    ghost use Rattle.xs_outside.specs.declared.fetches.Fetch.{Fetch};

    ghost Value = { List Fetch };

    ghost view = { λ l. l.fetches.items };
}

impl<R: Files> FileLibrary<R> {
    /// A library over the system's files, which was asked for none so far.
    pub fn new(alloc: Global, system: R) -> FileLibrary<R>
        ensures { result ≡ [] }
    {
        FileLibrary {
            system,
            fetches: Vec::new(alloc),
        }
    }
}

impl<R: Files> Library for FileLibrary<R> {
    ghost asked = { λ fetches. names fetches };

    ghost failed = { λ fetches. failed_names fetches };

    ghost files = { λ _. None };

    // The room for the name is taken before the file is read.
    #[tactic(auto, using(crate::proofs::FetchLemmas::given, crate::proofs::FetchLemmas::failed))]
    fn fetch(&mut self, alloc: Global, name: &str, limit: u64) -> Result<Vec<u8>, FetchEnd>
        ensures asked { names self.new ≡ asked_after result name.now (names self.old) }
        ensures failed { failed_names self.new
            ≡ failed_after result name.now (failed_names self.old) }
        ensures cut { IfOk result (λ v. vec_len v ≤ limit + 1) }
    {
        let name_kept = TextBuf::of(alloc, name)?;
        self.fetches.reserve(1)?;
        match read_file(&self.system, alloc, name, limit) {
            Ok(bytes) => {
                self.fetches.push_reserved(Fetch {
                    name: name_kept,
                    failed: false,
                });
                Ok(bytes)
            }
            Err(FetchEnd::Failed) => {
                self.fetches.push_reserved(Fetch {
                    name: name_kept,
                    failed: true,
                });
                Err(FetchEnd::Failed)
            }
            Err(FetchEnd::NoMemory) => Err(FetchEnd::NoMemory),
        }
    }
}

/// The bytes of the file at this path, cut after `limit + 1` bytes.
fn read_file<R: Files>(
    system: &R,
    alloc: Global,
    path: &str,
    limit: u64,
) -> Result<Vec<u8>, FetchEnd>
    ensures { IfOk result (λ v. vec_len v ≤ limit + 1) }
{
    match fs::open(system, path) {
        Ok(mut file) => read_all(alloc, &mut file, limit),
        Err(_) => Err(FetchEnd::Failed),
    }
}

/// What a reader has left, cut after `limit + 1` bytes.
fn read_all<F: Read>(alloc: Global, reader: &mut F, limit: u64) -> Result<Vec<u8>, FetchEnd>
    ensures cut { IfOk result (λ v. vec_len v ≤ limit + 1) }
    ensures bytes { IfOk result (λ v. IfSome (F.remaining reader.old)
        (λ left. v.items ≡ take (limit + 1) left)) }
{
    let mut buffer = zeros(alloc, PIECE)?;
    let piece: &mut [u8] = &mut buffer;
    let mut bytes = Vec::new(alloc);
    for _ in 0..u64::MAX {
        if bytes.len() as u64 > limit {
            return Ok(bytes);
        }
        let left = limit as usize - bytes.len();
        let room = left.saturating_add(1).min(piece.len());
        if read_piece(reader, &mut piece[..room], &mut bytes)? == 0 {
            return Ok(bytes);
        }
    }
    Err(FetchEnd::Failed)
}

/// So many bytes, all 0.
fn zeros(alloc: Global, length: usize) -> Result<Vec<u8>, AllocError>
    ensures { IfOk result (λ v. vec_len v ≡ length) }
{
    vec![in alloc; 0; length]
}

/// Reads once into `piece`, and puts what came at the end of `bytes`. The answer is how many bytes
/// came: none only at the reader's end.
fn read_piece<F: Read>(
    reader: &mut F,
    piece: &mut [u8],
    bytes: &mut Vec<u8>,
) -> Result<usize, FetchEnd>
    requires { 0 < length piece.old }
    ensures { IfOk result (λ n. (n ≤ length piece.old)
        × GainsPiece (F.remaining reader.old) (F.remaining reader.new)
        bytes.old.items bytes.new.items n) }
{
    match reader.read(piece) {
        Ok(taken) => {
            bytes.extend_from_slice(&piece[..taken])?;
            Ok(taken)
        }
        Err(_) => Err(FetchEnd::Failed),
    }
}
