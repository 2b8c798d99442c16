//! Each kind of library and sink once, and a sink that fails in mid-piece.

use std::alloc::{AllocError, Global};
use std::fmt::Display;
use std::test::Fail;
use std::{fs, io};
use xs_outside::{
    ErrSink, FetchEnd, FileLibrary, Gate, Library, MemLibrary, MemSink, OpenGate, OutSink, Sink,
    StreamSink, write_whole,
};

const SHEET: &[u8] = b"(r\n)r\n";

// A file of a library.
fn sheet(alloc: Global) -> Result<(String, Vec<u8>), AllocError> {
    let name = String::from_str(alloc, "s.pyx")?;
    Ok((name, Vec::from_slice(alloc, SHEET)?))
}

// A library of one file, which fails its second fetch.
fn one_file(alloc: Global) -> Result<MemLibrary, AllocError> {
    let files = vec![in alloc; sheet(alloc)?]?;
    Ok(MemLibrary::new(alloc, files, vec![in alloc; 2]?))
}

// Whether a library has the file of a name, whole and, under a limit, cut.
fn has_sheet<L: Library>(alloc: Global, library: &mut L, name: &str, limit: u64) -> bool {
    match library.fetch(alloc, name, limit) {
        Ok(bytes) if limit < 6 => bytes.as_slice() == b"(r\n".as_slice(),
        Ok(bytes) => bytes.as_slice() == SHEET,
        Err(_) => false,
    }
}

// Whether a library fails to fetch a name.
fn fails<L: Library>(alloc: Global, library: &mut L, name: &str) -> bool {
    matches!(library.fetch(alloc, name, 100), Err(FetchEnd::Failed))
}

// Whether a library of one file fails its second fetch, and one of another name.
fn fails_second(alloc: Global, library: &mut MemLibrary) -> bool {
    has_sheet(alloc, library, "s.pyx", 100)
        && fails(alloc, library, "s.pyx")
        && fails(alloc, library, "lib.pyx")
        && has_sheet(alloc, library, "s.pyx", 2)
}

// Whether a library in memory does so.
fn has_a_file(alloc: Global) -> Result<bool, AllocError> {
    let mut library = one_file(alloc)?;
    let is_so = fails_second(alloc, &mut library);
    drop(library);
    Ok(is_so)
}

// Whether a file is found, whole and cut.
fn is_found(rt: &HostRuntime, path: &str) -> bool {
    let alloc = rt.alloc();
    let mut library = FileLibrary::new(alloc, rt);
    has_sheet(alloc, &mut library, path, 100) && has_sheet(alloc, &mut library, path, 2)
}

// Whether neither a file is found nor a folder.
fn is_gone(rt: &HostRuntime, path: &str) -> bool {
    let alloc = rt.alloc();
    let mut library = FileLibrary::new(alloc, rt);
    fails(alloc, &mut library, path) && fails(alloc, &mut library, "/tmp")
}

// Whether a file is found while it is there, and not after.
fn is_found_while_there(rt: &HostRuntime, path: &str) -> io::Result<bool> {
    fs::write(rt, path, SHEET)?;
    let is_found = is_found(rt, path);
    fs::remove_file(rt, path)?;
    Ok(is_found && is_gone(rt, path))
}

#[test]
fn files_of_the_system(rt: HostRuntime) -> io::Result<()> {
    let id = std::process::id(rt.process());
    let path = format!(in rt.alloc(); "/tmp/xs_outside_{id}.pyx")?;
    let found = is_found_while_there(&rt, path.as_str());
    drop(path);
    assert!(rt; found?);
    Ok(())
}

// Whether a sink takes so many of some bytes at once.
fn takes<S: Sink>(sink: &mut S, bytes: &[u8], count: usize) -> bool {
    match sink.write(bytes) {
        Ok(taken) => taken == count,
        Err(_) => false,
    }
}

// Whether a sink without room takes no text, and one that takes four bytes at once fails its fourth
// write in mid-piece, and goes on.
fn takes_four(mut sink: MemSink) -> bool {
    let is_refused = takes(&mut sink, b"", 0) && sink.write(b"text").is_err();
    let has_room = sink.reserve(100).is_ok();
    let fails = write_whole(&mut sink, b"(o\nAxmlns:p u1\n").is_err();
    let is_cut = sink.held() == b"(o\nA".as_slice();
    let goes_on = write_whole(&mut sink, b"xmlns").is_ok();
    let is_held = sink.held() == b"(o\nAxmlns".as_slice();
    is_refused && has_room && fails && is_cut && goes_on && is_held
}

// Whether a sink with room for two bytes takes no more.
fn takes_two(mut sink: MemSink) -> bool {
    let has_room = sink.reserve(2).is_ok();
    has_room && takes(&mut sink, b"text", 2) && sink.held() == b"te".as_slice()
}

#[test]
fn files_and_bytes_in_memory(rt: HostRuntime) -> Result<(), AllocError> {
    let alloc = rt.alloc();
    assert!(rt; has_a_file(alloc)?);
    assert!(rt; takes_four(MemSink::new(alloc, 4, vec![in alloc; 4]?)));
    assert!(rt; takes_two(MemSink::new(alloc, 4, Vec::new(alloc))));
    Ok(())
}

/// A stream that takes nothing.
#[derive(Drop)]
struct Stuck;

impl Print for Stuck {
    fn print<D: Display + Drop>(&self, _value: D) -> io::Result<()> {
        Ok(())
    }

    fn println<D: Display + Drop>(&self, _value: D) -> io::Result<()> {
        Ok(())
    }

    fn write_all(&self, _bytes: &[u8]) -> io::Result<()> {
        Ok(())
    }

    fn write_some(&self, _bytes: &[u8]) -> io::Result<usize> {
        Ok(0)
    }
}

// Whether a stream that takes nothing is refused a text.
fn is_stuck() -> bool {
    let mut stuck = StreamSink::new(Stuck);
    takes(&mut stuck, b"", 0) && stuck.write(b"text").is_err()
}

#[test]
fn streams(rt: HostRuntime) -> Result<(), Fail> {
    let mut out = OutSink::new(rt.stdout());
    assert!(rt; takes(&mut out, b"result\n", 7));
    write_whole(&mut out, b"")?;
    assert!(rt; takes(&mut ErrSink::new(rt.stderr()), b"line\n", 5));
    assert!(rt; is_stuck());
    Ok(())
}

#[test]
fn an_open_gate() {
    for taken in 0..3 {
        OpenGate.pass(0, taken);
    }
}
