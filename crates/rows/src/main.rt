//! Writes row files again, each answer computed anew: what is read, expressions, stylesheets, and
//! whole runs in memory.
#![tactic(auto)]

mod answer;
mod expressions;
mod fields;
mod library;
mod lookups;
mod reading;
mod repeats;
mod runs;
mod stylesheets;
mod texts;

use answer::Answer;
use std::io::Write;
use std::rt::Files;
use std::thread::Threads;
use std::{env, fs, io};

// Writes the row files that the arguments name.
fn main(rt: HostRuntime) -> io::Result<()> {
    let out = Answer::new(rt.alloc());
    for name in env::args(&rt)?.skip(1) {
        put_file(&out, &rt, name.as_str());
    }
    io::writer(&rt).write_all(&out.finish()?)
}

// Writes a row file, after a line with its name.
fn put_file<R: Files + Threads + Sync + AllocGlobal>(out: &Answer, rt: &R, name: &str) {
    out.put("== ");
    out.put_line(name);
    match fs::read_to_string(rt, name) {
        Ok(file) => put_rows(out, rt, name, file.as_str()),
        Err(_) => out.put("no such file\n"),
    }
}

// Writes the rows of a file: its folder says what they are about.
fn put_rows<R: Files + Threads + Sync + AllocGlobal>(out: &Answer, rt: &R, name: &str, file: &str) {
    match name.split_once('/') {
        Some(("reading", _)) => reading::files::put_rows(out, file),
        Some(("expressions", _)) => expressions::files::put_rows(out, rt, file),
        Some(("stylesheets", _)) => stylesheets::files::put_rows(out, file),
        _ => runs::files::put_rows(out, rt, file),
    }
}
