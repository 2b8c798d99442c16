//! A stylesheet that is compiled once and run on several sources (docs/LIBRARY.md).

ghost use Rattle.std.specs.Prelude.{IfOk};
ghost use Rattle.xs_reply.specs.Reply.{IsWithin};
ghost use Rattle.xs_modules.specs.Results.{modules_data};
ghost use Rattle.xs_modules.specs.Sound.{IsSound as AreSound};
ghost use Rattle.xs_sheet.specs.Sound.{IsSound};

use crate::answer::Answer;
use crate::runs::answers::{put_short, put_spent};
use crate::stylesheets::modules::{put_end, put_fault, put_numbered};
use std::alloc::{AllocError, Global};
use std::thread::Threads;
use xs_compile::{CompileEnd, compile};
use xs_engine::{Host, Job, Reply, run_reply};
use xs_modules::{Modules, read_modules};
use xs_outside::{MemLibrary, OpenGate};
use xs_sheet::sheet::Sheet;
use xs_text::TextBuf;

/// Adds what the stylesheet of the library gives for each of some sources, or its fault.
pub(crate) fn put_replies<R: Threads + Sync>(
    out: &Answer,
    rt: &R,
    library: &mut MemLibrary,
    names: &str,
) {
    match read_modules(out.alloc, library, "s.pyx") {
        Ok(modules) => put_by_modules(out, rt, &modules, library, names),
        Err(end) => put_end(out, &end),
    }
}

/// Adds what modules give for each of some sources, or their fault.
fn put_by_modules<R: Threads + Sync>(
    out: &Answer,
    rt: &R,
    modules: &Modules,
    library: &mut MemLibrary,
    names: &str,
)
    requires sound { AreSound (modules_data modules.now) }
{
    match compile(out.alloc, modules) {
        Ok(sheet) => {
            put_by_sheet(out, rt, &sheet, library, names);
            drop(sheet);
        }
        Err(CompileEnd::Refused(fault)) => put_fault(out, modules, Some(fault)),
        Err(CompileEnd::NoMemory) => out.refuse(),
    }
}

/// Adds what a stylesheet gives for each of some sources.
fn put_by_sheet<R: Threads + Sync>(
    out: &Answer,
    rt: &R,
    sheet: &Sheet,
    library: &mut MemLibrary,
    names: &str,
)
    requires sound { IsSound sheet.now }
{
    let mut is_first = true;
    for name in names.split(' ') {
        out.put_if(!is_first, "; ");
        put_by_source(out, rt, sheet, library, name);
        is_first = false;
    }
}

/// Adds what a stylesheet gives for a source.
fn put_by_source<R: Threads + Sync>(
    out: &Answer,
    rt: &R,
    sheet: &Sheet,
    library: &mut MemLibrary,
    name: &str,
)
    requires sound { IsSound sheet.now }
{
    match reply_on(rt, out.alloc, sheet, library, name) {
        Ok(reply) => {
            put_reply(out, &reply);
            drop(reply);
        }
        Err(_) => out.refuse(),
    }
}

/// What a stylesheet gives for a source, with a text for its parameter `word`.
fn reply_on<R: Threads + Sync>(
    rt: &R,
    alloc: Global,
    sheet: &Sheet,
    library: &mut MemLibrary,
    name: &str,
) -> Result<Reply, AllocError>
    requires sound { IsSound sheet.now }
{
    let name = TextBuf::of(alloc, name)?;
    let job = greeting_job(alloc)?;
    let host = Host {
        rt,
        alloc,
        gate: &OpenGate,
    };
    let reply = run_reply(&host, &job, &name, sheet, library);
    drop(job);
    reply
}

/// A job with a text for the parameter `word`.
fn greeting_job(alloc: Global) -> Result<Job, AllocError>
    ensures within { IfOk result (λ job. IsWithin job) }
{
    let sheet = TextBuf::of(alloc, "s.pyx")?;
    let given = vec![in alloc; greeting(alloc)?]?;
    Ok(Job {
        sheet,
        source: None,
        given,
        budget: 1000,
        most_events: None,
        grain: 16,
        stats: false,
        workers: 4,
    })
}

/// The name of the parameter `word`, and its text.
fn greeting(alloc: Global) -> Result<(TextBuf, TextBuf), AllocError> {
    let name = TextBuf::of(alloc, "word")?;
    Ok((name, TextBuf::of(alloc, "Good day")?))
}

/// Adds a reply: its status, its ticks, its lines for the user, its fault, and its result.
fn put_reply(out: &Answer, reply: &Reply) {
    put_spent(out, reply.status, reply.ticks, &reply.lines);
    if let Some(fault) = &reply.fault {
        out.put(" | ");
        put_numbered(out, fault.number, fault.module.as_str(), fault.line);
    }
    put_short(out, &reply.result);
}
