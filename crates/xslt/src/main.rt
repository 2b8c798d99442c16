//! The program: makes the real library and sinks, runs the processor, and ends with its status.
#![tactic(auto)]

use std::alloc::AllocError;
use std::mem::forget;
use std::process::ExitCode;
use std::rt::Env;
use std::{env, io};
use xs_engine::status::NO_MEMORY;
use xs_engine::transform;
use xs_outside::{ErrSink, FileLibrary, OpenGate, OutSink};

// The words after the program's name. Where one is not UTF-8 there are none, which the processor
// refuses.
fn words(rt: &(impl Env + AllocGlobal)) -> Result<Vec<String>, AllocError> {
    let mut words = Vec::new(rt.alloc());
    match env::args(rt) {
        Ok(args) => {
            for word in args.skip(1) {
                words.push(word)?;
            }
        }
        Err(error) if error.kind() == io::ErrorKind::OutOfMemory => return Err(AllocError),
        Err(_) => {}
    }
    Ok(words)
}

// Makes the library and the sinks, runs the processor, and ends with its status.
fn main(rt: HostRuntime) -> ExitCode {
    let alloc = rt.alloc();
    let Ok(words) = words(&rt) else {
        return ExitCode::from(NO_MEMORY);
    };
    let mut out = OutSink::new(rt.stdout());
    let mut err = ErrSink::new(rt.stderr());
    let mut library = FileLibrary::new(alloc, rt);
    let report = transform(
        &rt,
        alloc,
        &words,
        &mut library,
        &mut out,
        &mut err,
        &OpenGate,
    );
    let status = report.status;
    // The system takes all memory at once: freeing it item by item takes up to a tenth of a run's
    // time.
    forget(report);
    ExitCode::from(status)
}
