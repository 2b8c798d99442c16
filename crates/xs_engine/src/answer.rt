//! The answer of a run, before anything of it is written.

ghost use Rattle.std.specs.Prelude.{◌≡◌, ◌≢◌, ◌<◌, ◌⊎◌, IfOk, None, Some, length};
ghost use Rattle.xs_modules.specs.Results.{modules_data};
ghost use Rattle.xs_modules.specs.Sound.{IsSound};
ghost use Rattle.xs_sheet.specs.Sound.{IsSound as SheetIsSound};
ghost use Rattle.xs_words.specs.Results.{texts};
ghost use Rattle.xs_reply.specs.declared.status.TheConstants.{READ_FAULT, USAGE, WRITE_FAULT};
ghost use Rattle.xs_reply.specs.Expected.{IsAnswer, IsExpected, IsModulesAnswer, IsSheetAnswer};
ghost use Rattle.xs_reply.specs.Expected.{Owed};
ghost use Rattle.xs_reply.specs.Fetches.{Fetches, GoesOn, Grew, JobFetches};
ghost use Rattle.xs_reply.specs.Headline.{HasTicks};
ghost use Rattle.xs_reply.specs.Job.{inputs_on, request_of, workers_of};
ghost use Rattle.xs_reply.specs.Made.{made_files};
ghost use Rattle.xs_reply.specs.Reply.{AsksSource, GoesTo, IsUnspent};
ghost use Rattle.xs_reply.specs.Reply.{IsWholeOrEmpty, IsWithin, Replies, job_data};
ghost use Rattle.xs_result_laws.specs.RunLaws.{AreTrees};
ghost use Rattle.xs_result_laws.specs.Named.{IsNamedSheet};

use crate::evaluation::evaluate;
use crate::host::Host;
use std::alloc::AllocError;
use std::thread::Threads;
use xs_compile::{CompileEnd, compile};
use xs_load::load_case;
use xs_modules::{Modules, ModulesEnd, read_modules};
use xs_outside::{FetchEnd, Gate, Library};
use xs_reply::checking::{check_reply, static_reply};
use xs_reply::job::{Job, read_request};
use xs_reply::made::MadeFiles;
use xs_reply::reading::read_source;
use xs_reply::reply::{Reply, read_fault_reply, refused_reply, usage_reply};
use xs_sheet::sheet::Sheet;
use xs_text::TextBuf;
use xs_words::WordsEnd;

/// The answer of a run: a function of the arguments and of the files that it comes to.
pub fn reply_to<R: Threads + Sync, G: Gate, L: Library>(
    host: &Host<'_, R, G>,
    words: &[String],
    library: &mut L,
) -> Result<Reply, AllocError>
    ensures files { L.files library.new ≡ L.files library.old }
    ensures fetches { Fetches (request_of (texts words.now)) (L.files library.old)
        (L.asked library.old) (L.asked library.new) (L.failed library.old) (L.failed library.new) }
    ensures expected { IfOk result (Replies (workers_of (request_of (texts words.now))) (Unit {0})
        (IsExpected (L.files library.old) (request_of (texts words.now))
        (L.failed library.old) (L.failed library.new))) }
    ensures usage_only { IfOk result (λ reply.
        reply.status ≡ USAGE → request_of (texts words.now) ≡ None) }
    ensures read_fault_only { IfOk result (λ reply. reply.status ≡ READ_FAULT
        → length (L.failed library.old) < length (L.failed library.new)) }
    ensures status { IfOk result (λ reply. reply.status < WRITE_FAULT) }
    ensures ticks { IfOk result (λ reply. HasTicks reply.status ⊎ IsUnspent reply) }
    ensures whole_only { IfOk result IsWholeOrEmpty }
{
    match read_request(host.alloc, words) {
        Ok(request) => match request.made {
            None => job_reply(host, &request.job, library),
            Some(count) => made_reply(host, &request.job, count),
        },
        Err(WordsEnd::Usage) => usage_reply(host.alloc),
        Err(WordsEnd::NoMemory) => Err(AllocError),
    }
}

/// The answer of a run over the files that it makes, of which the source has so many elements.
fn made_reply<R: Threads + Sync, G: Gate>(
    host: &Host<'_, R, G>,
    job: &Job,
    count: u32,
) -> Result<Reply, AllocError>
    requires within { IsWithin job.now }
    ensures answer { IfOk result (Replies job.now.workers (Unit {0})
        (IsAnswer (Some (made_files count)) (job_data job.now))) }
    ensures read { IfOk result (λ reply. reply.status ≢ READ_FAULT) }
    ensures status { IfOk result (λ reply.
        (reply.status ≢ USAGE) × (reply.status < WRITE_FAULT)) }
    ensures ticks { IfOk result (λ reply. HasTicks reply.status ⊎ IsUnspent reply) }
    ensures whole_only { IfOk result IsWholeOrEmpty }
{
    let (sheet, source) = load_case(host.alloc, count)?;
    let mut made = MadeFiles::new(host.alloc, sheet, source);
    job_reply(host, job, &mut made)
}

/// The answer of a run over a stylesheet, with all the modules that it mentions, and a source.
fn job_reply<R: Threads + Sync, G: Gate, L: Library>(
    host: &Host<'_, R, G>,
    job: &Job,
    library: &mut L,
) -> Result<Reply, AllocError>
    requires within { IsWithin job.now }
    ensures files { L.files library.new ≡ L.files library.old }
    ensures fetches { JobFetches (job_data job.now) (L.files library.old)
        (L.asked library.old) (L.asked library.new) (L.failed library.old) (L.failed library.new) }
    ensures expected { IfOk result (Replies job.now.workers (Unit {0})
        (Owed (IsAnswer (L.files library.old) (job_data job.now))
        (L.failed library.old) (L.failed library.new))) }
    ensures read_fault_only { IfOk result (λ reply. reply.status ≡ READ_FAULT
        → length (L.failed library.old) < length (L.failed library.new)) }
    ensures status { IfOk result (λ reply.
        (reply.status ≢ USAGE) × (reply.status < WRITE_FAULT)) }
    ensures ticks { IfOk result (λ reply. HasTicks reply.status ⊎ IsUnspent reply) }
    ensures whole_only { IfOk result IsWholeOrEmpty }
{
    match read_modules(host.alloc, library, job.sheet.as_str()) {
        Ok(modules) => modules_reply(host, job, &modules, library),
        Err(ModulesEnd::Failed { name }) => read_fault_reply(host.alloc, &name),
        Err(
            ModulesEnd::Refused {
                number,
                module,
                line,
            },
        ) => refused_reply(host.alloc, number, &module, line),
        Err(ModulesEnd::NoMemory) => Err(AllocError),
    }
}

/// The answer of a run over the modules of a stylesheet: their first static fault; else, where the
/// stylesheet is only checked, nothing; else what the run comes to.
fn modules_reply<R: Threads + Sync, G: Gate, L: Library>(
    host: &Host<'_, R, G>,
    job: &Job,
    modules: &Modules,
    library: &mut L,
) -> Result<Reply, AllocError>
    requires sound { IsSound (modules_data modules.now) }
    requires within { IsWithin job.now }
    ensures files { L.files library.new ≡ L.files library.old }
    ensures asks { Grew (AsksSource (GoesOn (job_data job.now) (modules_data modules.now))
        (L.files library.old) (job_data job.now))
        (L.asked library.old) (L.asked library.new) (L.failed library.old) (L.failed library.new) }
    ensures expected { IfOk result (Replies job.now.workers (Unit {0}) (Owed
        (IsModulesAnswer (L.files library.old) (job_data job.now) (modules_data modules.now))
        (L.failed library.old) (L.failed library.new))) }
    ensures read_fault_only { IfOk result (λ reply. reply.status ≡ READ_FAULT
        → length (L.failed library.old) < length (L.failed library.new)) }
    ensures status { IfOk result (λ reply.
        (reply.status ≢ USAGE) × (reply.status < WRITE_FAULT)) }
    ensures ticks { IfOk result (λ reply. HasTicks reply.status ⊎ IsUnspent reply) }
    ensures whole_only { IfOk result IsWholeOrEmpty }
{
    xs_result_laws::runs::sheets_are_named();
    modules_are_trees(modules);
    match &job.source {
        Some(source) => match compile(host.alloc, modules) {
            Ok(sheet) => run_reply(host, job, source, &sheet, library),
            Err(CompileEnd::Refused(fault)) => static_reply(host.alloc, modules, fault),
            Err(CompileEnd::NoMemory) => Err(AllocError),
        },
        None => check_reply(host.alloc, modules),
    }
}

/// The nodes of each module are a tree.
fn modules_are_trees(modules: &Modules)
    ensures { AreTrees (modules_data modules.now) }
{
    for number in 0..modules.list.len() {
        let _count = modules.list[number].tree.len();
    }
}

/// The answer of a run of a compiled stylesheet on a source.
pub fn run_reply<R: Threads + Sync, G: Gate, L: Library>(
    host: &Host<'_, R, G>,
    job: &Job,
    source: &TextBuf,
    sheet: &Sheet,
    library: &mut L,
) -> Result<Reply, AllocError>
    requires sound { SheetIsSound sheet.now }
    requires within { IsWithin job.now }
    ensures files { L.files library.new ≡ L.files library.old }
    ensures asks { Grew (AsksSource (GoesTo source.now)
        (L.files library.old) (job_data job.now))
        (L.asked library.old) (L.asked library.new) (L.failed library.old) (L.failed library.new) }
    ensures expected { IfOk result (Replies job.now.workers (IsNamedSheet sheet.now)
        (Owed (IsSheetAnswer (L.files library.old) (job_data job.now) sheet.now
        (inputs_on (job_data job.now) source.now))
        (L.failed library.old) (L.failed library.new))) }
    ensures read_fault_only { IfOk result (λ reply. reply.status ≡ READ_FAULT
        → length (L.failed library.old) < length (L.failed library.new)) }
    ensures status { IfOk result (λ reply.
        (reply.status ≢ USAGE) × (reply.status < WRITE_FAULT)) }
    ensures ticks { IfOk result (λ reply. HasTicks reply.status ⊎ IsUnspent reply) }
    ensures whole_only { IfOk result IsWholeOrEmpty }
{
    match read_source(host.alloc, source.as_str(), library) {
        Ok(Ok(tree)) => evaluate(host, job, sheet, tree),
        Ok(Err(fault)) => refused_reply(host.alloc, fault.number, source, fault.line),
        Err(FetchEnd::Failed) => read_fault_reply(host.alloc, source),
        Err(FetchEnd::NoMemory) => Err(AllocError),
    }
}
