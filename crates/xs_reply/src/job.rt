//! What a run is to do, of what its arguments ask for.

ghost use Rattle.std.specs.Prelude.{◌≡◌, IfOk};
ghost use Rattle.xs_words.specs.Results.{Gives, job_reported, texts, reported};
ghost use Rattle.xs_reply.specs.Job.{is_supported, made_job, request_of, work_request};
ghost use Rattle.xs_reply.specs.Reply.{IsWithin, job_data, request_data};

use crate::made::{MADE_SHEET, MADE_SOURCE};
use std::alloc::{AllocError, Global};
use xs_text::TextBuf;
use xs_words::{Job as Work, Options, WordsEnd, read_words};

/// What a run is to do.
#[derive(Debug, Drop)]
pub struct Job {
    /// The name of the stylesheet.
    pub sheet: TextBuf,
    /// The name of the source; none where the stylesheet is only checked.
    pub source: Option<TextBuf>,
    /// The names and texts that are given for parameters of the stylesheet; no name stands twice.
    pub given: Vec<(TextBuf, TextBuf)>,
    /// How many ticks it may take.
    pub budget: u64,
    /// How many events it may put, where there is a limit.
    pub most_events: Option<u64>,
    /// How many nodes of a loop make a piece.
    pub grain: u32,
    /// Whether its ticks and pieces are reported.
    pub stats: bool,
    /// How many workers run its pieces, 1 to 64. They change nothing of the answer.
    pub workers: u32,
}

/// What the arguments of a run ask for.
#[derive(Debug, Drop)]
pub struct Request {
    /// What is to be done.
    pub job: Job,
    /// How many elements the source has that the run makes, with a stylesheet; none where its files
    /// are those of the library.
    pub made: Option<u32>,
}

/// What the arguments ask for. `Usage` exactly where they are refused, or ask for what is not
/// supported.
pub fn read_request(alloc: Global, words: &[String]) -> Result<Request, WordsEnd>
    ensures gives { Gives request_data (request_of (texts words.now)) result }
    ensures within { IfOk result (λ request. IsWithin request.job) }
{
    match read_words(alloc, words) {
        Ok(options) => {
            if is_supported(&options) {
                match work_request(alloc, options) {
                    Ok(request) => Ok(request),
                    Err(_) => Err(WordsEnd::NoMemory),
                }
            } else {
                Err(WordsEnd::Usage)
            }
        }
        Err(end) => Err(end),
    }
}

/// Whether options ask for nothing that is not supported.
fn is_supported(options: &Options) -> bool
    ensures { result ≡ is_supported (reported options.now) }
{
    !(options.profile || options.stream) && options.at.is_none() && options.documents.is_empty()
}

/// What options ask for: a stylesheet on a source, one that is only checked, or files that are
/// made.
fn work_request(alloc: Global, options: Options) -> Result<Request, AllocError>
    ensures { IfOk result (λ request. request_data request
        ≡ work_request (reported options) (job_reported options.job)) }
{
    let Options {
        budget,
        max_events,
        grain,
        stats,
        workers,
        job,
        ..
    } = options;
    match job {
        Work::Files {
            sheet,
            source,
            given,
        } => Ok(Request {
            job: Job {
                sheet,
                source: Some(source),
                given,
                budget,
                most_events: max_events,
                grain,
                stats,
                workers,
            },
            made: None,
        }),
        Work::Check { sheet } => Ok(Request {
            job: Job {
                sheet,
                source: None,
                given: Vec::new(alloc),
                budget,
                most_events: max_events,
                grain,
                stats,
                workers,
            },
            made: None,
        }),
        Work::Load(count) => Ok(Request {
            job: made_job(alloc, budget, max_events, grain, stats, workers)?,
            made: Some(count),
        }),
    }
}

/// A stylesheet on a source, both of which are made.
fn made_job(
    alloc: Global,
    budget: u64,
    most_events: Option<u64>,
    grain: u32,
    stats: bool,
    workers: u32,
) -> Result<Job, AllocError>
    ensures job { IfOk result (λ job. job_data job ≡ made_job budget most_events grain stats) }
    ensures workers { IfOk result (λ job. job.workers ≡ workers) }
{
    Ok(Job {
        sheet: TextBuf::of(alloc, MADE_SHEET)?,
        source: Some(TextBuf::of(alloc, MADE_SOURCE)?),
        given: Vec::new(alloc),
        budget,
        most_events,
        grain,
        stats,
        workers,
    })
}
