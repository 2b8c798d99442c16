//! Command lines, and what is read of them.

use crate::answer::Answer;
use crate::texts::push_words;
use xs_text::TextBuf;
use xs_words::{Job, Options, WordsEnd, read_words};

/// Adds what a command line asks for, or that it is refused.
pub(crate) fn put_options(out: &Answer, line: &str) {
    let mut words = Vec::new(out.alloc);
    push_words(out, &mut words, line);
    match read_words(out.alloc, &words) {
        Ok(options) => put_asked(out, &options),
        Err(WordsEnd::Usage) => out.put("refused"),
        Err(WordsEnd::NoMemory) => out.refuse(),
    }
}

/// Adds what a command line asks for: what is run, its documents, the numbers, which have defaults
/// or are left out, and the options that have no value.
fn put_asked(out: &Answer, options: &Options) {
    put_job(out, &options.job);
    put_pairs(out, " @", &options.documents);
    out.put_count(" | budget ", options.budget as u64);
    out.put_count(" | workers ", options.workers as u64);
    out.put_count(" | grain ", options.grain as u64);
    if let Some(most) = options.max_events {
        out.put_count(" | events ", most as u64);
    }
    if let Some(tick) = options.at {
        out.put_count(" | at ", tick as u64);
    }
    out.put_if(options.stats, " | stats");
    out.put_if(options.profile, " | profile");
    out.put_if(options.stream, " | stream");
}

/// Adds what is run.
fn put_job(out: &Answer, job: &Job) {
    match job {
        Job::Files {
            sheet,
            source,
            given,
        } => {
            out.put_both("run ", sheet.as_str());
            out.put_both(" on ", source.as_str());
            put_pairs(out, " ", given);
        }
        Job::Check { sheet } => out.put_both("check ", sheet.as_str()),
        Job::Load(rows) => out.put_count("load ", *rows as u64),
    }
}

/// Adds names and texts, each after a sign.
fn put_pairs(out: &Answer, sign: &str, pairs: &[(TextBuf, TextBuf)]) {
    for (name, text) in pairs {
        out.put_both(sign, name.as_str());
        out.put_signed(b'=', text.as_str());
    }
}
