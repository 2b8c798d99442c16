//! The words after the program's name, as options.

ghost use Rattle.std.specs.Prelude.{◌≡◌, ◌≢◌, IfOk};
ghost use Rattle.clap.specs.Words.{kind_of};
ghost use Rattle.clap.specs.declared.error.kind.ErrorKind.TheVariants.{OutOfMemory};
ghost use Rattle.xs_words.specs.Options.{choice_of_rows, options_of, AreWithin};
ghost use Rattle.xs_words.specs.Results.{Gives, texts, reported};
ghost use Rattle.xs_words.specs.Rows.{rows_in};
ghost use Rattle.xs_words.specs.declared.choice.WordsEnd.TheVariants.{NoMemory, Usage};

use crate::choice::{Options, WordsEnd};
use crate::command::command_line;
use crate::inputs::work_of;
use crate::rows::{has_flag, inputs_of};
use crate::settings::{limits_of, sizes_of};
use clap::error::ErrorKind;
use clap::{ArgMatches, Error};
use std::alloc::Global;

/// The line that refuses the words.
pub const USAGE: &str = "\
    usage: xslt [--budget N] [--max-events N] [--workers N] [--grain N] [--stats] [--profile] \
    [--at N] [--stream] [--check] [--load N] SHEET SOURCE [name=text]... [@name=path]...";

/// What the words after the program's name ask for. `Usage` exactly where `clap` refuses the words,
/// or they break the rule on options and inputs.
pub fn read_words(alloc: Global, words: &[String]) -> Result<Options, WordsEnd>
    ensures gives { Gives reported (options_of (texts words.now)) result }
    ensures within { IfOk result (λ options. AreWithin (reported options)) }
{
    let command = command_line(alloc)?;
    match command.try_get_matches_from(words) {
        Ok(matches) => options_in(alloc, &matches),
        Err(error) => Err(refusal(&error)),
    }
}

/// Why there are no matches.
fn refusal(error: &Error) -> WordsEnd
    ensures usage { result ≡ Usage → kind_of error.now ≢ OutOfMemory }
    ensures memory { result ≡ NoMemory → kind_of error.now ≡ OutOfMemory }
{
    match error.kind() {
        ErrorKind::OutOfMemory => WordsEnd::NoMemory,
        _ => WordsEnd::Usage,
    }
}

/// The options that matches give.
#[tactic(auto, unfolding(crate::specs::Options::choice_of_rows))]
fn options_in(alloc: Global, matches: &ArgMatches<'_>) -> Result<Options, WordsEnd>
    ensures { Gives reported (choice_of_rows (rows_in matches.now)) result }
{
    let limits = limits_of(matches)?;
    let sizes = sizes_of(matches)?;
    let is_check = has_flag(matches, "check");
    let profile = has_flag(matches, "profile");
    let stream = has_flag(matches, "stream");
    if is_check && (profile || stream || limits.at.is_some()) {
        return Err(WordsEnd::Usage);
    }
    let work = match inputs_of(matches) {
        Some(inputs) => work_of(alloc, sizes.load, is_check, inputs)?,
        None => work_of(alloc, sizes.load, is_check, &[])?,
    };
    Ok(Options {
        budget: limits.budget,
        max_events: limits.max_events,
        workers: sizes.workers,
        grain: sizes.grain,
        stats: has_flag(matches, "stats"),
        profile,
        at: limits.at,
        stream,
        job: work.job,
        documents: work.documents,
    })
}
