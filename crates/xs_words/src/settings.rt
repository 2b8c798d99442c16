//! The options of a command line that take a number.

ghost use Rattle.std.specs.Prelude.{◌≤◌, IfOk, IfSome};
ghost use Rattle.xs_words.specs.Options.{limits_of, number_of, sizes_of};
ghost use Rattle.xs_words.specs.Results.{Gives};
ghost use Rattle.xs_words.specs.Rows.{limits_reported, rows_in, sizes_reported};

use crate::choice::WordsEnd;
use crate::numbers::number_up_to;
use crate::rows::value_of;
use clap::ArgMatches;

/// The greatest budget, limit on events and number of a tick.
pub const MOST_BUDGET: u64 = 1_099_511_627_776;

/// The budget of a run whose words name none.
pub const DEFAULT_BUDGET: u64 = 100_000_000;

/// The greatest number of workers.
pub const MOST_WORKERS: u32 = 64;

/// The number of workers where the words name none.
pub const DEFAULT_WORKERS: u32 = 4;

/// The greatest grain.
pub const MOST_GRAIN: u32 = 65_536;

/// The grain where the words name none.
pub const DEFAULT_GRAIN: u32 = 16;

/// The greatest number of rows of a made input.
pub const MOST_LOAD: u32 = 1_000_000;

/// The numbers that limit a run, or name a tick of it.
#[derive(Clone, Copy)]
pub struct Limits {
    /// The greatest number of ticks.
    pub budget: u64,
    /// The greatest number of events.
    pub max_events: Option<u64>,
    /// The tick whose place is reported.
    pub at: Option<u64>,
}

/// The numbers that are sizes.
#[derive(Clone, Copy)]
pub struct Sizes {
    /// How many workers run.
    pub workers: u32,
    /// How many nodes of a loop make a piece.
    pub grain: u32,
    /// How many rows the made input has.
    pub load: Option<u32>,
}

/// The limits that the words give.
#[tactic(auto, unfolding(crate::specs::Options::limits_of))]
pub fn limits_of(matches: &ArgMatches<'_>) -> Result<Limits, WordsEnd>
    ensures { Gives limits_reported (limits_of (rows_in matches.now)) result }
{
    let budget = number_of(matches, "budget", MOST_BUDGET)?;
    let max_events = number_of(matches, "max-events", MOST_BUDGET)?;
    let at = number_of(matches, "at", MOST_BUDGET)?;
    Ok(Limits {
        budget: budget.unwrap_or(DEFAULT_BUDGET),
        max_events,
        at,
    })
}

/// The sizes that the words give.
#[tactic(auto, unfolding(crate::specs::Options::sizes_of))]
pub fn sizes_of(matches: &ArgMatches<'_>) -> Result<Sizes, WordsEnd>
    ensures { Gives sizes_reported (sizes_of (rows_in matches.now)) result }
{
    let workers = size_of(matches, "workers", MOST_WORKERS)?;
    let grain = size_of(matches, "grain", MOST_GRAIN)?;
    let load = size_of(matches, "load", MOST_LOAD)?;
    Ok(Sizes {
        workers: workers.unwrap_or(DEFAULT_WORKERS),
        grain: grain.unwrap_or(DEFAULT_GRAIN),
        load,
    })
}

/// The number of an option, which need not be given.
fn size_of(matches: &ArgMatches<'_>, name: &str, most: u32) -> Result<Option<u32>, WordsEnd>
    ensures { Gives (λ n. n) (number_of (rows_in matches.now) name.now most) result }
{
    match number_of(matches, name, u64::from(most))? {
        Some(number) => Ok(Some(number as u32)),
        None => Ok(None),
    }
}

/// The number of an option, which need not be given.
#[tactic(auto, unfolding(crate::specs::Options::number_of))]
fn number_of(matches: &ArgMatches<'_>, name: &str, most: u64) -> Result<Option<u64>, WordsEnd>
    ensures number { Gives (λ n. n) (number_of (rows_in matches.now) name.now most) result }
    ensures within { IfOk result (λ number. IfSome number (λ n. n ≤ most)) }
{
    match value_of(matches, name) {
        Some(word) => match number_up_to(most, word) {
            Some(number) => Ok(Some(number)),
            None => Err(WordsEnd::Usage),
        },
        None => Ok(None),
    }
}
