//! What a run is asked to do.

ghost use Rattle.std.specs.Prelude.{◌≡◌};
ghost use Rattle.xs_words.specs.declared.choice.WordsEnd.TheVariants as end_of;

use std::alloc::{AllocError, AllocFailed};
use thiserror::Error;
use xs_text::TextBuf;

/// The options of a run.
#[derive(Debug, Drop)]
pub struct Options {
    /// The greatest number of ticks.
    pub budget: u64,
    /// The greatest number of events, where there is a limit.
    pub max_events: Option<u64>,
    /// How many workers run.
    pub workers: u32,
    /// How many nodes of a loop make a piece.
    pub grain: u32,
    /// Whether the ticks and pieces of the run are reported.
    pub stats: bool,
    /// Whether the ticks of each place are reported.
    pub profile: bool,
    /// The tick whose place is reported.
    pub at: Option<u64>,
    /// Whether the result is written while the run goes on.
    pub stream: bool,
    /// What is run.
    pub job: Job,
    /// The names and paths of further documents; no name stands twice.
    pub documents: Vec<(TextBuf, TextBuf)>,
}

/// What is run.
#[derive(Debug, Drop)]
pub enum Job {
    /// A stylesheet, on a source.
    Files {
        /// The name of the stylesheet.
        sheet: TextBuf,
        /// The name of the source.
        source: TextBuf,
        /// The names and texts of global parameters; no name stands twice.
        given: Vec<(TextBuf, TextBuf)>,
    },
    /// A stylesheet that is only checked.
    Check {
        /// The name of the stylesheet.
        sheet: TextBuf,
    },
    /// The made input of so many rows.
    Load(u32),
}

/// Why there are no options.
#[derive(Clone, Copy, Debug, Error)]
pub enum WordsEnd {
    /// The words are no command line.
    #[error("the words are no command line")]
    Usage,
    /// There was no memory.
    #[error("out of memory")]
    NoMemory,
}

impl From<AllocError> for WordsEnd {
    ghost from_gives = { λ _ e. e ≡ end_of.NoMemory };

    /// Out of memory.
    fn from(_error: AllocError) -> WordsEnd {
        WordsEnd::NoMemory
    }
}

impl<T: Drop> From<AllocFailed<T>> for WordsEnd {
    ghost from_gives = { λ _ e. e ≡ end_of.NoMemory };

    /// Out of memory; what there was no room for is dropped.
    fn from(_error: AllocFailed<T>) -> WordsEnd {
        WordsEnd::NoMemory
    }
}
