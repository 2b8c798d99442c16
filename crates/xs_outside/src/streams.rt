//! Sinks over the standard streams.

ghost use Rattle.std.specs.Prelude.{◌≡◌, ℕ, ◌<◌, ◌≤◌, length, is_ok, IfOk, None, OnErr};
ghost use Rattle.std.specs.Prelude.{if◌then◌else◌};
ghost use Rattle.xs_outside.specs.Edge.{raised};

use super::edge::{Failed, Sink};
use std::io::{Stderr, Stdout};
use std::marker::Model;

/// A sink that passes each piece to a stream at once, and counts the writes that failed.
///
/// It reports nothing of what the stream got.
#[derive(Drop)]
pub struct StreamSink<P> {
    stream: P,
    faults: u64,
}

/// The standard output, as `rt.stdout()` gives it.
pub type OutSink = StreamSink<Stdout>;

/// The standard error, as `rt.stderr()` gives it.
pub type ErrSink = StreamSink<Stderr>;

impl<P> Model for StreamSink<P> {
    ghost use Rattle.std.specs.Prelude.{ℕ};

    ghost Value = { ℕ };

    ghost view = { λ s. s.faults };
}

impl<P: Print> StreamSink<P> {
    /// A sink over this stream, with no fault so far.
    pub fn new(stream: P) -> StreamSink<P>
        ensures { result ≡ 0 }
    {
        StreamSink { stream, faults: 0 }
    }
}

impl<P: Print> Sink for StreamSink<P> {
    ghost faults = { λ s. s };

    ghost held = { λ _. None };

    // A stream that takes no byte of a piece with bytes has failed.
    fn write(&mut self, bytes: &[u8]) -> Result<usize, Failed>
        ensures count { self.old ≤ self.new }
        ensures count_stays { IfOk result (λ _. self.new ≡ self.old) }
        ensures taken { IfOk result (λ n. (n ≤ length bytes.now) × (0 < length bytes.now → 0 < n)) }
        ensures count_raised { OnErr result (self.new ≡ raised self.old) }
    {
        match self.stream.write_some(bytes) {
            Ok(taken) if taken > 0 || bytes.is_empty() => Ok(taken),
            _ => {
                self.faults = self.faults.saturating_add(1);
                Err(Failed)
            }
        }
    }
}
