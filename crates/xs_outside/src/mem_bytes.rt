//! A sink that lives in memory.

ghost use Rattle.std.specs.Prelude.{◌≡◌, ◌+◌, ◌<◌, ◌≤◌, ◌↔◌, [], ◌++◌, length, max, take, IfOk};
ghost use Rattle.std.specs.Prelude.{OnOk, OnErr, IsErr, IsTrue, Some};
ghost use Rattle.xs_outside.specs.Edge.{raised};
ghost use Rattle.xs_outside.specs.Memory.{write_fails, taken_of, after_taking, after_fault};

use super::edge::{Failed, Sink};
use std::alloc::{AllocError, Global};
use std::marker::Model;

/// A sink that keeps its bytes in memory, and fails the writes that it was reported to fail.
///
/// A write takes no memory: `reserve` makes the room beforehand.
#[derive(Drop)]
pub struct MemSink {
    held: Vec<u8>,
    room: usize,
    most: usize,
    failing: Vec<u64>,
    calls: u64,
    faults: u64,
}

impl Model for MemSink {
    ghost use Rattle.std.specs.Prelude.{ℕ, ◌+◌, ◌≤◌, vec_len, vec_capacity};
    ghost use Rattle.xs_outside.specs.Memory.{MemBytes};

    ghost Value = { MemBytes };

    ghost view = { λ s. record {
      held = s.held.items;
      room = s.room;
      most = s.most;
      failing = s.failing.items;
      calls = s.calls;
      faults = s.faults;
    } };

    ghost invariant = { λ s. (1 ≤ s.most) × (vec_len s.held + s.room ≤ vec_capacity s.held) };
}

impl MemSink {
    /// An empty sink without room, which takes at most `most` bytes per write and fails the writes
    /// whose numbers, from 1, are in `failing`.
    pub fn new(alloc: Global, most: usize, failing: Vec<u64>) -> MemSink
        requires { 1 ≤ most }
        ensures { result ≡ record {
          held = [];
          room = 0;
          most = most;
          failing = failing.items;
          calls = 0;
          faults = 0;
        } }
    {
        MemSink {
            held: Vec::new(alloc),
            room: 0,
            most,
            failing,
            calls: 0,
            faults: 0,
        }
    }

    /// The bytes written so far.
    pub fn held(&self) -> &[u8]
        ensures { result.now ≡ self.now.held }
    {
        &self.held
    }

    /// Makes room for at least `n` bytes more. After a refusal the sink is as it was.
    pub fn reserve(&mut self, n: usize) -> Result<(), AllocError>
        ensures room { OnOk result (self.new ≡ record self.old { room = max self.old.room n }) }
        ensures refused { OnErr result (self.new ≡ self.old) }
    {
        self.held.reserve(n)?;
        self.room = self.room.max(n);
        Ok(())
    }
}

impl Sink for MemSink {
    ghost faults = { λ s. s.faults };

    ghost held = { λ s. Some s.held };

    // A listed write fails, and one of bytes that finds no room.
    fn write(&mut self, bytes: &[u8]) -> Result<usize, Failed>
        ensures count { self.old.faults ≤ self.new.faults }
        ensures count_stays { IfOk result (λ _. self.new.faults ≡ self.old.faults) }
        ensures taken { IfOk result (λ n. (n ≤ length bytes.now) × (0 < length bytes.now → 0 < n)) }
        ensures count_raised { OnErr result (self.new.faults ≡ raised self.old.faults) }
        ensures held_ok { IfOk result (λ n. self.new.held ≡ self.old.held ++ take n bytes.now) }
        ensures held_err { OnErr result (self.new.held ≡ self.old.held) }
        ensures when { IsErr result ↔ IsTrue (write_fails self.old bytes.now) }
        ensures most { IfOk result (λ n. n ≡ taken_of self.old bytes.now) }
        ensures after_ok { IfOk result (λ n. self.new ≡ after_taking (take n bytes.now) self.old) }
        ensures after_err { OnErr result (self.new ≡ after_fault self.old) }
    {
        self.calls = self.calls.saturating_add(1);
        if self.failing.contains(&self.calls) || (!bytes.is_empty() && self.room == 0) {
            self.faults = self.faults.saturating_add(1);
            return Err(Failed);
        }
        let taken = bytes.len().min(self.most).min(self.room);
        self.room -= taken;
        self.held.extend_from_slice(&bytes[..taken]).unwrap();
        Ok(taken)
    }
}
