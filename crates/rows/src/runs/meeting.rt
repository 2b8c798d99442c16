//! A gate at which two workers meet.

use std::sync::atomic::{AtomicU64, Ordering};
use std::thread::yield_now;
use xs_outside::Gate;

/// How often a worker looks whether the other one has come.
const TURNS: u32 = 50_000_000;

/// A gate for two workers. The first waits at its second claim until the second has come to its
/// first; that one waits there until the first has come to its second.
#[derive(Drop)]
pub(crate) struct Meeting {
    first: AtomicU64,
    second: AtomicU64,
    late: AtomicU64,
}

impl Meeting {
    /// A gate to which nobody has come.
    pub(crate) fn new() -> Meeting {
        Meeting {
            first: AtomicU64::new(0),
            second: AtomicU64::new(0),
            late: AtomicU64::new(0),
        }
    }

    /// Says that a worker has come, and waits for the other one, but not for ever.
    fn meet(&self, own: &AtomicU64, other: &AtomicU64) {
        own.store(1, Ordering::SeqCst);
        for _turn in 0..TURNS {
            if has_come(other) {
                return;
            }
            yield_now();
        }
        self.late.store(1, Ordering::SeqCst);
    }

    /// Whether both have come, and neither waited in vain.
    pub(crate) fn is_met(&self) -> bool {
        has_come(&self.first) && has_come(&self.second) && !has_come(&self.late)
    }
}

/// Whether a flag is set.
fn has_come(flag: &AtomicU64) -> bool {
    flag.load(Ordering::SeqCst) > 0
}

impl Gate for Meeting {
    // At these two claims the workers meet.
    fn pass(&self, worker: u32, taken: u64) {
        match (worker, taken) {
            (0, 2) => self.meet(&self.first, &self.second),
            (1, 1) => self.meet(&self.second, &self.first),
            _ => {}
        }
    }
}
