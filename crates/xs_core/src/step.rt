//! Steps of the machine.

/// What a worker does in one step. Workers are numbered from 0.
#[derive(Clone, Copy, Debug)]
pub enum Step {
    /// Takes the last place of its own deque into its hand.
    Take { worker: u32 },
    /// Takes the first place of another worker's deque into its hand.
    Steal { thief: u32, victim: u32 },
    /// Finds another worker's deque empty.
    Miss { thief: u32, victim: u32 },
    /// Puts the last child that the piece in its hand has not given at the end of its deque.
    Give { worker: u32 },
    /// Spends ticks on the piece in its hand.
    Spend { worker: u32, ticks: u64 },
    /// Finishes the piece in its hand.
    Finish { worker: u32 },
    /// Drops the piece in its hand, or else the first place of its deque.
    Discard { worker: u32 },
}
