//! What a library keeps of each fetch.

use xs_text::TextBuf;

/// A fetch that was answered.
#[derive(Debug, Drop)]
pub struct Fetch {
    /// The name that was asked for.
    pub name: TextBuf,
    /// Whether it failed; else it gave bytes.
    pub failed: bool,
}
