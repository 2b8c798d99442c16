//! Rows on whole runs in memory, and on what such a run reads and writes.

mod answers;
mod calls;
pub(crate) mod events;
pub(crate) mod files;
mod meeting;
mod parts;
mod replies;
mod setup;
