//! Making the nodes of a result: their names, their texts, and copies of the nodes of a tree.
#![tactic(auto)]

mod compared;
mod copies;
mod ends;
mod event_list;
mod labels;
pub mod laws;
mod leaves;
mod names;
mod plain_names;
mod recent;
mod sheet_texts;
mod slots;
mod texts;

pub use copies::{copy_events, put_deep_copy, put_shallow_copy};
pub use ends::MakeEnd;
pub use names::{pi_target, result_name};
pub use recent::RecentLabels;
pub use sheet_texts::SheetTexts;
pub use texts::{comment_text, pi_text};
