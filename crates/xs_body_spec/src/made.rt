//! What is made of content that is captured.

use xs_text::TextBuf;
use xs_trace::event::Label;

/// What an instruction makes of the text of its content (XSLT 1.0, 7.1.3, 7.3 and 7.4).
#[derive(Drop)]
pub enum Made {
    /// An attribute of this name.
    Attribute(Label),
    /// A comment.
    Comment,
    /// A processing instruction with this target.
    Instruction(TextBuf),
}
