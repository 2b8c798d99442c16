//! Value templates (XSLT 1.0, 7.6.2): fixed text with expressions between curly brackets.

use crate::expr::Expr;
use xs_text::TextBuf;

/// A part of a value template.
#[derive(Drop)]
pub enum AvtPart {
    /// Fixed text.
    Fixed(TextBuf),
    /// An expression, whose text stands there.
    Computed(Expr),
}
