//! How an element of a stylesheet is read.

/// How an element is read.
#[derive(Clone, Copy, PartialEq, Eq)]
pub enum Reading {
    /// As an element of XSLT.
    Known,
    /// As a literal element (7.1.1).
    Literal,
    /// As an extension element (14.1), of which only the attributes of XSLT's namespace and the
    /// fallbacks are read.
    Extension,
    /// Not at all.
    Unread,
}
