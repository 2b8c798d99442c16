//! What names represent: functions, node tests and variables.

use xs_text::TextBuf;

/// A function of the core library (XPath 1.0, 4), or of XSLT 1.0 (12 and 15).
#[derive(Clone, Copy)]
pub enum Function {
    Last,
    Position,
    Count,
    Id,
    LocalName,
    NamespaceUri,
    Name,
    String,
    Concat,
    StartsWith,
    Contains,
    SubstringBefore,
    SubstringAfter,
    Substring,
    StringLength,
    NormalizeSpace,
    Translate,
    Boolean,
    Not,
    True,
    False,
    Lang,
    Number,
    Sum,
    Floor,
    Ceiling,
    Round,
    Key,
    Current,
    GenerateId,
    SystemProperty,
    ElementAvailable,
    FunctionAvailable,
    UnparsedEntityUri,
}

/// Which nodes of an axis a step takes (XPath 1.0, 2.3).
#[derive(Drop)]
pub enum NodeTest {
    /// `*`: each node of the axis' principal kind.
    Any,
    /// `p:*`: those whose name is in this namespace.
    Uri(TextBuf),
    /// A name: those with this URI, empty for none, and this local part.
    Name(TextBuf, TextBuf),
    /// `node()`: each node.
    Node,
    /// `text()`
    Text,
    /// `comment()`
    Comment,
    /// `processing-instruction()`
    Pi,
    /// `processing-instruction('x')`: those with this target.
    Target(TextBuf),
}

/// Where the value of a variable is kept.
#[derive(Clone, Copy)]
pub enum Slot {
    /// The number of a local binding.
    Local(u32),
    /// The number of a global binding.
    Global(u32),
}
