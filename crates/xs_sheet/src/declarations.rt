//! What the top level of a stylesheet declares (XSLT 1.0, 2.2).

use crate::body::{Binding, Body, Instr};
use crate::items::Items;
use crate::scoped::{ScopedExpr, ScopedPattern};
use xs_text::TextBuf;
use xs_trace::event::Label;
use xs_trace::item::Site;

/// A template (XSLT 1.0, 5.3 and 6).
#[derive(Drop)]
pub struct Template {
    pub site: Site,
    /// Its import precedence. The precedences that its module imports are those from
    /// `imports_from` up to just below it.
    pub precedence: u32,
    pub imports_from: u32,
    pub pattern: Option<ScopedPattern>,
    pub name: Option<Label>,
    /// The priority that was written, in ten-thousandths.
    pub priority: Option<i64>,
    /// The number of its mode, 0 without one.
    pub mode: u32,
    pub params: Items<Binding>,
    pub body: Body,
}

/// A global variable or parameter, of its name the one that counts (XSLT 1.0, 11.4).
#[derive(Drop)]
pub struct Global {
    pub binding: Binding,
    /// Whether a value may be given to it from outside.
    pub param: bool,
}

/// A declaration of a key (XSLT 1.0, 12.2).
#[derive(Drop)]
pub struct KeyDecl {
    pub site: Site,
    pub name: Label,
    pub pattern: ScopedPattern,
    pub value: ScopedExpr,
}

/// A declaration of an attribute set (XSLT 1.0, 7.1.4).
#[derive(Drop)]
pub struct AttrSet {
    pub site: Site,
    pub precedence: u32,
    pub name: Label,
    /// The names of the sets that it uses.
    pub sets: Items<Label>,
    /// Its `xsl:attribute` instructions.
    pub attributes: Items<Instr>,
}

/// A name test (XPath 1.0, 2.3).
#[derive(Drop)]
pub enum NameTest {
    /// `*`
    Any,
    /// `p:*`
    Uri(TextBuf),
    /// A name.
    Name(Label),
}

/// One name test of `xsl:strip-space` or `xsl:preserve-space` (XSLT 1.0, 3.4).
#[derive(Drop)]
pub struct StripRule {
    pub test: NameTest,
    pub precedence: u32,
    /// Whether white space is stripped; else it is preserved.
    pub strip: bool,
}

/// A namespace alias, the one that counts for its namespace (XSLT 1.0, 7.1.1).
#[derive(Drop)]
pub struct Alias {
    pub from_uri: TextBuf,
    pub to_uri: TextBuf,
}

/// How the result is written (XSLT 1.0, 16).
#[derive(Clone, Copy, PartialEq, Eq, Debug)]
pub enum Method {
    /// As PYX lines.
    Pyx,
    /// As the text of its text nodes.
    Text,
}
