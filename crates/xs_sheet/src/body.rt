//! The content of templates, of bindings and of instructions.

use crate::items::Items;
use crate::scoped::{Namespaces, ScopedExpr, ScopedPattern, ValueTemplate};
use xs_text::TextBuf;
use xs_trace::event::Label;
use xs_trace::item::Site;

/// Instructions, literal elements and texts, in the order of the stylesheet (XSLT 1.0, 2.1).
#[cycle(body)]
#[derive(Drop)]
pub struct Body {
    pub instrs: Items<Instr>,
}

/// One of them.
#[cycle(body)]
#[derive(Drop)]
pub struct Instr {
    /// Its module, and its line there; of a text, its first line that is not empty.
    pub site: Site,
    /// What it does.
    pub kind: InstrKind,
}

/// The binding of a variable, or of a parameter that is passed (XSLT 1.0, 11).
#[cycle(body)]
#[derive(Drop)]
pub struct Binding {
    pub site: Site,
    pub name: Label,
    pub content: Content,
}

/// What a binding binds its name to (XSLT 1.0, 11.2).
#[cycle(body)]
#[derive(Drop)]
pub enum Content {
    /// The empty string: it has neither a `select` nor content.
    Empty,
    /// The value of an expression.
    Select(ScopedExpr),
    /// A fragment.
    Body(Body),
}

/// A sort key (XSLT 1.0, 10).
#[derive(Drop)]
pub struct SortDecl {
    /// What is evaluated for each node; `.` where no `select` was written.
    pub select: ScopedExpr,
    pub data_type: Option<ValueTemplate>,
    pub order: Option<ValueTemplate>,
}

/// Which numbers are counted (XSLT 1.0, 7.7).
#[derive(Clone, Copy, PartialEq, Eq, Debug)]
pub enum Level {
    Single,
    Multiple,
    Any,
}

/// A number that is put (XSLT 1.0, 7.7).
#[derive(Drop)]
pub struct NumberDecl {
    pub level: Level,
    pub count: Option<ScopedPattern>,
    pub from: Option<ScopedPattern>,
    pub value: Option<ScopedExpr>,
    pub format: Option<ValueTemplate>,
    pub grouping_separator: Option<ValueTemplate>,
    pub grouping_size: Option<ValueTemplate>,
}

/// A body with its test (XSLT 1.0, 9.2).
#[cycle(body)]
#[derive(Drop)]
pub struct When {
    pub test: ScopedExpr,
    pub body: Body,
}

/// Bodies of which one is done (XSLT 1.0, 9.2).
#[cycle(body)]
#[derive(Drop)]
pub struct Choice {
    /// The tests, in order, each with its body.
    pub whens: Items<When>,
    /// What is done where none of them holds; empty without `xsl:otherwise`.
    pub otherwise: Body,
}

/// The parameters that are passed to a template (XSLT 1.0, 11.6).
#[cycle(body)]
#[derive(Drop)]
pub struct Passed {
    pub params: Items<Binding>,
}

/// The contents of the `xsl:fallback`s of an extension element (XSLT 1.0, 15).
#[cycle(body)]
#[derive(Drop)]
pub struct Fallbacks {
    pub bodies: Items<Body>,
}

/// A name that is made when the instruction runs, with the namespaces in scope for it
/// (XSLT 1.0, 7.1.2 and 7.1.3).
#[derive(Drop)]
pub struct MadeName {
    pub name: ValueTemplate,
    pub namespace: Option<ValueTemplate>,
    pub scope: Namespaces,
}

/// A literal element except its content (XSLT 1.0, 7.1.1).
#[derive(Drop)]
pub struct LiteralStart {
    pub name: Label,
    /// The prefixes and URIs of its namespace nodes, except those that are excluded. Aliases are
    /// not applied yet, to none of its names.
    pub spaces: Items<(TextBuf, TextBuf)>,
    /// The names of the attribute sets that it uses.
    pub sets: Items<Label>,
    pub attributes: Items<(Label, ValueTemplate)>,
}

/// The nodes to which templates are applied, and the mode (XSLT 1.0, 5.4 and 5.7).
#[derive(Drop)]
pub struct Applied {
    /// What gives the nodes; all children where no `select` was written.
    pub select: Option<ScopedExpr>,
    /// The number of the mode, 0 without one; two modes have one number exactly where their
    /// expanded names are the same.
    pub mode: u32,
    pub sorts: Items<SortDecl>,
}

/// What one part of a body does.
#[cycle(body)]
#[derive(Drop)]
pub enum InstrKind {
    /// Applies templates (5.4).
    ApplyTemplates {
        nodes: Applied,
        passed: Passed,
    },
    /// Calls the template of this number (6).
    CallTemplate {
        template: u32,
        passed: Passed,
    },
    /// Applies the rules that the current one overrides (5.6).
    ApplyImports,
    /// Does a body for each node (8).
    ForEach {
        select: ScopedExpr,
        sorts: Items<SortDecl>,
        body: Body,
    },
    /// Puts a string (7.6.1).
    ValueOf(ScopedExpr),
    /// Puts a copy of a value (11.3).
    CopyOf(ScopedExpr),
    /// Puts a copy of the current node, with a body in it (7.5).
    Copy {
        sets: Items<Label>,
        body: Body,
    },
    /// Puts a number (7.7).
    Number(NumberDecl),
    /// Does the body of the first test that holds, or the one for all other cases (9.2).
    Choose(Choice),
    /// Does a body where a test holds (9.1).
    If {
        test: ScopedExpr,
        body: Body,
    },
    /// Puts a text (7.2).
    Text(TextBuf),
    /// Puts an element with a name that is made (7.1.2).
    Element {
        name: MadeName,
        sets: Items<Label>,
        body: Body,
    },
    /// Puts an attribute (7.1.3).
    Attribute {
        name: MadeName,
        body: Body,
    },
    /// Puts a comment (7.4).
    Comment(Body),
    /// Puts a processing instruction (7.3).
    Pi {
        name: ValueTemplate,
        body: Body,
    },
    /// Says a text to the user (13).
    Message {
        terminate: bool,
        body: Body,
    },
    /// Binds a variable for what comes behind it (11.2).
    Variable(Binding),
    /// Puts a literal element (7.1.1).
    Literal {
        start: LiteralStart,
        body: Body,
    },
    /// An extension element, by its fallbacks (14.1, 15).
    Extension(Fallbacks),
}
