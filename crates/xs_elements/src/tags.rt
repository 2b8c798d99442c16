//! What an element of a stylesheet is, by its name.

ghost use Rattle.std.specs.Prelude.{◌≡◌, ◌<◌, length, map};
ghost use Rattle.xs_elements.specs.Tags.{is_document_element, is_sheet, is_top_level, named_tags};
ghost use Rattle.xs_elements.specs.Tags.{tag_data, tag_named, tag_of};

use xs_tree::{Kind, Node, Tree};

/// The namespace of XSLT's elements (XSLT 1.0, 2.1).
pub const XSLT_URI: &str = "http://www.w3.org/1999/XSL/Transform";

/// An element of XSLT 1.0, or another node.
#[derive(Clone, Copy, PartialEq, Eq)]
pub enum Tag {
    /// `xsl:stylesheet` or `xsl:transform` (2.2).
    Stylesheet,
    Import,
    Include,
    StripSpace,
    PreserveSpace,
    Output,
    Key,
    DecimalFormat,
    NamespaceAlias,
    AttributeSet,
    Variable,
    Param,
    Template,
    ApplyTemplates,
    CallTemplate,
    ApplyImports,
    ForEach,
    ValueOf,
    CopyOf,
    Copy,
    Number,
    Choose,
    When,
    Otherwise,
    If,
    Text,
    Element,
    Attribute,
    Comment,
    ProcessingInstruction,
    Message,
    Fallback,
    Sort,
    WithParam,
    /// In the namespace of XSLT, under a name that XSLT 1.0 does not have.
    Unknown,
    /// An element of another namespace or of none.
    Other,
    /// No element.
    NoElement,
}

/// The elements of XSLT with their local parts: those of the top level (2.2), instructions (5 to
/// 13), and parts of instructions (9.2, 10, 11.6, 15).
static TAGS: [(Tag, &str); 35] = [
    (Tag::Stylesheet, "stylesheet"),
    (Tag::Stylesheet, "transform"),
    (Tag::Import, "import"),
    (Tag::Include, "include"),
    (Tag::StripSpace, "strip-space"),
    (Tag::PreserveSpace, "preserve-space"),
    (Tag::Output, "output"),
    (Tag::Key, "key"),
    (Tag::DecimalFormat, "decimal-format"),
    (Tag::NamespaceAlias, "namespace-alias"),
    (Tag::AttributeSet, "attribute-set"),
    (Tag::Variable, "variable"),
    (Tag::Param, "param"),
    (Tag::Template, "template"),
    (Tag::ApplyTemplates, "apply-templates"),
    (Tag::CallTemplate, "call-template"),
    (Tag::ApplyImports, "apply-imports"),
    (Tag::ForEach, "for-each"),
    (Tag::ValueOf, "value-of"),
    (Tag::CopyOf, "copy-of"),
    (Tag::Copy, "copy"),
    (Tag::Number, "number"),
    (Tag::Choose, "choose"),
    (Tag::If, "if"),
    (Tag::Text, "text"),
    (Tag::Element, "element"),
    (Tag::Attribute, "attribute"),
    (Tag::Comment, "comment"),
    (Tag::ProcessingInstruction, "processing-instruction"),
    (Tag::Message, "message"),
    (Tag::When, "when"),
    (Tag::Otherwise, "otherwise"),
    (Tag::Fallback, "fallback"),
    (Tag::Sort, "sort"),
    (Tag::WithParam, "with-param"),
];

/// The elements of XSLT with their local parts.
fn named_tags() -> &'static [(Tag, &'static str)]
    ensures { map tag_data result.now ≡ named_tags }
{
    &TAGS
}

/// The element of XSLT with this local part.
#[tactic(auto, unfolding(crate::specs::Tags::tag_named))]
fn tag_named(local: &str) -> Tag
    ensures tag { result ≡ tag_named local.now }
{
    for (tag, name) in named_tags() {
        if *name == local {
            return *tag;
        }
    }
    Tag::Unknown
}

/// What a node is.
pub fn tag_of(tree: &Tree, n: Node) -> Tag
    requires { n < length tree.now }
    ensures tag { result ≡ tag_of tree.now n }
{
    if !matches!(tree.kind(n), Kind::Element) {
        Tag::NoElement
    } else if tree.uri(n) == XSLT_URI {
        tag_named(tree.local(n))
    } else {
        Tag::Other
    }
}

/// Whether a node is the document's element.
pub fn is_document_element(tree: &Tree, n: Node) -> bool
    requires { n < length tree.now }
    ensures element { result ≡ is_document_element tree.now n }
{
    match tree.parent(n) {
        Some(parent) => parent.place() == 0,
        None => false,
    }
}

/// Whether a node is the element of a stylesheet (2.2).
fn is_sheet(tree: &Tree, n: Node) -> bool
    requires { n < length tree.now }
    ensures sheet { result ≡ is_sheet tree.now n }
{
    matches!(tag_of(tree, n), Tag::Stylesheet) && is_document_element(tree, n)
}

/// Whether a node is a child of the stylesheet's element (2.2).
pub fn is_top_level(tree: &Tree, n: Node) -> bool
    requires { n < length tree.now }
    ensures top { result ≡ is_top_level tree.now n }
{
    match tree.parent(n) {
        Some(parent) => is_sheet(tree, parent),
        None => false,
    }
}
