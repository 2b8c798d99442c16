//! What may stand in each element.

ghost use Rattle.std.specs.Prelude.{◌≡◌, List, [], ◌∷◌, ◌++◌};
ghost use Rattle.xs_elements.specs.Contents.{content_of, holds_text, is_declaration, is_in_body};
ghost use Rattle.xs_elements.specs.Contents.{before_of, may_stand, stands_at_top, stands_in_choose};
ghost use Rattle.xs_elements.specs.Contents.{stands_in_loop, stands_in_template};
ghost use Rattle.xs_elements.specs.declared.tags.Tag.{Tag as TagData};

use crate::tags::Tag;

/// The kinds of content.
#[derive(Clone, Copy, PartialEq, Eq)]
pub enum Content {
    /// Nothing.
    Nothing,
    /// The elements of the top level, imports before all others (XSLT 1.0, 2.2, 2.6.2).
    TopLevel,
    /// `xsl:attribute` (7.1.4).
    Attributes,
    /// `xsl:sort` and `xsl:with-param` (5.4).
    SortsAndParameters,
    /// `xsl:with-param` (6).
    Parameters,
    /// `xsl:when`, and `xsl:otherwise` behind them (9.2).
    Branches,
    /// Text (7.2).
    TextAlone,
    /// A body: instructions, literal elements and text (2.1).
    Body,
    /// `xsl:param`, and then a body (5.3).
    ParametersAndBody,
    /// `xsl:sort`, and then a body (8).
    SortsAndBody,
    /// Anything, since it is not looked at.
    Unread,
}

/// Which content an element of XSLT has. A binding with a `select` has none (11.2).
pub fn content_of(tag: Tag, has_select: bool) -> Content
    ensures { result ≡ content_of tag has_select }
{
    match tag {
        Tag::Stylesheet => Content::TopLevel,
        Tag::AttributeSet => Content::Attributes,
        Tag::Template => Content::ParametersAndBody,
        Tag::Variable | Tag::Param | Tag::WithParam if has_select => Content::Nothing,
        Tag::Variable | Tag::Param | Tag::WithParam => Content::Body,
        Tag::ApplyTemplates => Content::SortsAndParameters,
        Tag::CallTemplate => Content::Parameters,
        Tag::ForEach => Content::SortsAndBody,
        Tag::Choose => Content::Branches,
        Tag::Text => Content::TextAlone,
        Tag::Copy | Tag::If | Tag::When | Tag::Otherwise | Tag::Element => Content::Body,
        Tag::Attribute | Tag::Comment | Tag::ProcessingInstruction => Content::Body,
        Tag::Message | Tag::Fallback | Tag::Other => Content::Body,
        Tag::Import | Tag::Include | Tag::StripSpace | Tag::PreserveSpace => Content::Nothing,
        Tag::Output | Tag::Key | Tag::NamespaceAlias | Tag::ApplyImports => Content::Nothing,
        Tag::ValueOf | Tag::CopyOf | Tag::Number | Tag::Sort => Content::Nothing,
        Tag::DecimalFormat | Tag::Unknown | Tag::NoElement => Content::Unread,
    }
}

/// Whether text may stand in some content.
pub fn holds_text(content: Content) -> bool
    ensures { result ≡ holds_text content }
{
    match content {
        Content::TextAlone | Content::Body | Content::ParametersAndBody => true,
        Content::SortsAndBody | Content::Unread => true,
        Content::Nothing | Content::TopLevel | Content::Attributes | Content::Branches => false,
        Content::SortsAndParameters | Content::Parameters => false,
    }
}

/// Whether an element of XSLT that is no import stands at the top level (2.2).
fn is_declaration(tag: Tag) -> bool
    ensures { result ≡ is_declaration tag }
{
    match tag {
        Tag::Include | Tag::StripSpace | Tag::PreserveSpace | Tag::Output => true,
        Tag::Key | Tag::DecimalFormat | Tag::NamespaceAlias | Tag::AttributeSet => true,
        Tag::Variable | Tag::Param | Tag::Template => true,
        _ => false,
    }
}

/// Whether an element stands in a body (2.1).
fn is_in_body(tag: Tag) -> bool
    ensures { result ≡ is_in_body tag }
{
    match tag {
        Tag::ApplyTemplates | Tag::CallTemplate | Tag::ApplyImports | Tag::ForEach => true,
        Tag::ValueOf | Tag::CopyOf | Tag::Copy | Tag::Number | Tag::Choose | Tag::If => true,
        Tag::Text | Tag::Element | Tag::Attribute | Tag::Comment => true,
        Tag::ProcessingInstruction | Tag::Message | Tag::Variable | Tag::Other => true,
        _ => false,
    }
}

/// What of an element's content stands before a node: whether there is any, and whether all of it
/// is elements of one kind.
#[derive(Clone, Copy)]
pub struct Before {
    is_some: bool,
    only_imports: bool,
    only_params: bool,
    only_sorts: bool,
    only_whens: bool,
}

impl Before {
    /// Nothing.
    pub fn none() -> Before
        ensures { result ≡ before_of [] }
    {
        Before {
            is_some: false,
            only_imports: true,
            only_params: true,
            only_sorts: true,
            only_whens: true,
        }
    }

    /// With one more behind it: an element, or text.
    pub fn and(self, tag: Tag) -> Before
        ensures { (tags : List TagData) → self ≡ before_of tags
            → result ≡ before_of (tags ++ tag ∷ []) }
    {
        Before {
            is_some: true,
            only_imports: self.only_imports && matches!(tag, Tag::Import),
            only_params: self.only_params && matches!(tag, Tag::Param),
            only_sorts: self.only_sorts && matches!(tag, Tag::Sort),
            only_whens: self.only_whens && matches!(tag, Tag::When),
        }
    }
}

/// Whether an element may stand at the top level (2.2, 2.6.2).
fn stands_at_top(tag: Tag, has_namespace: bool, before: Before) -> bool
    ensures { (tags : List TagData) → before ≡ before_of tags
        → result ≡ stands_at_top tag has_namespace tags }
{
    match tag {
        Tag::Import => before.only_imports,
        Tag::Other => has_namespace,
        _ => is_declaration(tag),
    }
}

/// Whether an element may stand in `xsl:choose` (9.2).
fn stands_in_choose(tag: Tag, before: Before) -> bool
    ensures { (tags : List TagData) → before ≡ before_of tags
        → result ≡ stands_in_choose tag tags }
{
    match tag {
        Tag::When => before.only_whens,
        Tag::Otherwise => before.is_some && before.only_whens,
        _ => false,
    }
}

/// Whether an element may stand in `xsl:template` (5.3).
fn stands_in_template(tag: Tag, before: Before) -> bool
    ensures { (tags : List TagData) → before ≡ before_of tags
        → result ≡ stands_in_template tag tags }
{
    match tag {
        Tag::Param => before.only_params,
        _ => is_in_body(tag),
    }
}

/// Whether an element may stand in `xsl:for-each` (8).
fn stands_in_loop(tag: Tag, before: Before) -> bool
    ensures { (tags : List TagData) → before ≡ before_of tags
        → result ≡ stands_in_loop tag tags }
{
    match tag {
        Tag::Sort => before.only_sorts,
        _ => is_in_body(tag),
    }
}

/// Whether an element may stand in some content, behind what stands before it.
pub fn may_stand(content: Content, tag: Tag, has_namespace: bool, before: Before) -> bool
    ensures { (tags : List TagData) → before ≡ before_of tags
        → result ≡ may_stand content tag has_namespace tags }
{
    match content {
        Content::Nothing | Content::TextAlone => false,
        Content::TopLevel => stands_at_top(tag, has_namespace, before),
        Content::Attributes => matches!(tag, Tag::Attribute),
        Content::SortsAndParameters => matches!(tag, Tag::Sort | Tag::WithParam),
        Content::Parameters => matches!(tag, Tag::WithParam),
        Content::Branches => stands_in_choose(tag, before),
        Content::Body => is_in_body(tag),
        Content::ParametersAndBody => stands_in_template(tag, before),
        Content::SortsAndBody => stands_in_loop(tag, before),
        Content::Unread => true,
    }
}
