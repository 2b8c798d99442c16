//! The attributes of each element.

ghost use Rattle.std.specs.Prelude.{◌≡◌, map};
ghost use Rattle.xs_elements.specs.Attributes.{allowed_data, attributes_of};
ghost use Rattle.xs_elements.specs.Reading.{allowed_form};

use crate::forms::Form;
use crate::tags::Tag;

/// Whether an element has to have an attribute.
#[derive(Clone, Copy, PartialEq, Eq)]
pub enum Need {
    Required,
    Optional,
}

use Need::{Optional, Required};

/// An attribute that an element may have: its local part, whether it has to be there, and what its
/// value has to be.
#[derive(Clone, Copy)]
pub struct Attribute(pub &'static str, pub Need, pub Form);

static NONE: [Attribute; 0] = [];

/// XSLT 1.0, 2.2. That `version` is there is asked of the document's element alone.
static STYLESHEET: [Attribute; 4] = [
    Attribute("version", Optional, Form::Version),
    Attribute("id", Optional, Form::Anything),
    Attribute("extension-element-prefixes", Optional, Form::Prefixes),
    Attribute("exclude-result-prefixes", Optional, Form::Prefixes),
];

/// `xsl:import` and `xsl:include` (2.6).
static HREF: [Attribute; 1] = [Attribute("href", Required, Form::Anything)];

/// `xsl:strip-space` and `xsl:preserve-space` (3.4).
static ELEMENTS: [Attribute; 1] = [Attribute("elements", Required, Form::Tests)];

/// 16.
static OUTPUT: [Attribute; 10] = [
    Attribute("method", Optional, Form::Name),
    Attribute("version", Optional, Form::Anything),
    Attribute("encoding", Optional, Form::Anything),
    Attribute("omit-xml-declaration", Optional, Form::YesOrNo),
    Attribute("standalone", Optional, Form::YesOrNo),
    Attribute("doctype-public", Optional, Form::Anything),
    Attribute("doctype-system", Optional, Form::Anything),
    Attribute("cdata-section-elements", Optional, Form::Names),
    Attribute("indent", Optional, Form::YesOrNo),
    Attribute("media-type", Optional, Form::Anything),
];

/// 12.2.
static KEY: [Attribute; 3] = [
    Attribute("name", Required, Form::Name),
    Attribute("match", Required, Form::KeyPattern),
    Attribute("use", Required, Form::KeyUse),
];

/// 7.1.1.
static NAMESPACE_ALIAS: [Attribute; 2] = [
    Attribute("stylesheet-prefix", Required, Form::Prefix),
    Attribute("result-prefix", Required, Form::Prefix),
];

/// 7.1.4.
static ATTRIBUTE_SET: [Attribute; 2] = [
    Attribute("name", Required, Form::Name),
    Attribute("use-attribute-sets", Optional, Form::Sets),
];

/// `xsl:variable`, `xsl:param` (11) and `xsl:with-param` (11.6).
static BINDING: [Attribute; 2] = [
    Attribute("name", Required, Form::Name),
    Attribute("select", Optional, Form::Expression),
];

/// 5.3. That one of `match` and `name` is there is asked beside.
static TEMPLATE: [Attribute; 4] = [
    Attribute("match", Optional, Form::TemplatePattern),
    Attribute("name", Optional, Form::Name),
    Attribute("priority", Optional, Form::Priority),
    Attribute("mode", Optional, Form::Name),
];

/// 5.4.
static APPLY_TEMPLATES: [Attribute; 2] = [
    Attribute("select", Optional, Form::Expression),
    Attribute("mode", Optional, Form::Name),
];

/// 6.
static CALL_TEMPLATE: [Attribute; 1] = [Attribute("name", Required, Form::Name)];

/// `xsl:for-each` (8) and `xsl:copy-of` (11.3).
static SELECT: [Attribute; 1] = [Attribute("select", Required, Form::Expression)];

/// 7.6.1.
static VALUE_OF: [Attribute; 2] = [
    Attribute("select", Required, Form::Expression),
    Attribute("disable-output-escaping", Optional, Form::YesOrNo),
];

/// 7.5.
static COPY: [Attribute; 1] = [Attribute("use-attribute-sets", Optional, Form::Sets)];

/// 7.7.
static NUMBER: [Attribute; 9] = [
    Attribute("level", Optional, Form::Level),
    Attribute("count", Optional, Form::NumberPattern),
    Attribute("from", Optional, Form::NumberPattern),
    Attribute("value", Optional, Form::Expression),
    Attribute("format", Optional, Form::ValueTemplate),
    Attribute("lang", Optional, Form::ValueTemplate),
    Attribute("letter-value", Optional, Form::ValueTemplate),
    Attribute("grouping-separator", Optional, Form::ValueTemplate),
    Attribute("grouping-size", Optional, Form::ValueTemplate),
];

/// `xsl:if` (9.1) and `xsl:when` (9.2).
static TEST: [Attribute; 1] = [Attribute("test", Required, Form::Expression)];

/// 7.2.
static TEXT: [Attribute; 1] = [Attribute("disable-output-escaping", Optional, Form::YesOrNo)];

/// 7.1.2.
static ELEMENT: [Attribute; 3] = [
    Attribute("name", Required, Form::ValueTemplate),
    Attribute("namespace", Optional, Form::ValueTemplate),
    Attribute("use-attribute-sets", Optional, Form::Sets),
];

/// 7.1.3.
static ATTRIBUTE: [Attribute; 2] = [
    Attribute("name", Required, Form::ValueTemplate),
    Attribute("namespace", Optional, Form::ValueTemplate),
];

/// 7.3.
static PROCESSING_INSTRUCTION: [Attribute; 1] = [Attribute("name", Required, Form::ValueTemplate)];

/// 13.
static MESSAGE: [Attribute; 1] = [Attribute("terminate", Optional, Form::YesOrNo)];

/// 10.
static SORT: [Attribute; 5] = [
    Attribute("select", Optional, Form::Expression),
    Attribute("lang", Optional, Form::ValueTemplate),
    Attribute("data-type", Optional, Form::ValueTemplate),
    Attribute("order", Optional, Form::ValueTemplate),
    Attribute("case-order", Optional, Form::ValueTemplate),
];

/// What a literal element may have in the namespace of XSLT (7.1.1, 7.1.4, 14.1, 2.3).
static LITERAL: [Attribute; 4] = [
    Attribute("use-attribute-sets", Optional, Form::Sets),
    Attribute("exclude-result-prefixes", Optional, Form::Prefixes),
    Attribute("extension-element-prefixes", Optional, Form::Prefixes),
    Attribute("version", Optional, Form::Version),
];

/// The attributes of an element: of one of XSLT those in no namespace, of another one those in
/// XSLT's.
pub fn attributes(tag: Tag) -> &'static [Attribute]
    ensures { map allowed_data result.now ≡ attributes_of tag }
{
    match tag {
        Tag::Stylesheet => &STYLESHEET,
        Tag::Import | Tag::Include => &HREF,
        Tag::StripSpace | Tag::PreserveSpace => &ELEMENTS,
        Tag::Output => &OUTPUT,
        Tag::Key => &KEY,
        Tag::NamespaceAlias => &NAMESPACE_ALIAS,
        Tag::AttributeSet => &ATTRIBUTE_SET,
        Tag::Variable | Tag::Param | Tag::WithParam => &BINDING,
        Tag::Template => &TEMPLATE,
        Tag::ApplyTemplates => &APPLY_TEMPLATES,
        Tag::CallTemplate => &CALL_TEMPLATE,
        Tag::ForEach | Tag::CopyOf => &SELECT,
        Tag::ValueOf => &VALUE_OF,
        Tag::Copy => &COPY,
        Tag::Number => &NUMBER,
        Tag::If | Tag::When => &TEST,
        Tag::Text => &TEXT,
        Tag::Element => &ELEMENT,
        Tag::Attribute => &ATTRIBUTE,
        Tag::ProcessingInstruction => &PROCESSING_INSTRUCTION,
        Tag::Message => &MESSAGE,
        Tag::Sort => &SORT,
        Tag::Other => &LITERAL,
        Tag::ApplyImports | Tag::Choose | Tag::Otherwise | Tag::Comment | Tag::Fallback => &NONE,
        Tag::DecimalFormat | Tag::Unknown | Tag::NoElement => &NONE,
    }
}

/// What the value of an attribute with this local part has to be, if there is such an attribute.
pub fn form_named(tag: Tag, local: &str) -> Option<Form>
    ensures { result ≡ allowed_form tag local.now }
{
    for attribute in attributes(tag) {
        if attribute.0 == local {
            return Some(attribute.2);
        }
    }
    None
}
