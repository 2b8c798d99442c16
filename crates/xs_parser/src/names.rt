//! Names of a text: of operators, node types and axes, and qualified ones.
ghost use Rattle.std.specs.Prelude.{◌≡◌, IfOk, map, option_map};
ghost use Rattle.xs_xpath.specs.Names.{is_nil};
ghost use Rattle.xs_xpath.specs.Rows.{row_data};
ghost use Rattle.xs_parser.specs.Lexing.{axis_named, is_ncname, is_pi, kind_named};
ghost use Rattle.xs_parser.specs.Lexing.{operator_named, qname, qualified, unprefixed, with_local};
ghost use Rattle.xs_parser.specs.Axes.{axes};

use crate::bytes::{Class, local_at, split_run};
use crate::token::QName;
use std::alloc::{AllocError, Global};
use xs_text::TextBuf;
use xs_tree::Axis;
use xs_xpath::name::NodeTest;
use xs_xpath::token::Operator;

/// Whether a text is an NCName.
#[tactic(auto, using(crate::proofs::RunLemmas::alike), unfolding(crate::specs::Lexing::is_ncname))]
fn is_ncname(text: &str) -> bool
    ensures name { result ≡ is_ncname text.now }
{
    xs_text::is_ncname(text)
}

/// A name by its parts.
fn qname(alloc: Global, prefix: &str, local: &str) -> Result<QName, AllocError>
    ensures name { IfOk result (λ q. q ≡ qname prefix.now local.now) }
{
    Ok(QName {
        prefix: TextBuf::of(alloc, prefix)?,
        local: TextBuf::of(alloc, local)?,
    })
}

/// A name, where a local part is after a colon after it, and what is after both.
fn with_local<'a>(
    alloc: Global,
    name: &str,
    rest: &'a str,
    more: Option<&'a str>,
) -> Result<Option<(QName, &'a str)>, AllocError>
    ensures name { IfOk result (λ r. option_map (λ q. (q.0, q.1.now)) r
        ≡ with_local name.now rest.now (option_map (λ m. m.now) more.entry)) }
{
    match more {
        None => Ok(Some((qname(alloc, "", name)?, rest))),
        Some(more) => {
            let (local, behind) = split_run(more, Class::NameByte);
            if !is_ncname(local) {
                return Ok(None);
            }
            Ok(Some((qname(alloc, name, local)?, behind)))
        }
    }
}

/// A qualified name at the front, and what is after it.
pub fn qualified(alloc: Global, text: &str) -> Result<Option<(QName, &str)>, AllocError>
    ensures name { IfOk result (λ r. option_map (λ q. (q.0, q.1.now)) r ≡ qualified text.now) }
{
    let (name, behind) = split_run(text, Class::NameByte);
    if !is_ncname(name) {
        return Ok(None);
    }
    with_local(alloc, name, behind, local_at(behind))
}

/// Whether a name has no prefix.
#[tactic(auto, using(xs_xpath::proofs::RunLemmas::nil_by_length))]
pub fn is_unprefixed(name: &QName) -> bool
    ensures none { result ≡ is_nil name.now.prefix }
{
    name.prefix.as_str().is_empty()
}

/// The operator that a name is.
fn operator_of(name: &[u8]) -> Option<Operator>
    ensures operator { result ≡ operator_named name.now }
{
    if name == b"or".as_slice() {
        return Some(Operator::Or);
    }
    if name == b"and".as_slice() {
        return Some(Operator::And);
    }
    if name == b"mod".as_slice() {
        return Some(Operator::Mod);
    }
    if name == b"div".as_slice() {
        return Some(Operator::Div);
    }
    None
}

/// The node type that a name is.
fn kind_of(name: &[u8]) -> Option<NodeTest>
    ensures kind { result ≡ kind_named name.now }
{
    if name == b"node".as_slice() {
        return Some(NodeTest::Node);
    }
    if name == b"text".as_slice() {
        return Some(NodeTest::Text);
    }
    if name == b"comment".as_slice() {
        return Some(NodeTest::Comment);
    }
    if name == b"processing-instruction".as_slice() {
        return Some(NodeTest::Pi);
    }
    None
}

/// The axes by their names (XPath 1.0, 2.2).
static AXES: [(&str, Axis); 13] = [
    ("child", Axis::Child),
    ("descendant", Axis::Descendant),
    ("parent", Axis::Parent),
    ("ancestor", Axis::Ancestor),
    ("following-sibling", Axis::FollowingSibling),
    ("preceding-sibling", Axis::PrecedingSibling),
    ("following", Axis::Following),
    ("preceding", Axis::Preceding),
    ("attribute", Axis::Attribute),
    ("namespace", Axis::Namespace),
    ("self", Axis::SelfNode),
    ("descendant-or-self", Axis::DescendantOrSelf),
    ("ancestor-or-self", Axis::AncestorOrSelf),
];

/// The axes by their names.
#[tactic(auto, unfolding(crate::specs::Axes::axes))]
pub fn axes() -> &'static [(&'static str, Axis)]
    ensures { map row_data result.now ≡ axes }
{
    &AXES
}

/// The axis that a name is.
fn axis_of(name: &[u8]) -> Option<Axis>
    ensures axis { result ≡ axis_named name.now }
{
    for (spelling, axis) in axes() {
        if name == spelling.as_bytes() {
            return Some(*axis);
        }
    }
    None
}

/// The operator that a qualified name is.
pub fn operator_named(name: &QName) -> Option<Operator>
    ensures operator { result ≡ unprefixed operator_named name.now }
{
    if is_unprefixed(name) {
        operator_of(name.local.as_str().as_bytes())
    } else {
        None
    }
}

/// The node type that a qualified name is.
pub fn kind_named(name: &QName) -> Option<NodeTest>
    ensures kind { result ≡ unprefixed kind_named name.now }
{
    if is_unprefixed(name) {
        kind_of(name.local.as_str().as_bytes())
    } else {
        None
    }
}

/// The axis that a qualified name is.
pub fn axis_named(name: &QName) -> Option<Axis>
    ensures axis { result ≡ unprefixed axis_named name.now }
{
    if is_unprefixed(name) {
        axis_of(name.local.as_str().as_bytes())
    } else {
        None
    }
}

/// Whether a node type takes a target.
pub fn is_pi(test: &NodeTest) -> bool
    ensures pi { result ≡ is_pi test.now }
{
    match test {
        NodeTest::Pi => true,
        NodeTest::Any => false,
        NodeTest::Uri(_) => false,
        NodeTest::Name(_, _) => false,
        NodeTest::Node => false,
        NodeTest::Text => false,
        NodeTest::Comment => false,
        NodeTest::Target(_) => false,
    }
}
