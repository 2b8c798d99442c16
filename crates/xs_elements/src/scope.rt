//! The namespaces that are in scope at an element, and the names that rest on them.

ghost use Rattle.std.specs.Prelude.{◌≡◌, ◌<◌, length, option_map, IfOk, IfSome};
ghost use Rattle.xs_elements.specs.Nodes.{attribute_of, bears, expanded, has, own_name};
ghost use Rattle.xs_elements.specs.Nodes.{name_data, pair_at, scope_at, value_of};
ghost use Rattle.xs_xpath.specs.Names.{uri_in};

use std::alloc::{AllocError, Global};
use xs_text::{TextBuf, split_qname};
use xs_tree::{Node, Tree};
use xs_xpath::scope::Scope;

/// An expanded name: the URI, empty for none, and the local part.
pub type Expanded<'a> = (&'a str, &'a str);

/// The prefixes that are bound at an element, with their URIs.
pub fn scope_at(alloc: Global, tree: &Tree, n: Node) -> Result<Scope, AllocError>
    requires { n < length tree.now }
    ensures { IfOk result (λ scope. scope.pairs.items ≡ scope_at tree.now n) }
{
    let mut pairs = Vec::new(alloc);
    for space in tree.namespaces(n) {
        pairs.push(pair_at(alloc, tree, space)?)?;
    }
    Ok(Scope::of(pairs))
}

/// The prefix and the URI of a namespace node.
fn pair_at(alloc: Global, tree: &Tree, space: Node) -> Result<(TextBuf, TextBuf), AllocError>
    requires { space < length tree.now }
    ensures { IfOk result (λ pair. pair ≡ pair_at tree.now space) }
{
    let prefix = TextBuf::of(alloc, tree.local(space))?;
    let uri = TextBuf::of(alloc, tree.text(space))?;
    Ok((prefix, uri))
}

/// The URI that a prefix is bound to at an element.
pub fn uri_of<'a>(tree: &'a Tree, n: Node, prefix: &str) -> Option<&'a str>
    requires { n < length tree.now }
    ensures { option_map (λ uri. uri.now) result ≡ uri_in (scope_at tree.now n) prefix.now }
{
    for space in tree.namespaces(n) {
        if tree.local(space) == prefix {
            return Some(tree.text(space));
        }
    }
    None
}

/// The expanded name that a name represents at an element: without a prefix it is in no namespace
/// (XSLT 1.0, 2.4). None where the text is no name, or its prefix is not bound.
pub fn expand_name<'a>(tree: &'a Tree, n: Node, name: &'a str) -> Option<Expanded<'a>>
    requires { n < length tree.now }
    ensures { option_map name_data result ≡ expanded (scope_at tree.now n) name.now }
{
    let (prefix, local) = split_qname(name)?;
    if prefix.is_empty() {
        return Some(("", local));
    }
    let uri = uri_of(tree, n, prefix)?;
    Some((uri, local))
}

/// Whether an attribute has this name.
fn bears(tree: &Tree, attribute: Node, uri: &str, local: &str) -> bool
    requires { attribute < length tree.now }
    ensures { result ≡ bears tree.now uri.now local.now attribute }
{
    tree.uri(attribute) == uri && tree.local(attribute) == local
}

/// An attribute of an element, by the URI and the local part of its name.
fn attribute_of(tree: &Tree, n: Node, uri: &str, local: &str) -> Option<Node>
    requires { n < length tree.now }
    ensures found { result ≡ attribute_of tree.now n uri.now local.now }
    ensures inside { IfSome result (λ a. a < length tree.now) }
{
    for attribute in tree.attributes(n) {
        if bears(tree, attribute, uri, local) {
            return Some(attribute);
        }
    }
    None
}

/// The value of an attribute of an element, by the URI and the local part of its name.
pub fn value_of<'a>(tree: &'a Tree, n: Node, uri: &str, local: &str) -> Option<&'a str>
    requires { n < length tree.now }
    ensures { option_map (λ value. value.now) result ≡ value_of tree.now n uri.now local.now }
{
    match attribute_of(tree, n, uri, local) {
        Some(attribute) => Some(tree.text(attribute)),
        None => None,
    }
}

/// Whether an element has an attribute in no namespace with this local part.
pub fn has(tree: &Tree, n: Node, local: &str) -> bool
    requires { n < length tree.now }
    ensures { result ≡ has tree.now n local.now }
{
    attribute_of(tree, n, "", local).is_some()
}

/// The expanded name that the attribute `name` of an element represents.
pub fn own_name(tree: &Tree, n: Node) -> Option<Expanded<'_>>
    requires { n < length tree.now }
    ensures { option_map name_data result ≡ own_name tree.now n }
{
    let name = value_of(tree, n, "", "name")?;
    expand_name(tree, n, name)
}
