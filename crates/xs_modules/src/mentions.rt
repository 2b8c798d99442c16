//! The elements of a module that mention other modules (XSLT 1.0, 2.6).

ghost use Rattle.std.specs.Prelude.{◌≡◌, ◌<◌, [], ◌∷◌, ◌++◌, length, filter, IfOk, IfSome, OnOk};
ghost use Rattle.xs_modules.specs.Mentions.{elements, href, is_href, is_import, is_include};
ghost use Rattle.xs_modules.specs.Mentions.{is_mention, is_named, is_sheet, is_stylesheet};
ghost use Rattle.xs_modules.specs.Mentions.{is_top_level, names_module, reference};
ghost use Rattle.xs_tree.specs.Record.{at};
ghost use Rattle.std.specs.List.{All};

use std::alloc::{AllocError, Global};
use xs_tree::{Kind, Node, Tree};

// The namespace of XSLT's elements (XSLT 1.0, 2.1).
const XSLT_URI: &str = "http://www.w3.org/1999/XSL/Transform";

/// The mentions of a module, in the order of its lines: the top-level includes and imports with an
/// `href`.
pub(crate) fn mention_elements(alloc: Global, tree: &Tree) -> Result<Vec<Node>, AllocError>
    ensures elements { IfOk result (λ found. found.items ≡ elements tree.now) }
    ensures inside { IfOk result (λ found. All (λ n. n < length tree.now) found.items) }
{
    let mut found = Vec::new(alloc);
    for place in 0..tree.len() as u32 {
        keep_mention(tree, Node::at(place), &mut found)?;
    }
    Ok(found)
}

// Keeps a node that is a mention.
fn keep_mention(tree: &Tree, n: Node, found: &mut Vec<Node>) -> Result<(), AllocError>
    requires { n < length tree.now }
    ensures { OnOk result (found.new.items
        ≡ found.old.items ++ filter (is_mention tree.now) (n ∷ [])) }
{
    if is_mention(tree, n) {
        found.push(n)?;
    }
    Ok(())
}

/// Whether a node is an `xsl:import` (XSLT 1.0, 2.6.2).
pub(crate) fn is_import(tree: &Tree, n: Node) -> bool
    requires { n < length tree.now }
    ensures { result ≡ is_import tree.now n }
{
    is_named(tree, n, "import")
}

/// What an element's `href` says, nothing where it has none.
pub(crate) fn reference(tree: &Tree, n: Node) -> &str
    requires { n < length tree.now }
    ensures { result.now ≡ reference tree.now n }
{
    match href(tree, n) {
        Some(attribute) => tree.text(attribute),
        None => "",
    }
}

// Whether a node is a top-level import or include with an `href`.
fn is_mention(tree: &Tree, n: Node) -> bool
    requires { n < length tree.now }
    ensures { result ≡ is_mention tree.now n }
{
    names_module(tree, n) && is_top_level(tree, n)
}

// Whether a node is an import or an include with an `href`.
fn names_module(tree: &Tree, n: Node) -> bool
    requires { n < length tree.now }
    ensures { result ≡ names_module tree.now n }
{
    (is_import(tree, n) || is_include(tree, n)) && href(tree, n).is_some()
}

// Whether a node stands just below a stylesheet that is the element of its document.
fn is_top_level(tree: &Tree, n: Node) -> bool
    requires { n < length tree.now }
    ensures { result ≡ is_top_level tree.now n }
{
    match tree.parent(n) {
        Some(parent) => is_sheet(tree, parent),
        None => false,
    }
}

// Whether a node is the element of its document, and a stylesheet.
fn is_sheet(tree: &Tree, n: Node) -> bool
    requires { n < length tree.now }
    ensures { result ≡ is_sheet tree.now n }
{
    tree.parent(n) == Some(Node::root()) && is_stylesheet(tree, n)
}

// Whether a node is an `xsl:include` (XSLT 1.0, 2.6.1).
fn is_include(tree: &Tree, n: Node) -> bool
    requires { n < length tree.now }
    ensures { result ≡ is_include tree.now n }
{
    is_named(tree, n, "include")
}

// Whether a node is a stylesheet, under either of its names (XSLT 1.0, 2.2).
fn is_stylesheet(tree: &Tree, n: Node) -> bool
    requires { n < length tree.now }
    ensures { result ≡ is_stylesheet tree.now n }
{
    is_named(tree, n, "stylesheet") || is_named(tree, n, "transform")
}

// Whether a node is an element of XSLT with this local part.
fn is_named(tree: &Tree, n: Node, local: &str) -> bool
    requires { n < length tree.now }
    ensures { result ≡ is_named local.now tree.now n }
{
    matches!(tree.kind(n), Kind::Element) && tree.uri(n) == XSLT_URI && tree.local(n) == local
}

// The attribute `href` of a node.
fn href(tree: &Tree, n: Node) -> Option<Node>
    requires { n < length tree.now }
    ensures href { result ≡ href tree.now n }
    ensures inside { IfSome result (λ a. a < length tree.now) }
{
    for attribute in tree.attributes(n) {
        if is_href(tree, attribute) {
            return Some(attribute);
        }
    }
    None
}

// Whether an attribute is `href`, in no namespace.
fn is_href(tree: &Tree, attribute: Node) -> bool
    requires { attribute < length tree.now }
    ensures { result ≡ is_href tree.now attribute }
{
    tree.uri(attribute).is_empty() && tree.local(attribute) == "href"
}
