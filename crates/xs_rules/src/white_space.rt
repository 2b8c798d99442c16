//! Which white space of a source is stripped (XSLT 1.0, 3.4).

ghost use Rattle.std.specs.Prelude.{◌≡◌, ◌<◌, IfOk, IfSome, OnErr, OnOk, length, map};
ghost use Rattle.std.specs.Prelude.{false, get_or};
ghost use Rattle.std.specs.List.{find, range_with_len};
ghost use Rattle.xs_tree.specs.Kinds.{is_element_kind, is_text_kind};
ghost use Rattle.xs_tree.specs.Record.{at, attributes};
ghost use Rattle.xs_tree.specs.Shape.{IsTree};
ghost use Rattle.xs_tree.specs.Stripping.{without};
ghost use Rattle.xs_rules.specs.WhiteSpace.{is_named, is_space, is_stripped, is_stripped_in};
ghost use Rattle.xs_rules.specs.WhiteSpace.{preserves, said_by, stripped, strips};
ghost use Rattle.xs_rules.specs.steps.Strips.{IsStripIndex};

use crate::strip_index::StripIndex;
use std::alloc::{AllocError, Global};
use xs_elements::kept::space_value;
use xs_sheet::declarations::StripRule;
use xs_text::{XML_URI, is_blank};
use xs_tree::{Kind, Node, Tree};

/// Strips white space of a source, in time linear in it and in the rules. After a refusal it is as
/// it was.
pub fn strip_space(alloc: Global, tree: &mut Tree, rules: &[StripRule]) -> Result<(), AllocError>
    ensures stripped { OnOk result (tree.new ≡ without (stripped rules.now tree.old) tree.old) }
    ensures refused { OnErr result (tree.new ≡ tree.old) }
{
    let flags = stripped_flags(alloc, tree, rules)?;
    tree.strip(&flags)
}

/// Which nodes of a source are stripped, one after another, with which `Tree::strip` strips them
/// and `Tree::strip_numbers` what is kept beside them.
pub fn stripped_flags(
    alloc: Global,
    tree: &Tree,
    rules: &[StripRule],
) -> Result<Vec<bool>, AllocError>
    ensures flags { IfOk result (λ flags. flags.items ≡ stripped rules.now tree.now) }
{
    let index = StripIndex::of(alloc, rules)?;
    let mut flags = Vec::new(alloc);
    let mut kept = Vec::new(alloc);
    for place in 0..tree.len() as u32 {
        let node = Node::at(place);
        flags.push(is_stripped(tree, node, &index, &kept))?;
        kept.push(preserves(tree, node, &kept))?;
    }
    Ok(flags)
}

// Whether a node is stripped, where it is known of the nodes before it in which of them white
// space is preserved.
fn is_stripped(tree: &Tree, node: Node, index: &StripIndex<'_>, kept: &[bool]) -> bool
    requires index { IsStripIndex index.now }
    requires node { node < length tree.now }
    requires kept { kept.now ≡ map (preserves tree.now) (range_with_len 0 node) }
    ensures { result ≡ is_stripped index.now.rules.now tree.now node }
{
    if !is_text(tree, node) {
        return false;
    }
    if !is_blank(tree.text(node).as_bytes()) {
        return false;
    }
    match tree.parent(node) {
        Some(parent) => is_stripped_in(tree, parent, index, kept),
        None => false,
    }
}

// Whether white space is stripped in a node, where it is known in which nodes it is preserved.
fn is_stripped_in(tree: &Tree, parent: Node, index: &StripIndex<'_>, kept: &[bool]) -> bool
    requires index { IsStripIndex index.now }
    requires parent { parent < length tree.now }
    requires within { parent < length kept.now }
    requires kept { get_or kept.now parent false ≡ preserves tree.now parent }
    ensures { result ≡ is_stripped_in index.now.rules.now tree.now parent }
{
    if kept[parent.place() as usize] {
        return false;
    }
    strips(tree, parent, index)
}

// Whether white space is preserved in a node, where it is known of the nodes before it.
fn preserves(tree: &Tree, node: Node, kept: &[bool]) -> bool
    requires tree { IsTree tree.now }
    requires node { node < length tree.now }
    requires kept { kept.now ≡ map (preserves tree.now) (range_with_len 0 node) }
    ensures { result ≡ preserves tree.now node }
{
    match said_by(tree, node) {
        Some(is_preserved) => is_preserved,
        None => match tree.parent(node) {
            Some(parent) => kept[parent.place() as usize],
            None => false,
        },
    }
}

// What a node says by `xml:space`. An element alone says something, and a node that is none has
// no attributes to look through.
fn said_by(tree: &Tree, node: Node) -> Option<bool>
    requires { node < length tree.now }
    ensures { result ≡ said_by tree.now node }
{
    let _count = tree.len();
    match tree.kind(node) {
        Kind::Element => said_by_attribute(tree, node),
        _ => None,
    }
}

// What an element says by `xml:space`, if it has that attribute.
fn said_by_attribute(tree: &Tree, element: Node) -> Option<bool>
    requires { element < length tree.now }
    ensures { result ≡ said_by tree.now element }
{
    let attribute = space_of(tree, element)?;
    space_value(tree.text(attribute))
}

// The attribute `xml:space` of a node.
fn space_of(tree: &Tree, node: Node) -> Option<Node>
    requires { node < length tree.now }
    ensures found { result ≡ find (is_space tree.now) (attributes tree.now node) }
    ensures inside { IfSome result (λ a. a < length tree.now) }
{
    for attribute in tree.attributes(node) {
        if is_named(tree, attribute, XML_URI, "space") {
            return Some(attribute);
        }
    }
    None
}

// Whether a node has a name.
fn is_named(tree: &Tree, node: Node, uri: &str, local: &str) -> bool
    requires { node < length tree.now }
    ensures { result ≡ is_named uri.now local.now (at tree.now node) }
{
    tree.uri(node) == uri && tree.local(node) == local
}

// Whether white space is stripped in a node by the tests that are true of it.
#[tactic(auto, unfolding(crate::specs::WhiteSpace::strips))]
fn strips(tree: &Tree, node: Node, index: &StripIndex<'_>) -> bool
    requires index { IsStripIndex index.now }
    requires node { node < length tree.now }
    ensures { result ≡ strips index.now.rules.now (at tree.now node) }
{
    if !is_element(tree, node) {
        return false;
    }
    match index.highest(tree, node) {
        Some(rule) => rule.strip,
        None => false,
    }
}

// Whether a node is an element.
fn is_element(tree: &Tree, node: Node) -> bool
    requires { node < length tree.now }
    ensures { result ≡ is_element_kind (at tree.now node).kind }
{
    tree.kind(node) == Kind::Element
}

// Whether a node is a text.
fn is_text(tree: &Tree, node: Node) -> bool
    requires { node < length tree.now }
    ensures { result ≡ is_text_kind (at tree.now node).kind }
{
    tree.kind(node) == Kind::Text
}
