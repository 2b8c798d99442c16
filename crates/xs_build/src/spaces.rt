//! The namespace nodes of an element (XPath 1.0, 5.4).

ghost use Rattle.std.specs.Prelude.{◌≡◌, ◌+◌, ◌<◌, ◌≤◌, ◌++◌, ◌∷◌, [], Some, length, OnOk, true};
ghost use Rattle.xs_tree.specs.Record.{at};
ghost use Rattle.xs_tree.specs.Shape.{IsOpen, KeepsOrder};
ghost use Rattle.xs_tree.specs.Limits.{most_nodes};
ghost use Rattle.xs_build.specs.Nodes.{local_name, space, spaces};
ghost use Rattle.xs_build.specs.steps.Invariant.{StandFrom};

use crate::scope::Scope;
use std::alloc::{AllocError, Global};
use xs_text::is_same;
use xs_tree::{Kind, Name, NameText, Node, Tree, TreeFault};

/// Adds the namespace node of one binding to an element in which nothing but others stands.
fn put_space(
    tree: &mut Tree,
    alloc: Global,
    element: Node,
    prefix: &NameText,
    uri: &NameText,
) -> Result<(), AllocError>
    requires within { element < length tree.old }
    requires element { (at tree.old element).kind ≡ Kind.Element }
    requires open { IsOpen tree.old element }
    requires order { KeepsOrder tree.old element Kind.Space }
    requires room { length tree.old < most_nodes }
    ensures { OnOk result (tree.new ≡ tree.old ++ space element (prefix.now, uri.now) ∷ []) }
{
    let name = Name {
        uri: NameText::of(alloc, "")?,
        local: prefix.copy()?,
        prefix: NameText::of(alloc, "")?,
    };
    match tree.add(Kind::Space, Some(name), uri.as_str(), element) {
        Ok(_) => Ok(()),
        Err(TreeFault::NoMemory) => Err(AllocError),
        Err(TreeFault::TooLarge) => unreachable!(),
    }
}

/// Whether a name is this local part alone.
#[tactic(auto, using(crate::proofs::NamespaceNodeLemmas::local_alone))]
fn is_local_name(name: &Name, local: &NameText) -> bool
    ensures { result ≡ true → name.now ≡ local_name local.now }
{
    if !name.is_local() {
        return false;
    }
    is_same(name.local.as_str(), local.as_str())
}

/// Whether a node is the namespace node of a binding.
fn is_space_of(tree: &Tree, node: Node, prefix: &NameText, uri: &NameText) -> bool
    requires { node < length tree.now }
    ensures kind { result ≡ true → (at tree.now node).kind ≡ Kind.Space }
    ensures name { result ≡ true → (at tree.now node).name ≡ Some (local_name prefix.now) }
    ensures text { result ≡ true → (at tree.now node).text ≡ uri.now }
{
    if tree.kind(node) != Kind::Space {
        return false;
    }
    if !is_same(tree.text(node), uri.as_str()) {
        return false;
    }
    match tree.name(node) {
        Some(name) => is_local_name(name, prefix),
        None => false,
    }
}

/// Whether a place has the namespace node of a binding.
fn is_space_at(tree: &Tree, node: Node, prefix: &NameText, uri: &NameText) -> bool
    ensures found { result ≡ true → node < length tree.now }
    ensures kind { result ≡ true → (at tree.now node).kind ≡ Kind.Space }
    ensures name { result ≡ true → (at tree.now node).name ≡ Some (local_name prefix.now) }
    ensures text { result ≡ true → (at tree.now node).text ≡ uri.now }
{
    if node.place() as usize >= tree.len() {
        return false;
    }
    is_space_of(tree, node, prefix, uri)
}

/// The place after a node.
fn place_after(node: Node) -> Node {
    Node::at(node.place().saturating_add(1))
}

/// Adds the namespace node of one binding: a copy of the node at `like`, where that has the same
/// binding. Returns where the node to copy next may be.
fn put_binding(
    tree: &mut Tree,
    alloc: Global,
    element: Node,
    like: Node,
    prefix: &NameText,
    uri: &NameText,
) -> Result<Node, AllocError>
    requires within { element < length tree.old }
    requires element { (at tree.old element).kind ≡ Kind.Element }
    requires open { IsOpen tree.old element }
    requires order { KeepsOrder tree.old element Kind.Space }
    requires room { length tree.old < most_nodes }
    ensures { OnOk result (tree.new ≡ tree.old ++ space element (prefix.now, uri.now) ∷ []) }
{
    if !is_space_at(tree, like, prefix, uri) {
        put_space(tree, alloc, element, prefix, uri)?;
        return Ok(like);
    }
    copy_space(tree, like, element)?;
    Ok(place_after(like))
}

/// Adds the namespace nodes of an element that was just added, one for each binding in force (XPath
/// 1.0, 5.4).
///
/// The parent's come right after it, and one that is a copy of theirs takes memory for the node
/// alone.
#[inline(never)]
pub fn put_spaces(
    tree: &mut Tree,
    alloc: Global,
    element: Node,
    scope: &Scope,
    parent: Node,
) -> Result<(), AllocError>
    requires last { element + 1 ≡ length tree.old }
    requires element { (at tree.old element).kind ≡ Kind.Element }
    requires room { length tree.old + length scope.now ≤ most_nodes }
    ensures { OnOk result (tree.new ≡ tree.old ++ spaces element scope.now) }
{
    let mut like = place_after(parent);
    for (prefix, uri) in scope.bindings() {
        let after = put_binding(tree, alloc, element, like, prefix, uri)?;
        like = after;
    }
    Ok(())
}

/// Adds a namespace node like another to an element in which nothing but others stands.
fn copy_space(tree: &mut Tree, like: Node, element: Node) -> Result<(), AllocError>
    requires found { like < length tree.old }
    requires space { (at tree.old like).kind ≡ Kind.Space }
    requires within { element < length tree.old }
    requires element { (at tree.old element).kind ≡ Kind.Element }
    requires open { IsOpen tree.old element }
    requires order { KeepsOrder tree.old element Kind.Space }
    requires room { length tree.old < most_nodes }
    ensures { OnOk result (tree.new ≡ tree.old
        ++ record {
          kind = Kind.Space;
          name = (at tree.old like).name;
          text =
              (at tree.old like).text;
          parent = Some element;
        } ∷ []) }
{
    match tree.add_same(like, element) {
        Ok(_) => Ok(()),
        Err(TreeFault::NoMemory) => Err(AllocError),
        Err(TreeFault::TooLarge) => unreachable!(),
    }
}

/// Adds the namespace nodes of an element that was just added, in which the bindings of its parent
/// are in force.
///
/// Those of the parent stand right behind it, and each new one takes memory for the node alone.
#[inline(always)]
pub fn copy_spaces(
    tree: &mut Tree,
    element: Node,
    scope: &Scope,
    parent: Node,
) -> Result<(), AllocError>
    requires last { element + 1 ≡ length tree.old }
    requires element { (at tree.old element).kind ≡ Kind.Element }
    requires room { length tree.old + length scope.now ≤ most_nodes }
    requires alike { StandFrom tree.old (parent + 1) (spaces parent scope.now) }
    ensures { OnOk result (tree.new ≡ tree.old ++ spaces element scope.now) }
{
    let first = parent.place() + 1;
    for like in first..first + scope.len() as u32 {
        copy_space(tree, Node::at(like), element)?;
    }
    Ok(())
}
