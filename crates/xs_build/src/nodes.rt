//! Nodes that are added to a tree, inside the innermost open element.
//!
//! There is room for each of them, as nodes are counted before they are added.

ghost use Rattle.std.specs.Prelude.{◌≡◌, ◌+◌, ◌<◌, ◌≤◌, IsTrue, true, Some, [], ◌∷◌, ◌++◌, length};
ghost use Rattle.std.specs.Prelude.{false, None, reverse, IfOk, OnOk};
ghost use Rattle.xs_tree.specs.Kinds.{bears_name, can_hold, has_local_name};
ghost use Rattle.xs_tree.specs.Record.{at};
ghost use Rattle.xs_tree.specs.Shape.{CanBear, IsLocalName, IsOpen, KeepsOrder};
ghost use Rattle.xs_build.specs.steps.Lines.{innermost};
ghost use Rattle.xs_build.specs.Nodes.{element, attribute, spaces, comment, instruction};
ghost use Rattle.xs_build.specs.Nodes.{local_name};
ghost use Rattle.xs_tree.specs.Limits.{most_nodes};
ghost use Rattle.xs_build.specs.steps.Invariant.{IsWell, HasBindings};
ghost use Rattle.xs_build.specs.steps.Names.{IsNamed, full_name};
ghost use Rattle.xs_build.specs.steps.State.{with_text_node};

use crate::known::NodeName;
use crate::opened::{Opened, innermost};
use crate::scope::Scope;
use crate::spaces::{copy_spaces, put_spaces};
use std::alloc::{AllocError, Global};
use xs_tree::{Kind, Name, NameText, Node, Tree, TreeFault};

/// Adds a node for which there is room, with a new name.
#[inline(always)]
fn put_new(
    tree: &mut Tree,
    kind: Kind,
    name: Name,
    text: &str,
    parent: Node,
) -> Result<Node, AllocError>
    requires within { parent < length tree.old }
    requires held { IsTrue (can_hold (at tree.old parent).kind kind) }
    requires named { bears_name kind ≡ true }
    requires spelled { has_local_name kind ≡ true → IsLocalName name }
    requires plain { kind ≡ Kind.Element → text.now ≡ [] }
    requires open { IsOpen tree.old parent }
    requires order { KeepsOrder tree.old parent kind }
    requires room { length tree.old < most_nodes }
    ensures put { OnOk result (tree.new ≡ tree.old
        ++ record { kind = kind; name = Some name; text = text.now; parent = Some parent } ∷ []) }
    ensures node { IfOk result (λ node. node ≡ length tree.old) }
{
    match tree.add(kind, Some(name), text, parent) {
        Ok(node) => Ok(node),
        Err(TreeFault::NoMemory) => Err(AllocError),
        Err(TreeFault::TooLarge) => unreachable!(),
    }
}

/// Adds an element or an attribute for which there is room, of the name that is meant.
#[inline(always)]
fn put_named(
    tree: &mut Tree,
    kind: Kind,
    name: NodeName,
    text: &str,
    parent: Node,
) -> Result<Node, AllocError>
    requires within { parent < length tree.old }
    requires held { IsTrue (can_hold (at tree.old parent).kind kind) }
    requires named { IsNamed tree.old name }
    requires bears { bears_name kind ≡ true }
    requires spelled { has_local_name kind ≡ false }
    requires plain { kind ≡ Kind.Element → text.now ≡ [] }
    requires open { IsOpen tree.old parent }
    requires order { KeepsOrder tree.old parent kind }
    requires room { length tree.old < most_nodes }
    ensures put { OnOk result (tree.new ≡ tree.old ++ record {
      kind = kind;
      name = Some (full_name tree.old name);
      text = text.now;
      parent = Some parent;
    } ∷ []) }
    ensures node { IfOk result (λ node. node ≡ length tree.old) }
{
    match name {
        NodeName::Known(like) => put_like(tree, kind, like, text, parent),
        NodeName::New(name) => put_new(tree, kind, name, text, parent),
    }
}

/// Adds a node for which there is room, with the name of another one.
#[inline(always)]
fn put_like(
    tree: &mut Tree,
    kind: Kind,
    like: Node,
    text: &str,
    parent: Node,
) -> Result<Node, AllocError>
    requires found { like < length tree.old }
    requires within { parent < length tree.old }
    requires held { IsTrue (can_hold (at tree.old parent).kind kind) }
    requires borne { CanBear kind (at tree.old like).name text.now }
    requires open { IsOpen tree.old parent }
    requires order { KeepsOrder tree.old parent kind }
    requires room { length tree.old < most_nodes }
    ensures put { OnOk result (tree.new ≡ tree.old ++ record {
      kind = kind;
      name = (at tree.old like).name;
      text = text.now;
      parent = Some parent;
    } ∷ []) }
    ensures node { IfOk result (λ node. node ≡ length tree.old) }
{
    match tree.add_like(kind, like, text, parent) {
        Ok(node) => Ok(node),
        Err(TreeFault::NoMemory) => Err(AllocError),
        Err(TreeFault::TooLarge) => unreachable!(),
    }
}

/// Adds a node without a name for which there is room, like the first root, which has none.
#[inline(always)]
fn put_unnamed(tree: &mut Tree, kind: Kind, text: &str, parent: Node) -> Result<(), AllocError>
    requires within { parent < length tree.old }
    requires held { IsTrue (can_hold (at tree.old parent).kind kind) }
    requires unnamed { bears_name kind ≡ false }
    requires open { IsOpen tree.old parent }
    requires order { KeepsOrder tree.old parent kind }
    requires room { length tree.old < most_nodes }
    ensures put { OnOk result (tree.new ≡ tree.old
        ++ record { kind = kind; name = None; text = text.now; parent = Some parent } ∷ []) }
{
    // That the records are a tree, so that the first is a root.
    let _count = tree.len();
    put_like(tree, kind, Node::root(), text, parent)?;
    Ok(())
}

/// Adds the text, unless it is empty.
#[inline(always)]
pub fn put_text(tree: &mut Tree, around: &[Opened<'_>], text: &str) -> Result<(), AllocError>
    requires well { IsWell tree.old (reverse around.now) }
    requires room { length (with_text_node tree.old
        (innermost (reverse around.now)) text.now) ≤ most_nodes }
    ensures put { OnOk result (tree.new ≡ with_text_node tree.old
        (innermost (reverse around.now)) text.now) }
    ensures well { OnOk result (IsWell tree.new (reverse around.now)) }
{
    if text.is_empty() {
        return Ok(());
    }
    put_unnamed(tree, Kind::Text, text, innermost(around))?;
    Ok(())
}

/// Adds an element and its namespace nodes, which are copies of its parent's where `is_same`: the
/// bindings are the same.
#[inline(always)]
pub fn put_element(
    tree: &mut Tree,
    alloc: Global,
    around: &[Opened<'_>],
    name: NodeName,
    scope: &Scope,
    is_same: bool,
) -> Result<Node, AllocError>
    requires named { IsNamed tree.old name }
    requires well { IsWell tree.old (reverse around.now) }
    requires same { is_same ≡ true → HasBindings (reverse around.now) scope.now }
    requires room { length tree.old + 1 + length scope.now ≤ most_nodes }
    ensures put { OnOk result (tree.new ≡ tree.old
        ++ element (full_name tree.old name) (innermost (reverse around.now))
        ∷ spaces (length tree.old) scope.now) }
    ensures node { IfOk result (λ node. node ≡ length tree.old) }
{
    let parent = innermost(around);
    let node = put_named(tree, Kind::Element, name, "", parent)?;
    if is_same {
        copy_spaces(tree, node, scope, parent)?;
        return Ok(node);
    }
    put_spaces(tree, alloc, node, scope, parent)?;
    Ok(node)
}

/// Adds an attribute of a new name.
pub fn put_attribute(
    tree: &mut Tree,
    around: &[Opened<'_>],
    name: Name,
    value: &str,
) -> Result<Node, AllocError>
    requires well { IsWell tree.old (reverse around.now) }
    requires within { 0 < length around.now }
    requires order { KeepsOrder tree.old (innermost (reverse around.now)) Kind.Attribute }
    requires room { length tree.old < most_nodes }
    ensures put { OnOk result (tree.new ≡ tree.old ++ attribute name value.now
        (innermost (reverse around.now)) ∷ []) }
{
    put_new(tree, Kind::Attribute, name, value, innermost(around))
}

/// Adds an attribute with the name of another node.
pub fn put_attribute_like(
    tree: &mut Tree,
    around: &[Opened<'_>],
    like: Node,
    value: &str,
) -> Result<(), AllocError>
    requires well { IsWell tree.old (reverse around.now) }
    requires within { 0 < length around.now }
    requires named { IsNamed tree.old (NodeName.Known like) }
    requires order { KeepsOrder tree.old (innermost (reverse around.now)) Kind.Attribute }
    requires room { length tree.old < most_nodes }
    ensures put { OnOk result (tree.new ≡ tree.old
        ++ attribute (full_name tree.old (NodeName.Known like)) value.now
        (innermost (reverse around.now)) ∷ []) }
{
    put_like(tree, Kind::Attribute, like, value, innermost(around))?;
    Ok(())
}

/// Adds a comment.
pub fn put_comment(tree: &mut Tree, around: &[Opened<'_>], text: &str) -> Result<(), AllocError>
    requires well { IsWell tree.old (reverse around.now) }
    requires room { length tree.old < most_nodes }
    ensures put { OnOk result (tree.new ≡ tree.old ++ comment text.now
        (innermost (reverse around.now)) ∷ []) }
{
    put_unnamed(tree, Kind::Comment, text, innermost(around))
}

/// Adds a processing instruction.
pub fn put_instruction(
    tree: &mut Tree,
    alloc: Global,
    around: &[Opened<'_>],
    target: &str,
    text: &str,
) -> Result<(), AllocError>
    requires well { IsWell tree.old (reverse around.now) }
    requires room { length tree.old < most_nodes }
    ensures put { OnOk result (tree.new ≡ tree.old ++ instruction target.now text.now
        (innermost (reverse around.now)) ∷ []) }
{
    let name = local_name(alloc, target)?;
    put_new(tree, Kind::Pi, name, text, innermost(around))?;
    Ok(())
}

/// A name in no namespace.
fn local_name(alloc: Global, local: &str) -> Result<Name, AllocError>
    ensures { IfOk result (λ name. name ≡ local_name local.now) }
{
    Ok(Name {
        uri: NameText::of(alloc, "")?,
        local: NameText::of(alloc, local)?,
        prefix: NameText::of(alloc, "")?,
    })
}
