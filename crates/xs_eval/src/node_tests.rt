//! Node tests (XPath 1.0, 2.3), and the nodes of an axis that pass one.

ghost use Rattle.std.specs.Prelude.{◌≡◌, ◌<◌, ◌∷◌, [], ◌++◌, IfOk, OnOk, false, length};
ghost use Rattle.std.specs.Prelude.{if◌then◌else◌};
ghost use Rattle.std.specs.Str.{bytes_eq};
ghost use Rattle.xs_tree.specs.Record.{at};
ghost use Rattle.xs_tree.specs.declared.axes.Axis.TheVariants.{Attribute};
ghost use Rattle.xs_eval_spec.specs.Paths.{is_named, is_principal, passes, tested};
ghost use Rattle.xs_eval_spec.specs.Nodes.{AreSome};

use std::alloc::{AllocError, Global};
use xs_axes::axis_nodes;
use xs_eval_spec::context::Context;
use xs_tree::{Axis, Kind, Node, Tree};
use xs_value::node_list::NodeList;
use xs_xpath::name::NodeTest;

/// The nodes of an axis from the context node that pass a test, in the order of the axis.
pub(crate) fn tested(
    alloc: Global,
    axis: Axis,
    test: &NodeTest,
    context: &Context<'_>,
) -> Result<NodeList, AllocError>
    requires { context.now.node < length context.now.tree }
    ensures nodes { IfOk result (λ ns. ns ≡ tested axis test.now context.now) }
    ensures some { IfOk result (AreSome context.now.tree) }
{
    let mut found = NodeList::new(alloc);
    find(axis, test, context, &mut found)?;
    Ok(found)
}

/// Adds them to others.
pub(crate) fn find(
    axis: Axis,
    test: &NodeTest,
    context: &Context<'_>,
    found: &mut NodeList,
) -> Result<(), AllocError>
    requires { context.now.node < length context.now.tree }
    ensures nodes { OnOk result (found.new
        ≡ found.old ++ tested axis test.now context.now) }
{
    match axis {
        Axis::Attribute => find_attributes(test, context, found),
        _ => find_on_axis(axis, test, context, found),
    }
}

// Adds the attributes of the context node that pass a test, in document order.
#[tactic(auto, using(xs_eval_spec::proofs::AxisListLemmas::attributes_listed))]
fn find_attributes(
    test: &NodeTest,
    context: &Context<'_>,
    found: &mut NodeList,
) -> Result<(), AllocError>
    requires { context.now.node < length context.now.tree }
    ensures nodes { OnOk result (found.new
        ≡ found.old ++ tested Attribute test.now context.now) }
{
    for node in context.tree.attributes(context.node) {
        push_if(
            passes(context.tree, Axis::Attribute, test, node),
            node,
            found,
        )?;
    }
    Ok(())
}

// Adds the nodes of any axis from the context node that pass a test, in the order of the axis.
fn find_on_axis(
    axis: Axis,
    test: &NodeTest,
    context: &Context<'_>,
    found: &mut NodeList,
) -> Result<(), AllocError>
    requires { context.now.node < length context.now.tree }
    ensures nodes { OnOk result (found.new
        ≡ found.old ++ tested axis test.now context.now) }
{
    for node in axis_nodes(context.tree, context.node, axis) {
        push_if(passes(context.tree, axis, test, node), node, found)?;
    }
    Ok(())
}

// Adds a node where it passes.
fn push_if(is_passing: bool, node: Node, found: &mut NodeList) -> Result<(), AllocError>
    ensures found { OnOk result (found.new
        ≡ (if is_passing then found.old ++ node ∷ [] else found.old)) }
{
    if is_passing {
        found.push(node)?;
    }
    Ok(())
}

/// Whether a node passes a test on an axis.
pub fn passes(tree: &Tree, axis: Axis, test: &NodeTest, node: Node) -> bool
    requires { node < length tree.now }
    ensures { result ≡ passes axis test.now (at tree.now node) }
{
    match test {
        NodeTest::Any => is_principal(axis, tree.kind(node)),
        NodeTest::Uri(uri) => {
            is_principal(axis, tree.kind(node)) && tree.uri(node) == uri.as_str()
        }
        NodeTest::Name(uri, local) => {
            is_principal(axis, tree.kind(node))
                && is_named(tree, node, uri.as_str(), local.as_str())
        }
        NodeTest::Node => true,
        NodeTest::Text => tree.kind(node) == Kind::Text,
        NodeTest::Comment => tree.kind(node) == Kind::Comment,
        NodeTest::Pi => tree.kind(node) == Kind::Pi,
        NodeTest::Target(target) => {
            tree.kind(node) == Kind::Pi && tree.local(node) == target.as_str()
        }
    }
}

// Whether a node has a name. Most local parts differ in length, so that this is tried first.
fn is_named(tree: &Tree, node: Node, uri: &str, local: &str) -> bool
    requires { node < length tree.now }
    ensures { result ≡ is_named uri.now local.now (at tree.now node) }
{
    if !are_as_long(tree.local(node), local) {
        return false;
    }
    tree.uri(node) == uri && tree.local(node) == local
}

// Whether two texts have one length.
fn are_as_long(text: &str, other: &str) -> bool
    ensures { result ≡ false → bytes_eq text.now other.now ≡ false }
{
    text.len() == other.len()
}

// Whether a kind of node is the principal one of an axis.
fn is_principal(axis: Axis, kind: Kind) -> bool
    ensures { result ≡ is_principal axis kind }
{
    match axis {
        Axis::Attribute => kind == Kind::Attribute,
        Axis::Namespace => kind == Kind::Space,
        Axis::Child => kind == Kind::Element,
        Axis::Descendant => kind == Kind::Element,
        Axis::Parent => kind == Kind::Element,
        Axis::Ancestor => kind == Kind::Element,
        Axis::FollowingSibling => kind == Kind::Element,
        Axis::PrecedingSibling => kind == Kind::Element,
        Axis::Following => kind == Kind::Element,
        Axis::Preceding => kind == Kind::Element,
        Axis::SelfNode => kind == Kind::Element,
        Axis::DescendantOrSelf => kind == Kind::Element,
        Axis::AncestorOrSelf => kind == Kind::Element,
    }
}
