//! The nodes of an axis that pass a node test (XPath 1.0, 2.3).

ghost use Rattle.std.specs.Prelude.{◌≡◌, ◌<◌, ◌∷◌, [], ◌++◌, IfOk, OnOk, length, if◌then◌else◌};
ghost use Rattle.xs_tree.specs.Kinds.{is_root_kind};
ghost use Rattle.xs_tree.specs.Record.{at};
ghost use Rattle.xs_eval_spec.specs.Paths.{tested};
ghost use Rattle.xs_eval_spec.specs.Nodes.{AreSome};

use std::alloc::{AllocError, Global};
use xs_axes::axis_nodes;
use xs_eval::node_tests::passes;
use xs_eval_spec::context::Context;
use xs_tree::{Axis, Kind, Node, Tree};
use xs_xpath::name::NodeTest;

/// The nodes of an axis from the context node that pass a test, in the order of the axis.
pub(crate) fn tested(
    alloc: Global,
    axis: Axis,
    test: &NodeTest,
    context: &Context<'_>,
) -> Result<Vec<Node>, AllocError>
    requires { context.now.node < length context.now.tree }
    ensures nodes { IfOk result (λ ns. ns.items ≡ tested axis test.now context.now) }
    ensures some { IfOk result (λ ns. AreSome context.now.tree ns.items) }
{
    let mut found = Vec::new(alloc);
    for node in axis_nodes(context.tree, context.node, axis) {
        push_if(passes(context.tree, axis, test, node), node, &mut found)?;
    }
    Ok(found)
}

// Adds a node where it passes.
fn push_if(is_passing: bool, node: Node, found: &mut Vec<Node>) -> Result<(), AllocError>
    ensures found { OnOk result (found.new.items
        ≡ (if is_passing then found.old.items ++ node ∷ [] else found.old.items)) }
{
    if is_passing {
        found.push(node)?;
    }
    Ok(())
}

/// Whether a node is the root of a document.
pub(crate) fn is_root(tree: &Tree, node: Node) -> bool
    requires { node < length tree.now }
    ensures { result ≡ is_root_kind (at tree.now node).kind }
{
    tree.kind(node) == Kind::Root
}
