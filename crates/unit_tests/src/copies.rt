//! Copies of nodes, appended to a list of events.

use std::alloc::{AllocError, Global};
use xs_build::build_tree;
use xs_making::{RecentLabels, copy_events};
use xs_tree::{Node, Tree};

/// How many events a copy of a node appends to a list that has those of another copy.
fn appended(alloc: Global, tree: &Tree, node: Node, deep: bool) -> Result<usize, AllocError> {
    if node.place() as usize >= tree.len() {
        return Err(AllocError);
    }
    let mut labels = RecentLabels::new(alloc);
    let mut events = Vec::new(alloc);
    copy_events(tree, node, deep, &mut labels, &mut events)?;
    let first = events.len();
    copy_events(tree, node, deep, &mut labels, &mut events)?;
    Ok(events.len().wrapping_sub(first))
}

#[test]
fn copies_are_appended(rt: HostRuntime) -> Result<(), AllocError> {
    let alloc = rt.alloc();
    let Ok(built) = build_tree(alloc, b"(a\nAb c\n-d\n(e\n)e\n)a\n", 1000) else {
        return Err(AllocError);
    };
    assert_eq!(rt; appended(alloc, &built.tree, Node::root(), true)?, 6);
    assert_eq!(rt; appended(alloc, &built.tree, Node::root(), false)?, 0);
    Ok(())
}
