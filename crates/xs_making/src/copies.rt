//! Copies of the nodes of a tree: of a node alone, or with all that is in it.
ghost use Rattle.std.specs.Prelude.{◌≡◌, ◌<◌, ◌∷◌, ◌++◌, [], length};
ghost use Rattle.std.specs.List.{flat_map};
ghost use Rattle.std.specs.Prelude.{◌+◌, if◌then◌else◌, IsSome, OnErr, OnOk, Some};
ghost use Rattle.xs_trace.specs.declared.event.Event.TheVariants.{End};
ghost use Rattle.xs_tree.specs.Kinds.{is_element_kind};
ghost use Rattle.xs_tree.specs.Record.{at, attributes, namespaces};
ghost use Rattle.xs_tree.specs.Shape.{IsTree};
ghost use Rattle.xs_making.specs.Copies.{attribute_events, copy_of, deep_copy, shallow_copy};
ghost use Rattle.xs_making.specs.Copies.{space_events, start_events, tag_events};
ghost use Rattle.xs_making.specs.Putting.{Puts};
ghost use Rattle.xs_making.specs.steps.Walk.{inside, opening};

use crate::event_list::EventList;
use crate::leaves::{label_of, put_attribute, put_leaf, put_one, put_space};
use crate::recent::RecentLabels;
use std::alloc::AllocError;
use xs_trace::event::Event;
use xs_trace::item::Site;
use xs_trace::recorder::{Halt, Recorder};
use xs_tree::{Kind, Node, Tree};

/// Appends the events of a copy of a node (XSLT 1.0, 7.5 and 11.3).
///
/// A deep copy has all that is in the node. Any other is what `xsl:copy` puts of it before its own
/// content: of a root nothing, of an element its start and its namespace nodes, without the end.
/// Names that were put before are shared, by `labels`. After a refusal `out` is as it was.
pub fn copy_events(
    tree: &Tree,
    node: Node,
    deep: bool,
    labels: &mut RecentLabels,
    out: &mut Vec<Event>,
) -> Result<(), AllocError>
    requires { node < length tree.now }
    ensures copied { OnOk result
        (out.new.items ≡ out.old.items ++ copy_of deep tree.now node) }
    ensures refused { OnErr result (out.new.items ≡ out.old.items) }
{
    let mut list = EventList::new(*out.allocator());
    match put_copy(tree, node, deep, labels, &mut list) {
        Ok(()) => out.append(&mut list.events),
        Err(_) => Err(AllocError),
    }
}

/// Puts the events of a copy into a list.
fn put_copy(
    tree: &Tree,
    node: Node,
    deep: bool,
    labels: &mut RecentLabels,
    list: &mut EventList,
) -> Result<(), Halt>
    requires { node < length tree.now }
    ensures listed { OnOk result (list.new.events.items
        ≡ list.old.events.items ++ copy_of deep tree.now node) }
{
    let site = Site { module: 0, line: 0 };
    if deep {
        put_deep_copy(tree, node, site, labels, list)
    } else {
        put_shallow_copy(tree, node, site, labels, list)
    }
}

/// Puts what `xsl:copy` puts of a node before its own content (XSLT 1.0, 7.5): of a root nothing,
/// of an element its start and its namespace nodes, of any other node all.
///
/// Names that were put before are shared, by `labels`.
pub fn put_shallow_copy<R: Recorder>(
    tree: &Tree,
    node: Node,
    site: Site,
    labels: &mut RecentLabels,
    recorder: &mut R,
) -> Result<(), Halt>
    requires { node < length tree.now }
    ensures reported { Puts site (shallow_copy tree.now node)
        (R.state recorder.old) result (R.state recorder.new) }
    ensures kept { R.kept recorder.new ≡ R.kept recorder.old }
{
    if tree.kind(node) == Kind::Element {
        put_start(tree, node, site, labels, recorder)
    } else {
        put_leaf(tree, node, site, labels, recorder)
    }
}

/// Puts a node with all that is in it (XSLT 1.0, 11.3), one event after another.
///
/// Names that were put before are shared, by `labels`. Out of memory, any part of the copy may have
/// been put.
pub fn put_deep_copy<R: Recorder>(
    tree: &Tree,
    node: Node,
    site: Site,
    labels: &mut RecentLabels,
    recorder: &mut R,
) -> Result<(), Halt>
    requires { node < length tree.now }
    ensures reported { Puts site (deep_copy tree.now node)
        (R.state recorder.old) result (R.state recorder.new) }
    ensures kept { R.kept recorder.new ≡ R.kept recorder.old }
{
    let _count = tree.len();
    match tree.kind(node) {
        Kind::Root => put_inside(tree, node, site, labels, recorder),
        Kind::Element => put_element(tree, node, site, labels, recorder),
        _ => put_leaf(tree, node, site, labels, recorder),
    }
}

/// Puts an element with all that is in it.
fn put_element<R: Recorder>(
    tree: &Tree,
    n: Node,
    site: Site,
    labels: &mut RecentLabels,
    recorder: &mut R,
) -> Result<(), Halt>
    requires { n < length tree.now }
    ensures reported { Puts site (tag_events tree.now n ++ (inside tree.now n ++ End ∷ []))
        (R.state recorder.old) result (R.state recorder.new) }
    ensures kept { R.kept recorder.new ≡ R.kept recorder.old }
{
    put_tag(tree, n, site, labels, recorder)?;
    put_inside(tree, n, site, labels, recorder)?;
    put_one(Event::End, site, recorder)
}

/// Puts the start of an element, with its namespace nodes.
#[inline(always)]
fn put_start<R: Recorder>(
    tree: &Tree,
    n: Node,
    site: Site,
    labels: &mut RecentLabels,
    recorder: &mut R,
) -> Result<(), Halt>
    requires { n < length tree.now }
    ensures reported { Puts site (start_events tree.now n)
        (R.state recorder.old) result (R.state recorder.new) }
    ensures kept { R.kept recorder.new ≡ R.kept recorder.old }
{
    let name = label_of(tree, n, labels)?;
    put_one(Event::Start(name), site, recorder)?;
    put_spaces(tree, n, site, labels, recorder)
}

/// Puts the namespace nodes of an element.
fn put_spaces<R: Recorder>(
    tree: &Tree,
    n: Node,
    site: Site,
    labels: &mut RecentLabels,
    recorder: &mut R,
) -> Result<(), Halt>
    requires { n < length tree.now }
    ensures reported { Puts site
        (flat_map (λ k. space_events (at tree.now k)) (namespaces tree.now n))
        (R.state recorder.old) result (R.state recorder.new) }
    ensures kept { R.kept recorder.new ≡ R.kept recorder.old }
{
    for space in tree.namespaces(n) {
        put_space(tree, space, site, labels, recorder)?;
    }
    Ok(())
}

/// Puts the attributes of an element.
fn put_attributes<R: Recorder>(
    tree: &Tree,
    n: Node,
    site: Site,
    labels: &mut RecentLabels,
    recorder: &mut R,
) -> Result<(), Halt>
    requires { n < length tree.now }
    ensures reported { Puts site
        (flat_map (λ k. attribute_events (at tree.now k)) (attributes tree.now n))
        (R.state recorder.old) result (R.state recorder.new) }
    ensures kept { R.kept recorder.new ≡ R.kept recorder.old }
{
    for attribute in tree.attributes(n) {
        put_attribute(tree, attribute, site, labels, recorder)?;
    }
    Ok(())
}

/// Puts the start tag of an element: its start, its namespace nodes and its attributes.
#[inline(always)]
fn put_tag<R: Recorder>(
    tree: &Tree,
    n: Node,
    site: Site,
    labels: &mut RecentLabels,
    recorder: &mut R,
) -> Result<(), Halt>
    requires { n < length tree.now }
    ensures reported { Puts site (tag_events tree.now n)
        (R.state recorder.old) result (R.state recorder.new) }
    ensures kept { R.kept recorder.new ≡ R.kept recorder.old }
{
    put_start(tree, n, site, labels, recorder)?;
    put_attributes(tree, n, site, labels, recorder)
}

/// Puts what comes before the children of a node: the start tag of an element, all of a node
/// without children, nothing of a root.
#[inline(always)]
fn put_opening<R: Recorder>(
    tree: &Tree,
    n: Node,
    site: Site,
    labels: &mut RecentLabels,
    recorder: &mut R,
) -> Result<(), Halt>
    requires { n < length tree.now }
    ensures reported { Puts site (opening tree.now n)
        (R.state recorder.old) result (R.state recorder.new) }
    ensures kept { R.kept recorder.new ≡ R.kept recorder.old }
{
    if tree.kind(n) == Kind::Element {
        put_tag(tree, n, site, labels, recorder)
    } else {
        put_leaf(tree, n, site, labels, recorder)
    }
}

/// Puts copies of the children of a node.
///
/// It goes from place to place, down into the elements and up again, since documents nest without
/// bound: it takes time linear in what is in the node, and no stack.
fn put_inside<R: Recorder>(
    tree: &Tree,
    node: Node,
    site: Site,
    labels: &mut RecentLabels,
    recorder: &mut R,
) -> Result<(), Halt>
    requires { node < length tree.now }
    ensures reported { Puts site (inside tree.now node)
        (R.state recorder.old) result (R.state recorder.new) }
    ensures kept { R.kept recorder.new ≡ R.kept recorder.old }
{
    let mut holder = node;
    let mut from = next_place(tree, node);
    loop {
        if let Some(child) = tree.child_from(holder, from) {
            put_opening(tree, child, site, labels, recorder)?;
            from = next_place(tree, child);
            holder = holder_after(tree, holder, child);
            continue;
        }
        if holder == node {
            return Ok(());
        }
        put_one(Event::End, site, recorder)?;
        from = Node::at(tree.subtree_end(holder));
        holder = parent_of(tree, holder);
    }
}

/// The place after a node.
fn next_place(tree: &Tree, n: Node) -> Node
    requires { n < length tree.now }
    ensures place { result ≡ n + 1 }
    ensures tree { IsTree tree.now }
{
    let _count = tree.len();
    Node::at(n.place() + 1)
}

/// The node whose children come next after a child was put: the child where it is an element.
fn holder_after(tree: &Tree, holder: Node, child: Node) -> Node
    requires { child < length tree.now }
    ensures { result ≡ (if is_element_kind (at tree.now child).kind then child else holder) }
{
    if tree.kind(child) == Kind::Element {
        child
    } else {
        holder
    }
}

/// The parent of a node that is inside another.
fn parent_of(tree: &Tree, n: Node) -> Node
    requires within { n < length tree.now }
    requires inside { IsSome (at tree.now n).parent }
    ensures { (at tree.now n).parent ≡ Some result }
{
    match tree.parent(n) {
        Some(parent) => parent,
        None => unreachable!(),
    }
}
