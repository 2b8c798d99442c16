//! What single nodes of a tree put into the result.
ghost use Rattle.std.specs.Prelude.{◌≡◌, ◌<◌, ◌∷◌, ◌&&◌, [], codes, length, IfOk};
ghost use Rattle.std.specs.Str.{bytes_eq};
ghost use Rattle.xs_tree.specs.Record.{at, name_local, name_uri};
ghost use Rattle.xs_making.specs.Copies.{attribute_events, label_of, leaf_events};
ghost use Rattle.xs_making.specs.Copies.{space_events, text_events};
ghost use Rattle.xs_making.specs.Texts.{is_empty};
ghost use Rattle.xs_making.specs.Labels.{xml_uri};
ghost use Rattle.xs_making.specs.Putting.{Puts};

use crate::recent::RecentLabels;
use std::alloc::{AllocError, Global};
use xs_text::{Characters, TextBuf, XML_URI};
use xs_trace::event::{Event, Label};
use xs_trace::item::Site;
use xs_trace::recorder::{Halt, Recorder, put_event};
use xs_tree::{Kind, Node, Tree};

/// Puts the copy of a node that is no root and no element.
#[inline(always)]
pub(crate) fn put_leaf<R: Recorder>(
    tree: &Tree,
    n: Node,
    site: Site,
    labels: &mut RecentLabels,
    recorder: &mut R,
) -> Result<(), Halt>
    requires { n < length tree.now }
    ensures reported { Puts site (leaf_events (at tree.now n).kind (at tree.now n))
        (R.state recorder.old) result (R.state recorder.new) }
    ensures kept { R.kept recorder.new ≡ R.kept recorder.old }
{
    let alloc = labels.allocator();
    match tree.kind(n) {
        Kind::Root | Kind::Element => Ok(()),
        Kind::Attribute => put_attribute(tree, n, site, labels, recorder),
        Kind::Space => put_space(tree, n, site, labels, recorder),
        Kind::Text => put_text(alloc, tree, n, site, recorder),
        Kind::Comment => put_comment(alloc, tree, n, site, recorder),
        Kind::Pi => put_pi(alloc, tree, n, site, recorder),
    }
}

/// The name that an element or an attribute is put with.
pub(crate) fn label_of(tree: &Tree, n: Node, labels: &mut RecentLabels) -> Result<Label, AllocError>
    requires { n < length tree.now }
    ensures label { IfOk result (λ label. label ≡ label_of (at tree.now n)) }
{
    labels.label(tree.uri(n), tree.local(n), tree.prefix(n))
}

/// Puts one event.
#[inline(always)]
pub(crate) fn put_one<R: Recorder>(event: Event, site: Site, recorder: &mut R) -> Result<(), Halt>
    ensures reported { Puts site (event ∷ [])
        (R.state recorder.old) result (R.state recorder.new) }
    ensures kept { R.kept recorder.new ≡ R.kept recorder.old }
{
    put_event(recorder, site, event)
}

/// Puts a namespace node, except no namespace and for that of `xml`.
#[inline(always)]
pub(crate) fn put_space<R: Recorder>(
    tree: &Tree,
    n: Node,
    site: Site,
    labels: &mut RecentLabels,
    recorder: &mut R,
) -> Result<(), Halt>
    requires { n < length tree.now }
    ensures reported { Puts site (space_events (at tree.now n))
        (R.state recorder.old) result (R.state recorder.new) }
    ensures kept { R.kept recorder.new ≡ R.kept recorder.old }
{
    let uri = tree.text(n);
    if uri.is_empty() || uri == XML_URI {
        return Ok(());
    }
    let space = labels.space(tree.local(n), uri)?;
    put_one(space, site, recorder)
}

/// Puts an attribute, except one that would be read as the declaration of a default namespace.
#[inline(always)]
pub(crate) fn put_attribute<R: Recorder>(
    tree: &Tree,
    n: Node,
    site: Site,
    labels: &mut RecentLabels,
    recorder: &mut R,
) -> Result<(), Halt>
    requires { n < length tree.now }
    ensures reported { Puts site (attribute_events (at tree.now n))
        (R.state recorder.old) result (R.state recorder.new) }
    ensures kept { R.kept recorder.new ≡ R.kept recorder.old }
{
    if is_declaration(tree, n) {
        return Ok(());
    }
    let name = label_of(tree, n, labels)?;
    let value = labels.value(tree.text(n))?;
    put_one(Event::Attr { name, value }, site, recorder)
}

/// Whether an attribute would be read as the declaration of a default namespace.
fn is_declaration(tree: &Tree, n: Node) -> bool
    requires { n < length tree.now }
    ensures { result ≡ (is_empty (name_uri (at tree.now n))
        && bytes_eq (name_local (at tree.now n)) (codes "xmlns")) }
{
    tree.uri(n).is_empty() && tree.local(n) == "xmlns"
}

/// Puts a text, unless it is empty.
#[inline(always)]
fn put_text<R: Recorder>(
    alloc: Global,
    tree: &Tree,
    n: Node,
    site: Site,
    recorder: &mut R,
) -> Result<(), Halt>
    requires { n < length tree.now }
    ensures reported { Puts site (text_events (at tree.now n))
        (R.state recorder.old) result (R.state recorder.new) }
    ensures kept { R.kept recorder.new ≡ R.kept recorder.old }
{
    let text = tree.text(n);
    if text.is_empty() {
        return Ok(());
    }
    put_one(Event::Chars(Characters::of(alloc, text)?), site, recorder)
}

/// Puts a comment, as it is.
fn put_comment<R: Recorder>(
    alloc: Global,
    tree: &Tree,
    n: Node,
    site: Site,
    recorder: &mut R,
) -> Result<(), Halt>
    requires { n < length tree.now }
    ensures reported { Puts site (leaf_events Kind.Comment (at tree.now n))
        (R.state recorder.old) result (R.state recorder.new) }
    ensures kept { R.kept recorder.new ≡ R.kept recorder.old }
{
    let text = TextBuf::of(alloc, tree.text(n))?;
    put_one(Event::Comment(text), site, recorder)
}

/// Puts a processing instruction, as it is.
fn put_pi<R: Recorder>(
    alloc: Global,
    tree: &Tree,
    n: Node,
    site: Site,
    recorder: &mut R,
) -> Result<(), Halt>
    requires { n < length tree.now }
    ensures reported { Puts site (leaf_events Kind.Pi (at tree.now n))
        (R.state recorder.old) result (R.state recorder.new) }
    ensures kept { R.kept recorder.new ≡ R.kept recorder.old }
{
    let target = TextBuf::of(alloc, tree.local(n))?;
    let value = TextBuf::of(alloc, tree.text(n))?;
    put_one(Event::Pi { target, value }, site, recorder)
}
