//! Copies of nodes and of values (XSLT 1.0, 7.5 and 11.3).

ghost use Rattle.std.specs.Prelude.{◌≡◌, ◌<◌, length, OnOk};
ghost use Rattle.std.specs.List.{All};
ghost use Rattle.xs_body.specs.steps.Frames.{copied_begun, copy_begun, copy_of_steps};
ghost use Rattle.xs_body.specs.steps.Making.{chars_steps, copy_steps, nodes_steps};
ghost use Rattle.xs_trace.specs.Play.{IsStep, IsStepBy};
ghost use Rattle.xs_tree.specs.Record.{at};
ghost use Rattle.xs_value.specs.Conversion.{IsIn, text_value};

use crate::evaluator::Evaluator;
use crate::frames::Scope;
use crate::putting::{put_copied_text, put_events, put_text};
use crate::task::Task;
use std::alloc::AllocError;
use xs_body_spec::finder::Finder;
use xs_making::{RecentLabels, put_deep_copy, put_shallow_copy};
use xs_sheet::body::Body;
use xs_sheet::scoped::ScopedExpr;
use xs_trace::event::Label;
use xs_trace::item::Site;
use xs_trace::recorder::{Halt, Recorder};
use xs_tree::{Kind, Node, Tree};
use xs_value::conversion::to_characters;
use xs_value::value::Value;

impl<'a, K: Finder> Evaluator<'a, K> {
    /// Puts a copy of the value of an expression (11.3).
    pub(crate) fn put_copy<R: Recorder<Task = Task<'a>>>(
        &mut self,
        select: &ScopedExpr,
        site: Site,
        scope: Scope,
        recorder: &mut R,
    ) -> Result<(), Halt>
        requires node { scope.focus.node < length self.old.world.tree }
        ensures reported { IsStep (copy_of_steps select.now site scope self.old
            (R.state recorder.old)) result (R.state recorder.new) }
        ensures kept { R.kept recorder.new ≡ R.kept recorder.old }
        ensures same { self.new ≡ self.old }
    {
        let value = self.value(select, site, scope, recorder)?;
        self.put_value_copy(&value, site, recorder)
    }

    /// Puts a copy of a value: nodes and fragments as they are, of any other its text.
    fn put_value_copy<R: Recorder<Task = Task<'a>>>(
        &mut self,
        value: &Value,
        site: Site,
        recorder: &mut R,
    ) -> Result<(), Halt>
        requires value { IsIn self.old.world.tree value.now }
        ensures reported { IsStep (copy_steps self.old.world.tree site value.now
            (R.state recorder.old)) result (R.state recorder.new) }
        ensures kept { R.kept recorder.new ≡ R.kept recorder.old }
        ensures same { self.new ≡ self.old }
    {
        match value {
            Value::Nodes(nodes) => {
                put_nodes(self.tree, nodes.nodes(), site, &mut self.labels, recorder)
            }
            Value::Piece(fragment) => put_events(site, fragment.events(), recorder),
            Value::Chars(text) => put_copied_text(site, text, recorder),
            Value::Bool(_) => self.put_as_text(value, site, recorder),
            Value::Number(_) => self.put_as_text(value, site, recorder),
        }
    }

    /// Puts the text of a value.
    fn put_as_text<R: Recorder<Task = Task<'a>>>(
        &self,
        value: &Value,
        site: Site,
        recorder: &mut R,
    ) -> Result<(), Halt>
        requires value { IsIn self.now.world.tree value.now }
        ensures reported { IsStep (chars_steps site (text_value self.now.world.tree value.now)
            (R.state recorder.old)) result (R.state recorder.new) }
        ensures kept { R.kept recorder.new ≡ R.kept recorder.old }
    {
        let text = to_characters(self.alloc, self.tree, value)?;
        put_text(site, text, recorder)
    }

    /// A copy of the current node begins, with its own content where it can have one (7.5).
    pub(crate) fn begin_copy<R: Recorder<Task = Task<'a>>>(
        &mut self,
        sets: &'a [Label],
        body: &'a Body,
        site: Site,
        scope: Scope,
        recorder: &mut R,
    ) -> Result<(), Halt>
        requires node { scope.focus.node < length self.old.world.tree }
        ensures reported { IsStepBy (λ u. self.new)
            (copy_begun sets.now body.now site scope self.old
            (R.state recorder.old)) result (R.state recorder.new) }
        ensures kept { R.kept recorder.new ≡ R.kept recorder.old }
    {
        let node = Node::at(scope.focus.node);
        put_shallow_copy(self.tree, node, site, &mut self.labels, recorder)?;
        self.begin_copied(sets, body, scope)?;
        Ok(())
    }

    /// The content of a copy begins: in an element after the attributes of its sets, in a root by
    /// itself, in no other node.
    fn begin_copied(
        &mut self,
        sets: &'a [Label],
        body: &'a Body,
        scope: Scope,
    ) -> Result<(), AllocError>
        requires node { scope.focus.node < length self.old.world.tree }
        ensures begun { OnOk result (self.new ≡ copied_begun
            (at self.old.world.tree scope.focus.node).kind sets.now body.now scope self.old) }
    {
        match self.tree.kind(Node::at(scope.focus.node)) {
            Kind::Element => self.push_inside(sets, body, scope),
            Kind::Root => self.push_body(body, scope.inner()),
            Kind::Attribute => Ok(()),
            Kind::Space => Ok(()),
            Kind::Text => Ok(()),
            Kind::Comment => Ok(()),
            Kind::Pi => Ok(()),
        }
    }
}

/// Puts copies of nodes, with all that is in them.
fn put_nodes<R: Recorder>(
    tree: &Tree,
    nodes: &[Node],
    site: Site,
    labels: &mut RecentLabels,
    recorder: &mut R,
) -> Result<(), Halt>
    requires nodes { All (λ n. n < length tree.now) nodes.now }
    ensures reported { IsStep (nodes_steps tree.now site nodes.now (R.state recorder.old))
        result (R.state recorder.new) }
    ensures kept { R.kept recorder.new ≡ R.kept recorder.old }
{
    let mut left = nodes;
    while let Some((node, others)) = left.split_first() {
        put_deep_copy(tree, *node, site, labels, recorder)?;
        left = others;
    }
    Ok(())
}
