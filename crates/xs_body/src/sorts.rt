//! Nodes in the order of sort keys (XSLT 1.0, 10).

ghost use Rattle.std.specs.Prelude.{◌≡◌, ◌<◌, length, IfOk};
ghost use Rattle.xs_body.specs.Inside.{AreNodes};
ghost use Rattle.xs_body.specs.steps.Frames.{last};
ghost use Rattle.xs_body.specs.steps.Lists.{AreOrdered, nodes_in};
ghost use Rattle.xs_body_spec.specs.World.{applied_nodes, looped_nodes, sorted_run};
ghost use Rattle.xs_trace.specs.Play.{IsStepBy};
ghost use Rattle.xs_trace.specs.Run.{limited};

use crate::evaluator::Evaluator;
use crate::frames::Scope;
use crate::lists::NodeList;
use xs_body_spec::finder::Finder;
use xs_sheet::body::{Applied, SortDecl};
use xs_sheet::scoped::ScopedExpr;
use xs_sort::sorting::sort_by_keys;
use xs_trace::item::Site;
use xs_trace::recorder::{Halt, Recorder, Tally};

impl<'a, K: Finder> Evaluator<'a, K> {
    /// The nodes to which templates are applied, in their order (5.4).
    pub(crate) fn applied_nodes<R: Recorder>(
        &self,
        applied: &Applied,
        site: Site,
        scope: Scope,
        recorder: &mut R,
    ) -> Result<NodeList, Halt>
        requires node { scope.focus.node < length self.now.world.tree }
        ensures reported { IsStepBy (λ l. nodes_in l) (limited site
            (applied_nodes self.now.world applied.now.select applied.now.sorts scope.focus
            (last scope.seen self.now.slots)) (R.state recorder.old))
            result (R.state recorder.new) }
        ensures kept { R.kept recorder.new ≡ R.kept recorder.old }
        ensures inside { IfOk result (λ l. AreNodes self.now.world.tree (nodes_in l)) }
    {
        let found = self.nodes_or_children(&applied.select, site, scope, recorder)?;
        self.sorted(found, applied.sorts.as_slice(), site, scope, recorder)
    }

    /// The nodes of a for-each, in their order (8).
    pub(crate) fn looped_nodes<R: Recorder>(
        &self,
        select: &ScopedExpr,
        sorts: &[SortDecl],
        site: Site,
        scope: Scope,
        recorder: &mut R,
    ) -> Result<NodeList, Halt>
        requires node { scope.focus.node < length self.now.world.tree }
        ensures reported { IsStepBy (λ l. nodes_in l) (limited site
            (looped_nodes self.now.world select.now sorts.now scope.focus
            (last scope.seen self.now.slots)) (R.state recorder.old))
            result (R.state recorder.new) }
        ensures kept { R.kept recorder.new ≡ R.kept recorder.old }
        ensures inside { IfOk result (λ l. AreNodes self.now.world.tree (nodes_in l)) }
    {
        let nodes = self.nodes(select, site, scope, recorder)?;
        let found = NodeList::Set(nodes);
        self.sorted(found, sorts, site, scope, recorder)
    }

    /// Nodes in the order of sort keys, which are evaluated over their list as it was. Without a
    /// key they stay as they are. The context may have any namespaces in scope, since each key has
    /// its own.
    fn sorted<T: Tally>(
        &self,
        nodes: NodeList,
        sorts: &[SortDecl],
        site: Site,
        scope: Scope,
        tally: &mut T,
    ) -> Result<NodeList, Halt>
        requires node { scope.focus.node < length self.now.world.tree }
        requires nodes { AreNodes self.now.world.tree (nodes_in nodes) }
        requires order { AreOrdered nodes }
        ensures reported { IsStepBy (λ l. nodes_in l) (limited site
            (sorted_run self.now.world sorts.now scope.focus (last scope.seen self.now.slots)
            (nodes_in nodes)) (T.state tally.old)) result (T.state tally.new) }
        ensures kept { T.kept tally.new ≡ T.kept tally.old }
        ensures inside { IfOk result (λ l. AreNodes self.now.world.tree (nodes_in l)) }
    {
        match sorts.split_first() {
            None => Ok(nodes),
            Some((first, _)) => {
                let set = nodes.into_set()?;
                let context = self.context(&first.select.scope, scope);
                let ordered = sort_by_keys(
                    self.alloc,
                    &set,
                    sorts,
                    &context,
                    self.finder,
                    site,
                    tally,
                )?;
                Ok(NodeList::List(ordered))
            }
        }
    }
}
