//! Steps, and paths of them (XPath 1.0, 2).

ghost use Rattle.std.specs.Prelude.{◌≡◌, ◌<◌, ◌∷◌, [], IfOk, length};
ghost use Rattle.std.specs.List.{All};
ghost use Rattle.xs_trace.specs.Play.{IsStep};
ghost use Rattle.xs_trace.specs.Run.{limited};
ghost use Rattle.xs_value.specs.Conversion.{IsIn};
ghost use Rattle.xs_eval_spec.specs.Conditions.{IsContext};
ghost use Rattle.xs_eval_spec.specs.Evaluation.{run_of, runs_of};
ghost use Rattle.xs_eval_spec.specs.Paths.{path, selected, step, through};

use crate::evaluator::Evaluator;
use crate::node_tests::tested;
use crate::operand::SetOperand;
use crate::steps::only_step;
use xs_eval_spec::context::Context;
use xs_eval_spec::trouble::or_halt;
use xs_trace::recorder::{Halt, Tally, tick_several};
use xs_tree::{Axis, Node};
use xs_value::keys::KeyFinder;
use xs_value::node_list::NodeList;
use xs_value::node_set::NodeSet;
use xs_value::value::Value;
use xs_xpath::expr::Expr;
use xs_xpath::name::NodeTest;

impl<K: KeyFinder> Evaluator<'_, K> {
    /// A step from the context node: a tick for each node that passes the test, then the predicates
    /// (XPath 1.0, 2.1).
    #[cycle(evaluate)]
    #[inline(always)]
    pub(crate) fn evaluate_step<T: Tally>(
        &self,
        axis: Axis,
        test: &NodeTest,
        predicates: &[Expr],
        context: &Context<'_>,
        tally: &mut T,
    ) -> Result<Value, Halt>
        requires context { IsContext (K.tables self.now.keys.now) context.now }
        ensures reported { IsStep (limited self.now.site
            (step axis test.now (runs_of (K.tables self.now.keys.now) predicates.now) context.now)
            (T.state tally.old)) result (T.state tally.new) }
        ensures kept { T.kept tally.new ≡ T.kept tally.old }
        ensures inside { IfOk result (IsIn context.now.tree) }
    {
        let nodes = tested(self.alloc, axis, test, context)?;
        tick_several(tally, self.site, nodes.len() as u64)?;
        self.keep(predicates, nodes, context, tally)
    }

    /// Where a path begins, and each step from what the one before it gave (XPath 1.0, 2).
    #[cycle(evaluate)]
    pub(crate) fn evaluate_path<'e, T: Tally>(
        &self,
        start: &'e Expr,
        steps: &[Expr],
        context: &Context<'e>,
        tally: &mut T,
    ) -> Result<Value, Halt>
        requires context { IsContext (K.tables self.now.keys.now) context.now }
        ensures reported { IsStep (limited self.now.site
            (path (run_of (K.tables self.now.keys.now) start.now)
            (runs_of (K.tables self.now.keys.now) steps.now) context.now)
            (T.state tally.old)) result (T.state tally.new) }
        ensures kept { T.kept tally.new ≡ T.kept tally.old }
        ensures inside { IfOk result (IsIn context.now.tree) }
    {
        if let Some(step) = only_step(start, steps) {
            return self.evaluate(step, context, tally);
        }
        let mut nodes = self.evaluate_nodes(start, context, tally)?;
        for step in steps {
            let reached = self.follow(step, nodes.nodes(), context, tally)?;
            nodes = SetOperand::own(reached);
        }
        Ok(Value::Nodes(nodes.into_set()?))
    }

    // A step from each node of a set, in document order.
    #[cycle(evaluate)]
    fn follow<T: Tally>(
        &self,
        step: &Expr,
        nodes: &[Node],
        context: &Context<'_>,
        tally: &mut T,
    ) -> Result<NodeSet, Halt>
        requires context { IsContext (K.tables self.now.keys.now) context.now }
        requires inside { All (λ k. k < length context.now.tree) nodes.now }
        ensures reported { IsStep (limited self.now.site
            (through context.now nodes.now (run_of (K.tables self.now.keys.now) step.now))
            (T.state tally.old)) result (T.state tally.new) }
        ensures kept { T.kept tally.new ≡ T.kept tally.old }
        ensures inside { IfOk result (λ ns. All (λ k. k < length context.now.tree) ns) }
    {
        match nodes {
            [node] => self.follow_one(step, *node, context, tally),
            _ => self.follow_each(step, nodes, context, tally),
        }
    }

    // A step from one node, which gives its nodes in order.
    #[cycle(evaluate)]
    fn follow_one<T: Tally>(
        &self,
        step: &Expr,
        node: Node,
        context: &Context<'_>,
        tally: &mut T,
    ) -> Result<NodeSet, Halt>
        requires context { IsContext (K.tables self.now.keys.now) context.now }
        requires inside { node < length context.now.tree }
        ensures reported { IsStep (limited self.now.site
            (through context.now (node ∷ []) (run_of (K.tables self.now.keys.now) step.now))
            (T.state tally.old)) result (T.state tally.new) }
        ensures kept { T.kept tally.new ≡ T.kept tally.old }
        ensures inside { IfOk result (λ ns. All (λ k. k < length context.now.tree) ns) }
    {
        let around = context.at_node(node, context.position, context.size);
        let set = self.evaluate_nodes(step, &around, tally)?;
        // (that its nodes are in order is what this call's contract says)
        let _nodes = set.nodes();
        Ok(set.into_set()?)
    }

    // A step from each of some nodes, whose nodes are put in order.
    #[cycle(evaluate)]
    fn follow_each<T: Tally>(
        &self,
        step: &Expr,
        nodes: &[Node],
        context: &Context<'_>,
        tally: &mut T,
    ) -> Result<NodeSet, Halt>
        requires context { IsContext (K.tables self.now.keys.now) context.now }
        requires inside { All (λ k. k < length context.now.tree) nodes.now }
        ensures reported { IsStep (limited self.now.site
            (through context.now nodes.now (run_of (K.tables self.now.keys.now) step.now))
            (T.state tally.old)) result (T.state tally.new) }
        ensures kept { T.kept tally.new ≡ T.kept tally.old }
        ensures inside { IfOk result (λ ns. All (λ k. k < length context.now.tree) ns) }
    {
        let mut found = NodeList::new(self.alloc);
        for node in nodes {
            let around = context.at_node(*node, context.position, context.size);
            let set = self.evaluate_nodes(step, &around, tally)?;
            found.extend_from_slice(set.nodes())?;
            drop(set);
        }
        Ok(NodeSet::of_list(found)?)
    }

    /// The nodes that an expression gives, which has to be a node-set (XPath 1.0, 3.3).
    #[cycle(evaluate)]
    #[inline(always)]
    pub(crate) fn evaluate_nodes<'e, T: Tally>(
        &self,
        expr: &'e Expr,
        context: &Context<'e>,
        tally: &mut T,
    ) -> Result<SetOperand<'e>, Halt>
        requires context { IsContext (K.tables self.now.keys.now) context.now }
        ensures reported { IsStep (limited self.now.site
            (selected (run_of (K.tables self.now.keys.now) expr.now) context.now)
            (T.state tally.old)) result (T.state tally.new) }
        ensures kept { T.kept tally.new ≡ T.kept tally.old }
        ensures inside { IfOk result (λ ns. All (λ k. k < length context.now.tree) ns) }
    {
        let v = self.operand(expr, context, tally)?;
        or_halt(v.into_set(), self.site)
    }
}
