//! An evaluation that goes on: what it is over, what is still to be done, and the values of local
//! bindings.

ghost use Rattle.std.specs.Prelude.{◌≡◌, ◌<◌, [], ◌∷◌, length, IfOk, IfSome, MatchOption, OnOk};
ghost use Rattle.std.specs.Cow.{cow_str_bytes};
ghost use Rattle.std.specs.List.{All};
ghost use Rattle.xs_body.specs.Inside.{AreValues, IsInside, IsWorld};
ghost use Rattle.xs_body.specs.steps.Frames.{filled_up, idle, instrs_of, last, pushed, rest};
ghost use Rattle.xs_body.specs.steps.Frames.{slots_are, without, work_of};
ghost use Rattle.xs_eval_spec.specs.Conditions.{IsContext};
ghost use Rattle.xs_body_spec.specs.World.{context, nodes_run, template_run, test_run, text_run};
ghost use Rattle.xs_body_spec.specs.World.{value_run};
ghost use Rattle.xs_trace.specs.Play.{IsStep, IsStepBy};
ghost use Rattle.xs_trace.specs.Run.{limited};
ghost use Rattle.xs_value.specs.Conversion.{IsIn};

use crate::frames::{Frame, Scope};
use crate::world::World;
use std::alloc::{AllocError, Global};
use std::borrow::CowStr;
use std::marker::Model;
use xs_attribute_sets::index::SetIndex;
use xs_body_spec::finder::Finder;
use xs_eval_spec::context::Context;
use xs_making::{RecentLabels, SheetTexts};
use xs_sheet::body::Body;
use xs_sheet::scoped::{Namespaces, ScopedExpr, ValueTemplate};
use xs_sheet::sheet::Sheet;
use xs_text::{Characters, TextBuf};
use xs_trace::fault::Fault;
use xs_trace::item::Site;
use xs_trace::recorder::{Halt, Tally};
use xs_tree::{Node, Tree};
use xs_value::conversion::{to_bool, to_characters};
use xs_value::node_set::NodeSet;
use xs_value::value::Value;

/// An evaluation that goes on. It is over a sound world, in whose tree all its nodes are
/// (`IsEvaluator`).
#[derive(Drop)]
pub(crate) struct Evaluator<'a, K: Finder> {
    /// Where what it makes is stored.
    pub(crate) alloc: Global,
    // What it is over: the fields of a `World`, so that contracts see one model and not two.
    pub(crate) sheet: &'a Sheet,
    pub(crate) index: &'a SetIndex<'a>,
    pub(crate) tree: &'a Tree,
    pub(crate) finder: &'a K,
    pub(crate) globals: &'a [Option<Value>],
    pub(crate) grain: Option<u32>,
    /// What is still to be done, the next last.
    frames: Vec<Frame<'a>>,
    /// The values of local bindings, in order.
    slots: Vec<Value>,
    /// The names that were copied last.
    pub(crate) labels: RecentLabels,
    /// Its copies of the stylesheet's texts and names.
    pub(crate) texts: SheetTexts,
}

impl<'a, K: Finder> Model for Evaluator<'a, K> {
    ghost use Rattle.std.specs.Coded.{codes};
    ghost use Rattle.std.specs.Prelude.{◌≡◌};
    ghost use denote.Signature.{static_lft};
    ghost use Rattle.xs_attribute_sets.specs.contracts.index.SetIndex as of_index;
    ghost use Rattle.xs_sheet.specs.contracts.sheet.Sheet as of_sheet;
    ghost use Rattle.xs_sheet.specs.contracts.body.Body as body;
    ghost use Rattle.xs_sheet.specs.contracts.body.Content as content;
    ghost use Rattle.xs_sheet.specs.contracts.body.InstrKind as kind;
    ghost use Rattle.xs_sheet.specs.Codes.{coded_tree};
    ghost use Rattle.xs_body.specs.steps.Frames.{Evaluation};

    ghost Value = { Evaluation };

    ghost coded = { Prim.hlevel (
      codes,
      of_sheet.the_row.coded,
      (of_index.the_row static_lft).coded,
      body.the_row.coded,
      content.the_row.coded,
      kind.the_row.coded,
      coded_tree,
    ) };

    ghost use Rattle.xs_body.specs.Inside.{IsEvaluator};
    ghost use Rattle.xs_body.specs.steps.Frames.{evaluation_of};

    ghost view = { λ e. evaluation_of (record {
      sheet = e.sheet.now;
      index = e.index.now;
      tree = e.tree.now;
      keys = K.tables e.finder.now;
      globals = e.globals.now;
      grain = e.grain;
    }) e.frames.items e.slots.items };

    ghost invariant = { λ e. IsEvaluator (record {
      sheet = e.sheet.now;
      index = e.index.now;
      tree = e.tree.now;
      keys = K.tables e.finder.now;
      globals = e.globals.now;
      grain = e.grain;
    }) e.frames.items e.slots.items
        × (K.sheet e.finder.now ≡ e.sheet.now) × (K.tree e.finder.now ≡ e.tree.now)
        × K.is_ready e.finder.now };
}

impl<'a, K: Finder> Evaluator<'a, K> {
    /// One with nothing to be done, and these values.
    pub(crate) fn new(alloc: Global, world: &World<'a, K>, slots: Vec<Value>) -> Evaluator<'a, K>
        requires slots { AreValues world.now.tree slots.items }
        ensures { result ≡ idle world.now slots.items }
    {
        Evaluator {
            alloc,
            sheet: world.sheet,
            index: world.index,
            tree: world.tree,
            finder: world.finder,
            globals: world.globals,
            grain: world.grain,
            frames: Vec::new(alloc),
            slots,
            labels: RecentLabels::new(alloc),
            texts: SheetTexts::new(alloc),
        }
    }

    /// Puts a frame before the others.
    #[inline(always)]
    pub(crate) fn push(&mut self, frame: Frame<'a>) -> Result<(), AllocError>
        requires first { IsInside self.old.world.tree frame }
        ensures pushed { OnOk result (self.new ≡ pushed (work_of frame.entry ∷ []) self.old) }
    {
        self.frames.push(frame)?;
        Ok(())
    }

    /// Puts a body before the others.
    #[inline(always)]
    pub(crate) fn push_body(&mut self, body: &'a Body, scope: Scope) -> Result<(), AllocError>
        requires node { scope.focus.node < length self.old.world.tree }
        ensures pushed { OnOk result
            (self.new ≡ pushed (rest (instrs_of body.now) scope ∷ []) self.old) }
    {
        self.push(Frame::Rest(body.instrs.as_slice(), scope))
    }

    /// The frame before the others.
    #[inline(always)]
    pub(crate) fn pop(&mut self) -> Option<Frame<'a>>
        ensures popped { MatchOption result (self.old.works ≡ [])
            (λ f. self.old ≡ pushed (work_of f ∷ []) self.new) }
        ensures first { IfSome result (λ f. IsInside self.new.world.tree f) }
        ensures world { IsWorld self.new.world }
    {
        self.frames.pop()
    }

    /// A value more.
    #[inline(always)]
    pub(crate) fn fill(&mut self, value: Value) -> Result<(), AllocError>
        requires value { IsIn self.old.world.tree value }
        ensures slots { OnOk result (self.new ≡ filled_up (value ∷ []) self.old) }
    {
        self.slots.push(value)?;
        Ok(())
    }

    /// Takes so many values away, those that came last.
    #[inline(always)]
    pub(crate) fn empty(&mut self, count: usize)
        ensures slots { self.new ≡ slots_are (without count self.old.slots) self.old }
    {
        let left = self.slots.len().saturating_sub(count);
        self.slots.truncate(left);
    }

    /// The values that a scope sees.
    pub(crate) fn locals(&self, scope: Scope) -> &[Value]
        ensures locals { result.now ≡ last scope.seen self.now.slots }
        ensures inside { AreValues self.now.world.tree result.now }
    {
        let slots = self.slots.as_slice();
        &slots[slots.len().saturating_sub(scope.seen)..]
    }

    /// The context of expressions at an instruction, under the namespaces in scope; the current
    /// node is the context node (XSLT 1.0, 4 and 12.4).
    #[inline(always)]
    pub(crate) fn context<'c>(&'c self, names: &'c Namespaces, scope: Scope) -> Context<'c>
        requires node { scope.focus.node < length self.now.world.tree }
        ensures is { result ≡ context self.now.world scope.focus
            (last scope.seen self.now.slots) names.now }
        ensures sound { IsContext self.now.world.keys result }
    {
        let focus = scope.focus;
        Context {
            tree: self.tree,
            node: Node::at(focus.node),
            position: focus.position,
            size: focus.size,
            current: Node::at(focus.node),
            locals: self.locals(scope),
            globals: self.globals,
            scope: names.scope(),
        }
    }

    /// The value of an expression, at an instruction (4).
    pub(crate) fn value<T: Tally>(
        &self,
        expr: &ScopedExpr,
        site: Site,
        scope: Scope,
        tally: &mut T,
    ) -> Result<Value, Halt>
        requires node { scope.focus.node < length self.now.world.tree }
        ensures reported { IsStep (limited site
            (value_run self.now.world expr.now scope.focus (last scope.seen self.now.slots))
            (T.state tally.old)) result (T.state tally.new) }
        ensures kept { T.kept tally.new ≡ T.kept tally.old }
        ensures inside { IfOk result (IsIn self.now.world.tree) }
    {
        let context = self.context(&expr.scope, scope);
        self.finder
            .evaluate(self.alloc, expr.expr.expr(), &context, site, tally)
    }

    /// Its nodes: the value has to be a node-set (5.4, 8).
    pub(crate) fn nodes<T: Tally>(
        &self,
        expr: &ScopedExpr,
        site: Site,
        scope: Scope,
        tally: &mut T,
    ) -> Result<NodeSet, Halt>
        requires node { scope.focus.node < length self.now.world.tree }
        ensures reported { IsStep (limited site
            (nodes_run self.now.world expr.now scope.focus (last scope.seen self.now.slots))
            (T.state tally.old)) result (T.state tally.new) }
        ensures kept { T.kept tally.new ≡ T.kept tally.old }
        ensures inside { IfOk result (All (λ n. n < length self.now.world.tree)) }
    {
        match self.value(expr, site, scope, tally)? {
            Value::Nodes(nodes) => Ok(nodes),
            _ => Err(Halt::Fault(Fault::NotNodes, site)),
        }
    }

    /// Its value as a string (7.6.1).
    pub(crate) fn text<T: Tally>(
        &self,
        expr: &ScopedExpr,
        site: Site,
        scope: Scope,
        tally: &mut T,
    ) -> Result<Characters, Halt>
        requires node { scope.focus.node < length self.now.world.tree }
        ensures reported { IsStep (limited site
            (text_run self.now.world expr.now scope.focus (last scope.seen self.now.slots))
            (T.state tally.old)) result (T.state tally.new) }
        ensures kept { T.kept tally.new ≡ T.kept tally.old }
    {
        let value = self.value(expr, site, scope, tally)?;
        Ok(to_characters(self.alloc, self.tree, &value)?)
    }

    /// Whether its value as a boolean is true (9.1, 9.2).
    #[inline(always)]
    pub(crate) fn holds<T: Tally>(
        &self,
        expr: &ScopedExpr,
        site: Site,
        scope: Scope,
        tally: &mut T,
    ) -> Result<bool, Halt>
        requires node { scope.focus.node < length self.now.world.tree }
        ensures reported { IsStep (limited site
            (test_run self.now.world expr.now scope.focus (last scope.seen self.now.slots))
            (T.state tally.old)) result (T.state tally.new) }
        ensures kept { T.kept tally.new ≡ T.kept tally.old }
    {
        let value = self.value(expr, site, scope, tally)?;
        Ok(to_bool(&value))
    }

    /// The text of a value template (7.6.2).
    pub(crate) fn template<T: Tally>(
        &self,
        template: &ValueTemplate,
        site: Site,
        scope: Scope,
        tally: &mut T,
    ) -> Result<TextBuf, Halt>
        requires node { scope.focus.node < length self.now.world.tree }
        ensures reported { IsStepBy (λ text. text) (limited site (template_run self.now.world
            template.now scope.focus (last scope.seen self.now.slots))
            (T.state tally.old)) result (T.state tally.new) }
        ensures kept { T.kept tally.new ≡ T.kept tally.old }
    {
        let context = self.context(&template.scope, scope);
        let parts = template.parts.as_slice();
        self.finder
            .evaluate_avt(self.alloc, parts, &context, site, tally)
    }

    /// The text of a value template, lent by the stylesheet where it is fixed (7.6.2).
    #[inline(always)]
    pub(crate) fn lend_template<'t, T: Tally>(
        &self,
        template: &'t ValueTemplate,
        site: Site,
        scope: Scope,
        tally: &mut T,
    ) -> Result<CowStr<'t, Global>, Halt>
        requires node { scope.focus.node < length self.now.world.tree }
        ensures reported { IsStepBy (λ text. cow_str_bytes text) (limited site
            (template_run self.now.world template.now scope.focus
            (last scope.seen self.now.slots)) (T.state tally.old)) result (T.state tally.new) }
        ensures kept { T.kept tally.new ≡ T.kept tally.old }
    {
        let context = self.context(&template.scope, scope);
        let parts = template.parts.as_slice();
        self.finder
            .lend_avt(self.alloc, parts, &context, site, tally)
    }
}
