//! Templates and built-in rules that begin (XSLT 1.0, 5 and 6).

ghost use Rattle.std.specs.Prelude.{◌≡◌, ◌<◌, [], ◌∷◌, length, slice_get, true, IsSome, OnOk};
ghost use Rattle.xs_body.specs.Inside.{AreValues, IsParams};
ghost use Rattle.xs_body.specs.steps.Frames.{advanced, applied_begun, built_in_begun};
ghost use Rattle.xs_body.specs.steps.Frames.{chars_steps, entering, entering_fitting, outer};
ghost use Rattle.xs_body.specs.steps.Frames.{params_entered, params_first, params_left};
ghost use Rattle.xs_body.specs.steps.Frames.{params_work, pushed};
ghost use Rattle.xs_body.specs.steps.Frames.{rule_begun, rule_entered, template_begun};
ghost use Rattle.xs_body.specs.steps.Frames.{template_entered};
ghost use Rattle.xs_body_spec.specs.Tasks.{no_params};
ghost use Rattle.xs_body_spec.specs.Trace.{named, overridden};
ghost use Rattle.xs_trace.specs.Play.{IsStep, IsStepBy};
ghost use Rattle.xs_tree.specs.Record.{at, children};

use crate::evaluator::Evaluator;
use crate::frames::{Frame, ParamsLeft, Rules, Scope};
use crate::lists::NodeList;
use crate::passed::Passed;
use crate::putting::put_text;
use crate::task::Task;
use std::alloc::AllocError;
use xs_body_spec::finder::Finder;
use xs_body_spec::focus::Focus;
use xs_sheet::body::Binding;
use xs_sheet::declarations::Template;
use xs_text::Characters;
use xs_trace::fault::Fault;
use xs_trace::item::Site;
use xs_trace::recorder::{Halt, Recorder};
use xs_tree::{Kind, Node};

impl<'a, K: Finder> Evaluator<'a, K> {
    /// The template of a number begins, one level deeper (6).
    pub(crate) fn enter_named<R: Recorder<Task = Task<'a>>>(
        &mut self,
        template: u32,
        passed: Passed<'a>,
        site: Site,
        focus: Focus,
        recorder: &R,
    ) -> Result<(), Halt>
        requires node { focus.node < length self.old.world.tree }
        requires passed { AreValues self.old.world.tree passed.values }
        ensures reported { IsStepBy (λ u. self.new)
            (entering (named template passed.entry) site focus self.old
            (R.state recorder.now)) result (R.state recorder.now) }
    {
        let _recorder = recorder;
        if focus.depth == 0 {
            return Err(Halt::Fault(Fault::TooDeep, site));
        }
        let focus = self.in_template(focus);
        self.begin_template(template, passed, focus)?;
        Ok(())
    }

    /// The rule for the current node in a mode begins at once, one level deeper (5.5).
    pub(crate) fn enter_fitting<R: Recorder<Task = Task<'a>>>(
        &mut self,
        rules: Rules<'a>,
        site: Site,
        focus: Focus,
        recorder: &mut R,
    ) -> Result<(), Halt>
        requires holes { IsSome self.old.world.grain → R.takes_holes ≡ true }
        requires node { focus.node < length self.old.world.tree }
        requires passed { AreValues self.old.world.tree rules.passed.values }
        ensures reported { IsStepBy (λ u. self.new)
            (entering_fitting rules.entry.mode rules.entry.passed site focus self.old
            (R.state recorder.old)) result (R.state recorder.new) }
        ensures kept { R.kept recorder.new ≡ R.kept recorder.old }
    {
        if focus.depth == 0 {
            return Err(Halt::Fault(Fault::TooDeep, site));
        }
        let focus = self.in_template(focus);
        let rule = self.rule_for(rules.mode, focus.node)?;
        self.enter_rule(rule, rules, site, focus, recorder)
    }

    /// A rule begins at once: a template, which is then the current rule, or a built-in one.
    fn enter_rule<R: Recorder<Task = Task<'a>>>(
        &mut self,
        rule: Option<u32>,
        rules: Rules<'a>,
        site: Site,
        focus: Focus,
        recorder: &mut R,
    ) -> Result<(), Halt>
        requires holes { IsSome self.old.world.grain → R.takes_holes ≡ true }
        requires node { focus.node < length self.old.world.tree }
        requires passed { AreValues self.old.world.tree rules.passed.values }
        ensures reported { IsStepBy (λ u. self.new)
            (rule_entered rule rules.entry.mode rules.entry.passed site focus self.old
            (R.state recorder.old)) result (R.state recorder.new) }
        ensures kept { R.kept recorder.new ≡ R.kept recorder.old }
    {
        match rule {
            Some(rule) => {
                let focus = focus.by_rule(rule, rules.mode);
                self.enter_template(rule, rules.passed, focus, recorder)
            }
            None => self.begin_built_in(rules.mode, site, focus, recorder),
        }
    }

    /// A template begins at once, by the first instruction of its body where it has no parameters.
    fn enter_template<R: Recorder<Task = Task<'a>>>(
        &mut self,
        template: u32,
        passed: Passed<'a>,
        focus: Focus,
        recorder: &mut R,
    ) -> Result<(), Halt>
        requires holes { IsSome self.old.world.grain → R.takes_holes ≡ true }
        requires node { focus.node < length self.old.world.tree }
        requires passed { AreValues self.old.world.tree passed.values }
        ensures reported { IsStepBy (λ u. self.new) (template_entered
            (slice_get self.old.world.sheet.templates template) passed.entry focus self.old
            (R.state recorder.old)) result (R.state recorder.new) }
        ensures kept { R.kept recorder.new ≡ R.kept recorder.old }
    {
        let sheet = self.sheet;
        let Some(template) = sheet.templates.as_slice().get(template as usize) else {
            return Ok(());
        };
        self.enter_params(template, passed, focus, recorder)
    }

    /// The same of a template that was found: its first parameter, or its body.
    fn enter_params<R: Recorder<Task = Task<'a>>>(
        &mut self,
        template: &'a Template,
        passed: Passed<'a>,
        focus: Focus,
        recorder: &mut R,
    ) -> Result<(), Halt>
        requires holes { IsSome self.old.world.grain → R.takes_holes ≡ true }
        requires node { focus.node < length self.old.world.tree }
        requires passed { AreValues self.old.world.tree passed.values }
        ensures reported { IsStepBy (λ u. self.new) (params_entered template.now.params passed.entry
            template.now.body (outer focus) self.old (R.state recorder.old))
            result (R.state recorder.new) }
        ensures kept { R.kept recorder.new ≡ R.kept recorder.old }
    {
        let params = template.params.as_slice();
        let scope = Scope::outer(focus);
        if params.is_empty() {
            return self.begin_body(&template.body, scope, recorder);
        }
        self.begin_params(template, passed, scope)?;
        Ok(())
    }

    /// The rule that the current one overrides begins, one level deeper (5.6).
    pub(crate) fn enter_overridden<R: Recorder<Task = Task<'a>>>(
        &mut self,
        current: u32,
        site: Site,
        focus: Focus,
        recorder: &mut R,
    ) -> Result<(), Halt>
        requires holes { IsSome self.old.world.grain → R.takes_holes ≡ true }
        requires node { focus.node < length self.old.world.tree }
        ensures reported { IsStepBy (λ u. self.new)
            (entering (overridden current) site focus self.old
            (R.state recorder.old)) result (R.state recorder.new) }
        ensures kept { R.kept recorder.new ≡ R.kept recorder.old }
    {
        if focus.depth == 0 {
            return Err(Halt::Fault(Fault::TooDeep, site));
        }
        let focus = self.in_template(focus);
        let rule = self.import_for(current, focus)?;
        let rules = Rules {
            mode: focus.mode,
            passed: Passed::none(),
        };
        self.begin_rule(rule, rules, site, focus, recorder)
    }

    /// A rule begins: a template, which is then the current rule, or a built-in one.
    fn begin_rule<R: Recorder<Task = Task<'a>>>(
        &mut self,
        rule: Option<u32>,
        rules: Rules<'a>,
        site: Site,
        focus: Focus,
        recorder: &mut R,
    ) -> Result<(), Halt>
        requires holes { IsSome self.old.world.grain → R.takes_holes ≡ true }
        requires node { focus.node < length self.old.world.tree }
        requires passed { AreValues self.old.world.tree rules.passed.values }
        ensures reported { IsStepBy (λ u. self.new)
            (rule_begun rule rules.entry.mode rules.entry.passed site focus self.old
            (R.state recorder.old)) result (R.state recorder.new) }
        ensures kept { R.kept recorder.new ≡ R.kept recorder.old }
    {
        match rule {
            Some(rule) => {
                let focus = focus.by_rule(rule, rules.mode);
                self.begin_template(rule, rules.passed, focus)?;
                Ok(())
            }
            None => self.begin_built_in(rules.mode, site, focus, recorder),
        }
    }

    /// A built-in rule begins (5.8).
    fn begin_built_in<R: Recorder<Task = Task<'a>>>(
        &mut self,
        mode: u32,
        site: Site,
        focus: Focus,
        recorder: &mut R,
    ) -> Result<(), Halt>
        requires holes { IsSome self.old.world.grain → R.takes_holes ≡ true }
        requires node { focus.node < length self.old.world.tree }
        ensures reported { IsStepBy (λ u. self.new)
            (built_in_begun mode site focus
            (at self.old.world.tree focus.node) self.old
            (R.state recorder.old)) result (R.state recorder.new) }
        ensures kept { R.kept recorder.new ≡ R.kept recorder.old }
    {
        match self.tree.kind(Node::at(focus.node)) {
            Kind::Root | Kind::Element => self.apply_to_children(mode, site, focus, recorder),
            Kind::Text | Kind::Attribute => self.put_own_text(site, focus, recorder),
            Kind::Space | Kind::Comment | Kind::Pi => Ok(()),
        }
    }

    /// Templates begin in the same mode for the children of the current node (5.8).
    fn apply_to_children<R: Recorder<Task = Task<'a>>>(
        &mut self,
        mode: u32,
        site: Site,
        focus: Focus,
        recorder: &mut R,
    ) -> Result<(), Halt>
        requires holes { IsSome self.old.world.grain → R.takes_holes ≡ true }
        requires node { focus.node < length self.old.world.tree }
        ensures reported { IsStepBy (λ u. self.new)
            (applied_begun mode no_params site focus
            (children self.old.world.tree focus.node) self.old
            (R.state recorder.old)) result (R.state recorder.new) }
        ensures kept { R.kept recorder.new ≡ R.kept recorder.old }
    {
        let nodes = NodeList::List(self.children(focus)?);
        let rules = Rules {
            mode,
            passed: Passed::none(),
        };
        self.apply(rules, nodes, site, focus, recorder)
    }

    /// The text of the current node is put (5.8).
    fn put_own_text<R: Recorder<Task = Task<'a>>>(
        &self,
        site: Site,
        focus: Focus,
        recorder: &mut R,
    ) -> Result<(), Halt>
        requires node { focus.node < length self.now.world.tree }
        ensures reported { IsStep
            (chars_steps site (at self.now.world.tree focus.node).text (R.state recorder.old))
            result (R.state recorder.new) }
        ensures kept { R.kept recorder.new ≡ R.kept recorder.old }
    {
        let text = Characters::of(self.alloc, self.tree.text(Node::at(focus.node)))?;
        put_text(site, text, recorder)
    }

    /// A template begins, with its parameters.
    #[inline(always)]
    fn begin_template(
        &mut self,
        template: u32,
        passed: Passed<'a>,
        focus: Focus,
    ) -> Result<(), AllocError>
        requires node { focus.node < length self.old.world.tree }
        requires passed { AreValues self.old.world.tree passed.values }
        ensures begun { OnOk result (self.new ≡ template_begun
            (slice_get self.old.world.sheet.templates template) passed.entry focus self.old) }
    {
        let sheet = self.sheet;
        if let Some(template) = sheet.templates.as_slice().get(template as usize) {
            return self.begin_params(template, passed, Scope::outer(focus));
        }
        Ok(())
    }

    /// The parameters of a template begin, or its body where it has none.
    #[inline(always)]
    fn begin_params(
        &mut self,
        template: &'a Template,
        passed: Passed<'a>,
        scope: Scope,
    ) -> Result<(), AllocError>
        requires node { scope.focus.node < length self.old.world.tree }
        requires passed { AreValues self.old.world.tree passed.values }
        ensures begun { OnOk result (self.new ≡ pushed (params_first template.now.params
            passed.entry template.now.body scope ∷ []) self.old) }
    {
        let params = template.params.as_slice();
        if params.is_empty() {
            return self.push_body(&template.body, scope);
        }
        let left = ParamsLeft {
            left: params,
            passed,
            body: &template.body,
            scope,
        };
        self.push(Frame::Params(Box::new(self.alloc, left)?))
    }

    /// Puts the parameters that are left before the others, or else the body.
    #[inline(always)]
    fn push_params(&mut self, left: Box<ParamsLeft<'a>>) -> Result<(), AllocError>
        requires left { IsParams self.old.world.tree left.value }
        ensures pushed { OnOk result (self.new ≡ pushed (params_first left.entry.value.left.now
            left.entry.value.passed left.entry.value.body.now left.entry.value.scope
            ∷ []) self.old) }
    {
        if left.left.is_empty() {
            self.push_body(left.body, left.scope)
        } else {
            self.push(Frame::Params(left))
        }
    }

    /// The next parameter of a template, or its body (11.4).
    pub(crate) fn next_param<R: Recorder<Task = Task<'a>>>(
        &mut self,
        left: Box<ParamsLeft<'a>>,
        recorder: &mut R,
    ) -> Result<(), Halt>
        requires left { IsParams self.old.world.tree left.value }
        ensures reported { IsStepBy (λ u. self.new)
            (advanced (params_work left.entry.value) self.old
            (R.state recorder.old)) result (R.state recorder.new) }
        ensures kept { R.kept recorder.new ≡ R.kept recorder.old }
    {
        match left.left.split_first() {
            None => {
                self.push_body(left.body, left.scope)?;
                Ok(())
            }
            Some((binding, behind)) => {
                let mut left = left;
                left.left = behind;
                self.bind_param(binding, left, recorder)
            }
        }
    }

    /// A parameter gets the value that is passed, or its own, before those that are left.
    fn bind_param<R: Recorder<Task = Task<'a>>>(
        &mut self,
        binding: &'a Binding,
        left: Box<ParamsLeft<'a>>,
        recorder: &mut R,
    ) -> Result<(), Halt>
        requires left { IsParams self.old.world.tree left.value }
        ensures reported { IsStepBy (λ u. self.new)
            (advanced (params_left (binding.now ∷ left.entry.value.left.now) left.entry.value.passed
            left.entry.value.body.now left.entry.value.scope) self.old
            (R.state recorder.old)) result (R.state recorder.new) }
        ensures kept { R.kept recorder.new ≡ R.kept recorder.old }
    {
        let mut left = left;
        let site = binding.site;
        let scope = left.scope;
        recorder.tick(site)?;
        let value = left.passed.value(&binding.name)?;
        left.scope = scope.bound()?;
        self.push_params(left)?;
        match value {
            None => self.bind(&binding.content, site, scope, recorder),
            Some(value) => {
                self.fill(value)?;
                Ok(())
            }
        }
    }
}
