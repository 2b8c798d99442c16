//! Elements, attributes, comments and processing instructions (XSLT 1.0, 7.1, 7.3 and 7.4).

ghost use Rattle.std.specs.Prelude.{◌≡◌, ◌<◌, length, OnOk};
ghost use Rattle.xs_body.specs.steps.Frames.{attribute_begun, captured_begun, content_in};
ghost use Rattle.xs_body.specs.steps.Frames.{element_put, inside_begun, literal_inside};
ghost use Rattle.xs_body.specs.steps.Frames.{instruction_begun, last, literal_begun, made_begun};
ghost use Rattle.xs_body.specs.steps.Making.{attribute_steps, attributes_steps, halted};
ghost use Rattle.xs_body.specs.steps.Making.{literal_steps};
ghost use Rattle.xs_body.specs.steps.Making.{made_ended, name_steps, namespace_steps};
ghost use Rattle.xs_body.specs.steps.Making.{target_steps};
ghost use Rattle.xs_making.specs.Names.{result_name};
ghost use Rattle.xs_making.specs.Results.{IsMade};
ghost use Rattle.xs_trace.specs.Play.{IsStep, IsStepBy};

use crate::contents::{content_text, put_made};
use crate::evaluator::Evaluator;
use crate::frames::{AttributesLeft, Frame, Scope};
use crate::literals::{attribute_label, has_no_sets, put_attribute, put_literal_start};
use crate::task::Task;
use std::alloc::AllocError;
use xs_body_spec::finder::Finder;
use xs_body_spec::made::Made;
use xs_making::{MakeEnd, RecentLabels, pi_target, result_name};
use xs_sheet::body::{Body, LiteralStart, MadeName};
use xs_sheet::scoped::ValueTemplate;
use xs_text::TextBuf;
use xs_trace::event::{Event, Label};
use xs_trace::item::Site;
use xs_trace::recorder::{Halt, Recorder};

impl<'a, K: Finder> Evaluator<'a, K> {
    /// A literal element begins: its start, its namespace nodes, and before its content the
    /// attributes of its sets and its own (7.1.1).
    pub(crate) fn begin_literal<R: Recorder<Task = Task<'a>>>(
        &mut self,
        start: &'a LiteralStart,
        body: &'a Body,
        site: Site,
        scope: Scope,
        recorder: &mut R,
    ) -> Result<(), Halt>
        requires node { scope.focus.node < length self.old.world.tree }
        ensures reported { IsStepBy (λ u. self.new)
            (literal_begun start.now body.now site scope self.old
            (R.state recorder.old)) result (R.state recorder.new) }
        ensures kept { R.kept recorder.new ≡ R.kept recorder.old }
    {
        self.put_start(start, site, recorder)?;
        self.begin_inside(start, body, site, scope, recorder)
    }

    /// Puts the start of a literal element and its namespace nodes (7.1.1).
    fn put_start<R: Recorder<Task = Task<'a>>>(
        &mut self,
        start: &LiteralStart,
        site: Site,
        recorder: &mut R,
    ) -> Result<(), Halt>
        ensures reported { IsStep (literal_steps self.old.world.sheet.aliases site start.now
            (R.state recorder.old)) result (R.state recorder.new) }
        ensures kept { R.kept recorder.new ≡ R.kept recorder.old }
        ensures same { self.new ≡ self.old }
    {
        let aliases = self.sheet.aliases.as_slice();
        put_literal_start(aliases, start, site, &mut self.texts, recorder)
    }

    /// What is in a literal element begins: the attributes of its sets and its own, and then its
    /// content. Where there are no sets, its own are put at once.
    #[inline(always)]
    fn begin_inside<R: Recorder<Task = Task<'a>>>(
        &mut self,
        start: &'a LiteralStart,
        body: &'a Body,
        site: Site,
        scope: Scope,
        recorder: &mut R,
    ) -> Result<(), Halt>
        requires node { scope.focus.node < length self.old.world.tree }
        ensures reported { IsStepBy (λ u. self.new)
            (literal_inside start.now body.now site scope self.old
            (R.state recorder.old)) result (R.state recorder.new) }
        ensures kept { R.kept recorder.new ≡ R.kept recorder.old }
    {
        self.push_content(body, scope)?;
        if has_no_sets(start) {
            return self.put_own(start, site, scope, recorder);
        }
        self.push(Frame::Attributes(AttributesLeft {
            attributes: start.attributes.as_slice(),
            site,
            scope,
        }))?;
        self.push_sets(start.sets.as_slice(), scope.focus)?;
        Ok(())
    }

    /// Puts the attributes of a literal element at once.
    fn put_own<R: Recorder<Task = Task<'a>>>(
        &mut self,
        start: &'a LiteralStart,
        site: Site,
        scope: Scope,
        recorder: &mut R,
    ) -> Result<(), Halt>
        requires node { scope.focus.node < length self.old.world.tree }
        ensures reported { IsStep (attributes_steps self.old.world site scope.focus
            (last scope.seen self.old.slots) start.now.attributes (R.state recorder.old))
            result (R.state recorder.new) }
        ensures kept { R.kept recorder.new ≡ R.kept recorder.old }
        ensures same { self.new ≡ self.old }
    {
        let left = AttributesLeft {
            attributes: start.attributes.as_slice(),
            site,
            scope,
        };
        self.put_attributes(left, recorder)
    }

    /// Puts the content of an element and its end before what else is to be done.
    fn push_content(&mut self, body: &'a Body, scope: Scope) -> Result<(), AllocError>
        requires node { scope.focus.node < length self.old.world.tree }
        ensures pushed { OnOk result (self.new ≡ content_in body.now scope self.old) }
    {
        self.push(Frame::End)?;
        self.push_rest(body.instrs.as_slice(), scope.inner())
    }

    /// Puts the attributes of a literal element, in their order (7.1.1).
    #[inline(always)]
    pub(crate) fn put_attributes<R: Recorder<Task = Task<'a>>>(
        &mut self,
        all: AttributesLeft<'a>,
        recorder: &mut R,
    ) -> Result<(), Halt>
        requires node { all.scope.focus.node < length self.old.world.tree }
        ensures reported { IsStep (attributes_steps self.old.world all.entry.site
            all.entry.scope.focus (last all.entry.scope.seen self.old.slots)
            all.entry.attributes.now (R.state recorder.old)) result (R.state recorder.new) }
        ensures kept { R.kept recorder.new ≡ R.kept recorder.old }
        ensures same { self.new ≡ self.old }
    {
        let mut left = all.attributes;
        while let Some((attribute, others)) = left.split_first() {
            self.put_literal(attribute, all.site, all.scope, recorder)?;
            left = others;
        }
        Ok(())
    }

    /// Puts an attribute of a literal element.
    fn put_literal<R: Recorder<Task = Task<'a>>>(
        &mut self,
        attribute: &(Label, ValueTemplate),
        site: Site,
        scope: Scope,
        recorder: &mut R,
    ) -> Result<(), Halt>
        requires node { scope.focus.node < length self.old.world.tree }
        ensures reported { IsStep (attribute_steps self.old.world site scope.focus
            (last scope.seen self.old.slots) attribute.now (R.state recorder.old))
            result (R.state recorder.new) }
        ensures kept { R.kept recorder.new ≡ R.kept recorder.old }
        ensures same { self.new ≡ self.old }
    {
        let value = self.lend_template(&attribute.1, site, scope, recorder)?;
        let value = self.texts.text_of(value)?;
        let aliases = self.sheet.aliases.as_slice();
        let name = attribute_label(aliases, &attribute.0, &mut self.texts)?;
        put_attribute(name, value, site, recorder)
    }

    /// An element begins, with the attributes of its sets before its content (7.1.2).
    pub(crate) fn begin_element<R: Recorder<Task = Task<'a>>>(
        &mut self,
        name: Label,
        sets: &'a [Label],
        body: &'a Body,
        scope: Scope,
        recorder: &mut R,
    ) -> Result<(), Halt>
        requires node { scope.focus.node < length self.old.world.tree }
        ensures reported { IsStepBy (λ u. self.new)
            (element_put name sets.now body.now scope self.old
            (R.state recorder.old)) result (R.state recorder.new) }
        ensures kept { R.kept recorder.new ≡ R.kept recorder.old }
    {
        recorder.put(Event::Start(name))?;
        self.push_inside(sets, body, scope)?;
        Ok(())
    }

    /// What is in an element begins: the attributes of its sets, its content, its end.
    pub(crate) fn push_inside(
        &mut self,
        sets: &'a [Label],
        body: &'a Body,
        scope: Scope,
    ) -> Result<(), AllocError>
        requires node { scope.focus.node < length self.old.world.tree }
        ensures begun { OnOk result
            (self.new ≡ inside_begun sets.now body.now scope self.old) }
    {
        self.push_content(body, scope)?;
        self.push_sets(sets, scope.focus)
    }

    /// An attribute begins: its name is made before its content (7.1.3).
    pub(crate) fn begin_attribute<R: Recorder<Task = Task<'a>>>(
        &mut self,
        name: &MadeName,
        body: &'a Body,
        site: Site,
        scope: Scope,
        recorder: &mut R,
    ) -> Result<(), Halt>
        requires node { scope.focus.node < length self.old.world.tree }
        ensures reported { IsStepBy (λ u. self.new)
            (attribute_begun name.now body.now site scope self.old
            (R.state recorder.old)) result (R.state recorder.new) }
        ensures kept { R.kept recorder.new ≡ R.kept recorder.old }
    {
        let name = self.made_name(name, true, site, scope, recorder)?;
        self.begin_made(Made::Attribute(name), body, site, scope, recorder)
    }

    /// A processing instruction begins: its target is made before its content (7.3).
    pub(crate) fn begin_instruction<R: Recorder<Task = Task<'a>>>(
        &mut self,
        name: &ValueTemplate,
        body: &'a Body,
        site: Site,
        scope: Scope,
        recorder: &mut R,
    ) -> Result<(), Halt>
        requires node { scope.focus.node < length self.old.world.tree }
        ensures reported { IsStepBy (λ u. self.new)
            (instruction_begun name.now body.now site scope self.old
            (R.state recorder.old)) result (R.state recorder.new) }
        ensures kept { R.kept recorder.new ≡ R.kept recorder.old }
    {
        let target = self.made_target(name, site, scope, recorder)?;
        self.begin_made(Made::Instruction(target), body, site, scope, recorder)
    }

    /// The content begins of what is made of its text. Where it is one text, that is put at once.
    pub(crate) fn begin_made<R: Recorder<Task = Task<'a>>>(
        &mut self,
        made: Made,
        body: &'a Body,
        site: Site,
        scope: Scope,
        recorder: &mut R,
    ) -> Result<(), Halt>
        requires node { scope.focus.node < length self.old.world.tree }
        ensures reported { IsStepBy (λ u. self.new)
            (made_begun made body.now site scope self.old
            (R.state recorder.old)) result (R.state recorder.new) }
        ensures kept { R.kept recorder.new ≡ R.kept recorder.old }
    {
        let found = self.lone_text(body, scope, recorder)?;
        match found {
            Some(text) => put_made(self.alloc, made, text, site, recorder),
            None => self.begin_captured(made, body, site, scope, recorder),
        }
    }

    /// The content begins of what is made of its text, which is captured.
    #[inline(never)]
    fn begin_captured<R: Recorder<Task = Task<'a>>>(
        &mut self,
        made: Made,
        body: &'a Body,
        site: Site,
        scope: Scope,
        recorder: &mut R,
    ) -> Result<(), Halt>
        requires node { scope.focus.node < length self.old.world.tree }
        ensures reported { IsStepBy (λ u. self.new)
            (captured_begun made body.now site scope self.old
            (R.state recorder.old)) result (R.state recorder.new) }
        ensures kept { R.kept recorder.new ≡ R.kept recorder.old }
    {
        recorder.open_capture()?;
        self.push(Frame::Make(made, site))?;
        self.push_body(body, scope.in_capture())?;
        Ok(())
    }

    /// That content has ended: what is made of its text is put.
    pub(crate) fn end_made<R: Recorder<Task = Task<'a>>>(
        &self,
        made: Made,
        site: Site,
        recorder: &mut R,
    ) -> Result<(), Halt>
        ensures reported { IsStep (made_ended made site (R.state recorder.old))
            result (R.state recorder.new) }
        ensures kept { R.kept recorder.new ≡ R.kept recorder.old }
    {
        let content = recorder.close_capture();
        let text = content_text(self.alloc, content.events())?;
        put_made(self.alloc, made, text, site, recorder)
    }

    /// The name that an instruction makes: its text, then its namespace (7.1.2, 7.1.3).
    #[inline(always)]
    pub(crate) fn made_name<R: Recorder<Task = Task<'a>>>(
        &mut self,
        name: &MadeName,
        is_attribute: bool,
        site: Site,
        scope: Scope,
        recorder: &mut R,
    ) -> Result<Label, Halt>
        requires node { scope.focus.node < length self.old.world.tree }
        ensures reported { IsStepBy (λ label. label) (name_steps self.old.world site scope.focus
            (last scope.seen self.old.slots) is_attribute name.now (R.state recorder.old))
            result (R.state recorder.new) }
        ensures kept { R.kept recorder.new ≡ R.kept recorder.old }
        ensures same { self.new ≡ self.old }
    {
        let text = self.lend_template(&name.name, site, scope, recorder)?;
        let uri = self.namespace(&name.namespace, site, scope, recorder)?;
        let made = named(name, is_attribute, text.as_str(), &uri, &mut self.labels);
        made_at(site, made)
    }

    /// The target of a processing instruction (7.3).
    fn made_target<R: Recorder<Task = Task<'a>>>(
        &self,
        name: &ValueTemplate,
        site: Site,
        scope: Scope,
        recorder: &mut R,
    ) -> Result<TextBuf, Halt>
        requires node { scope.focus.node < length self.now.world.tree }
        ensures reported { IsStepBy (λ target. target) (target_steps self.now.world site scope.focus
            (last scope.seen self.now.slots) name.now (R.state recorder.old))
            result (R.state recorder.new) }
        ensures kept { R.kept recorder.new ≡ R.kept recorder.old }
    {
        let text = self.lend_template(name, site, scope, recorder)?;
        made_at(site, pi_target(self.alloc, text.as_str()))
    }

    /// The namespace that is given for a name, if one is.
    #[inline(always)]
    fn namespace<R: Recorder<Task = Task<'a>>>(
        &self,
        namespace: &Option<ValueTemplate>,
        site: Site,
        scope: Scope,
        recorder: &mut R,
    ) -> Result<Option<TextBuf>, Halt>
        requires node { scope.focus.node < length self.now.world.tree }
        ensures reported { IsStepBy (λ uri. uri) (namespace_steps self.now.world site scope.focus
            (last scope.seen self.now.slots) namespace.now (R.state recorder.old))
            result (R.state recorder.new) }
        ensures kept { R.kept recorder.new ≡ R.kept recorder.old }
    {
        match namespace {
            None => Ok(None),
            Some(namespace) => Ok(Some(self.template(namespace, site, scope, recorder)?)),
        }
    }
}

/// The name that a text is, with the namespace that is given, if one is.
#[inline(always)]
fn named(
    name: &MadeName,
    is_attribute: bool,
    text: &str,
    uri: &Option<TextBuf>,
    labels: &mut RecentLabels,
) -> Result<Label, MakeEnd>
    ensures { IsMade (result_name name.now.scope is_attribute uri.now text.now) result }
{
    let uri = match uri {
        None => None,
        Some(uri) => Some(uri.as_str()),
    };
    let scope = name.scope.scope();
    result_name(labels, text, uri, scope, is_attribute)
}

/// What was made, or the fault at an instruction.
#[inline(always)]
fn made_at<T>(site: Site, made: Result<T, MakeEnd>) -> Result<T, Halt>
    ensures { result ≡ halted site made }
{
    match made {
        Ok(made) => Ok(made),
        Err(MakeEnd::Fault(fault)) => Err(Halt::Fault(fault, site)),
        Err(MakeEnd::NoMemory) => Err(Halt::NoMemory),
    }
}
