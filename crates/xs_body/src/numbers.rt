//! Numbers that are put (XSLT 1.0, 7.7).

ghost use Rattle.std.specs.Prelude.{◌≡◌, ◌<◌, length, IfOk, Ok, Some, option_map};
ghost use Rattle.xs_body.specs.steps.Frames.{last, number_steps};
ghost use Rattle.xs_body.specs.steps.Numbers.{formatting_of, numbered_of};
ghost use Rattle.xs_pattern_spec.specs.Counted.{number_list};
ghost use Rattle.xs_eval_spec.specs.Results.{given, numeric};
ghost use Rattle.xs_num.specs.Text.{number_in};
ghost use Rattle.xs_body_spec.specs.Numbers.{format_run, formatting_run, group_in, numbered_by};
ghost use Rattle.xs_body_spec.specs.Numbers.{optional_run, size_from, written};
ghost use Rattle.xs_body_spec.specs.World.{numeric_run};
ghost use Rattle.xs_sort.specs.Given.{IsGiven};
ghost use Rattle.xs_trace.specs.Play.{IsStep, IsStepBy};
ghost use Rattle.xs_trace.specs.Run.{limited};
ghost use Rattle.xs_value.specs.Conversion.{IsIn, number_value};

use crate::evaluator::Evaluator;
use crate::frames::Scope;
use crate::putting::put_text;
use crate::task::Task;
use std::alloc::{AllocError, Global};
use xs_body_spec::finder::Finder;
use xs_body_spec::focus::Focus;
use xs_num::number::{Num, Number};
use xs_num::reading::read_num;
use xs_numbering::formatting::{list_text, value_text};
use xs_sheet::body::NumberDecl;
use xs_sheet::scoped::{ScopedExpr, ValueTemplate};
use xs_text::{Characters, TextBuf};
use xs_trace::fault::Fault;
use xs_trace::item::Site;
use xs_trace::recorder::{Halt, Recorder, Tally};
use xs_tree::Node;
use xs_value::conversion::to_number;
use xs_value::value::{Value, ValueFault};

/// What is put: the number that `value` gives, or the numbers that are counted.
#[derive(Drop)]
enum Numbered {
    Value(Num),
    Counted(Vec<u64>),
}

/// How numbers are written (7.7.1).
#[derive(Drop)]
struct Formatting {
    format: TextBuf,
    // The separator and the size of groups.
    group: Option<(TextBuf, u64)>,
}

impl<'a, K: Finder> Evaluator<'a, K> {
    /// Puts a number (7.7).
    pub(crate) fn put_number<R: Recorder<Task = Task<'a>>>(
        &self,
        decl: &NumberDecl,
        site: Site,
        scope: Scope,
        recorder: &mut R,
    ) -> Result<(), Halt>
        requires node { scope.focus.node < length self.now.world.tree }
        ensures reported { IsStep (number_steps decl.now site scope self.now
            (R.state recorder.old)) result (R.state recorder.new) }
        ensures kept { R.kept recorder.new ≡ R.kept recorder.old }
    {
        let numbered = self.numbered(decl, site, scope, recorder)?;
        let formatting = self.formatting(decl, site, scope, recorder)?;
        let text = formatting.text_of(self.alloc, &numbered)?;
        put_text(site, text, recorder)
    }

    /// The number that `value` gives, or the numbers that are counted for the current node.
    fn numbered<T: Tally>(
        &self,
        decl: &NumberDecl,
        site: Site,
        scope: Scope,
        tally: &mut T,
    ) -> Result<Numbered, Halt>
        requires node { scope.focus.node < length self.now.world.tree }
        ensures reported { IsStepBy (λ n. numbered_of n) (limited site
            (numbered_by self.now.world decl.now.value decl.now scope.focus
            (last scope.seen self.now.slots)) (T.state tally.old)) result (T.state tally.new) }
        ensures kept { T.kept tally.new ≡ T.kept tally.old }
    {
        match &decl.value {
            Some(value) => {
                let number = self.number(value, site, scope, tally)?;
                Ok(Numbered::Value(number))
            }
            None => {
                let list = self.counted(decl, site, scope.focus)?;
                Ok(Numbered::Counted(list))
            }
        }
    }

    /// The numbers that are counted for the current node.
    fn counted(&self, decl: &NumberDecl, site: Site, focus: Focus) -> Result<Vec<u64>, AllocError>
        requires node { focus.node < length self.now.world.tree }
        ensures { IfOk result (λ list. list.items
            ≡ number_list self.now.world.keys self.now.world.tree decl.now focus.node) }
    {
        let node = Node::at(focus.node);
        self.finder.numbers_of(self.alloc, site, decl, node)
    }

    /// The value of an expression as a number.
    fn number<T: Tally>(
        &self,
        expr: &ScopedExpr,
        site: Site,
        scope: Scope,
        tally: &mut T,
    ) -> Result<Num, Halt>
        requires node { scope.focus.node < length self.now.world.tree }
        ensures reported { IsStep (limited site
            (numeric_run self.now.world expr.now scope.focus (last scope.seen self.now.slots))
            (T.state tally.old)) result (T.state tally.new) }
        ensures kept { T.kept tally.new ≡ T.kept tally.old }
    {
        let value = self.value(expr, site, scope, tally)?;
        self.number_in(&value, site)
    }

    /// A value as a number.
    fn number_in(&self, value: &Value, site: Site) -> Result<Num, Halt>
        requires { IsIn self.now.world.tree value.now }
        ensures { IsGiven site (given (numeric (number_value self.now.world.tree value.now)))
            result }
    {
        match to_number(self.alloc, self.tree, value) {
            Ok(number) => Ok(number),
            Err(ValueFault::Fraction) => Err(Halt::Fault(Fault::Fraction, site)),
            Err(ValueFault::Range) => Err(Halt::Fault(Fault::Range, site)),
            Err(ValueFault::NoMemory) => Err(Halt::NoMemory),
        }
    }

    /// The format, and then the separator and the size of groups (7.7.1).
    fn formatting<T: Tally>(
        &self,
        decl: &NumberDecl,
        site: Site,
        scope: Scope,
        tally: &mut T,
    ) -> Result<Formatting, Halt>
        requires node { scope.focus.node < length self.now.world.tree }
        ensures reported { IsStepBy (λ z. formatting_of z) (limited site
            (formatting_run self.now.world decl.now scope.focus
            (last scope.seen self.now.slots)) (T.state tally.old)) result (T.state tally.new) }
        ensures kept { T.kept tally.new ≡ T.kept tally.old }
    {
        let format = self.format(&decl.format, site, scope, tally)?;
        let separator = self.optional(&decl.grouping_separator, site, scope, tally)?;
        let size = self.optional(&decl.grouping_size, site, scope, tally)?;
        let group = group_in(separator, size);
        Ok(Formatting { format, group })
    }

    /// The format; where it is absent, `1`.
    fn format<T: Tally>(
        &self,
        format: &Option<ValueTemplate>,
        site: Site,
        scope: Scope,
        tally: &mut T,
    ) -> Result<TextBuf, Halt>
        requires node { scope.focus.node < length self.now.world.tree }
        ensures reported { IsStepBy (λ text. text) (limited site (format_run self.now.world
            format.now scope.focus (last scope.seen self.now.slots))
            (T.state tally.old)) result (T.state tally.new) }
        ensures kept { T.kept tally.new ≡ T.kept tally.old }
    {
        match format {
            Some(format) => self.template(format, site, scope, tally),
            None => Ok(TextBuf::of(self.alloc, "1")?),
        }
    }

    /// The text of a value template, if it is there.
    fn optional<T: Tally>(
        &self,
        template: &Option<ValueTemplate>,
        site: Site,
        scope: Scope,
        tally: &mut T,
    ) -> Result<Option<TextBuf>, Halt>
        requires node { scope.focus.node < length self.now.world.tree }
        ensures reported { IsStepBy (λ text. text) (limited site (optional_run self.now.world
            template.now scope.focus (last scope.seen self.now.slots))
            (T.state tally.old)) result (T.state tally.new) }
        ensures kept { T.kept tally.new ≡ T.kept tally.old }
    {
        match template {
            Some(template) => Ok(Some(self.template(template, site, scope, tally)?)),
            None => Ok(None),
        }
    }
}

impl Formatting {
    /// The text of what is put.
    fn text_of(&self, alloc: Global, numbered: &Numbered) -> Result<Characters, AllocError>
        ensures { IfOk result (λ text. text
            ≡ written (numbered_of numbered.now) (formatting_of self.now)) }
    {
        let format = self.format.as_str();
        let group = self.group();
        match numbered {
            Numbered::Value(number) => {
                Characters::from_string(value_text(alloc, *number, format, group)?)
            }
            Numbered::Counted(list) => {
                Characters::from_string(list_text(alloc, list.as_slice(), format, group)?)
            }
        }
    }

    /// The separator and the size of groups.
    fn group(&self) -> Option<(&str, u64)>
        ensures { option_map (λ g. (g.0.now, g.1)) result ≡ self.now.group }
    {
        match &self.group {
            Some((separator, size)) => Some((separator.as_str(), *size)),
            None => None,
        }
    }
}

/// The separator and the size of groups; one of them alone has no effect.
fn group_in(separator: Option<TextBuf>, size: Option<TextBuf>) -> Option<(TextBuf, u64)>
    ensures { result ≡ group_in separator size }
{
    match separator {
        None => None,
        Some(separator) => group_by(separator, size),
    }
}

/// The same with a separator.
fn group_by(separator: TextBuf, size: Option<TextBuf>) -> Option<(TextBuf, u64)>
    ensures { result ≡ group_in (Some separator) size }
{
    match size {
        None => None,
        Some(size) => match size_in(&size) {
            None => None,
            Some(size) => Some((separator, size)),
        },
    }
}

/// The size of groups: a whole number of at least 1; by any other text no groups are made.
fn size_in(text: &TextBuf) -> Option<u64>
    ensures { result ≡ size_from (number_in text.now) }
{
    match read_num(text.as_str()) {
        Ok(number) => whole_size(number),
        Err(_) => None,
    }
}

/// The same of a number.
fn whole_size(number: Num) -> Option<u64>
    ensures { result ≡ size_from (Ok number) }
{
    match number.get() {
        Number::Whole(value) => {
            if value < 1 {
                return None;
            }
            Some(value as u64)
        }
        Number::NaN => None,
    }
}
