//! Attribute value templates (XSLT 1.0, 7.6.2).

ghost use Rattle.std.specs.Prelude.{◌≡◌, [], ◌∷◌, ◌++◌, IfOk, IfSome};
ghost use Rattle.std.specs.Cow.{cow_str_bytes};
ghost use Rattle.std.specs.String.{string_bytes};
ghost use Rattle.xs_trace.specs.Play.{IsStepBy};
ghost use Rattle.xs_trace.specs.Run.{limited};
ghost use Rattle.xs_xpath.specs.AvtParts.{part_from, parts_from};
ghost use Rattle.xs_xpath.specs.declared.avt.AvtPart.TheVariants.{Fixed};
ghost use Rattle.xs_eval_spec.specs.Conditions.{IsContext};
ghost use Rattle.xs_eval_spec.specs.Templates.{and_part, template};

use crate::evaluator::Evaluator;
use std::alloc::{AllocError, Global};
use std::borrow::CowStr;
use xs_eval_spec::context::Context;
use xs_text::TextBuf;
use xs_trace::item::Site;
use xs_trace::recorder::{Halt, Tally};
use xs_value::conversion::{lend_text, own_text};
use xs_value::keys::KeyFinder;
use xs_xpath::avt::AvtPart;

/// The text of a value template, in memory of its own: the texts of its parts, one after another.
/// It ends as the first part that has another end than a value.
pub fn evaluate_avt<K: KeyFinder, T: Tally>(
    alloc: Global,
    parts: &[AvtPart],
    context: &Context<'_>,
    keys: &K,
    site: Site,
    tally: &mut T,
) -> Result<TextBuf, Halt>
    requires context { IsContext (K.tables keys.now) context.now }
    ensures reported { IsStepBy (λ text. text) (limited site
        (template (K.tables keys.now) (parts_from parts.now) context.now)
        (T.state tally.old)) result (T.state tally.new) }
    ensures kept { T.kept tally.new ≡ T.kept tally.old }
{
    let text = lend_avt(alloc, parts, context, keys, site, tally)?;
    Ok(own_text(alloc, text)?)
}

/// The text of a value template; fixed text alone is lent.
#[inline(always)]
pub fn lend_avt<'t, K: KeyFinder, T: Tally>(
    alloc: Global,
    parts: &'t [AvtPart],
    context: &Context<'_>,
    keys: &K,
    site: Site,
    tally: &mut T,
) -> Result<CowStr<'t, Global>, Halt>
    requires context { IsContext (K.tables keys.now) context.now }
    ensures reported { IsStepBy (λ text. cow_str_bytes text) (limited site
        (template (K.tables keys.now) (parts_from parts.now) context.now)
        (T.state tally.old)) result (T.state tally.new) }
    ensures kept { T.kept tally.new ≡ T.kept tally.old }
{
    match fixed_alone(parts) {
        Some(text) => Ok(CowStr::Borrowed(text)),
        None => {
            let evaluator = Evaluator { alloc, keys, site };
            Ok(CowStr::Owned(evaluator.evaluate_parts(parts, context, tally)?))
        }
    }
}

// The text of a template that is fixed text alone.
#[inline(always)]
fn fixed_alone(parts: &[AvtPart]) -> Option<&str>
    ensures { IfSome result (λ text. parts.now ≡ Fixed text.now ∷ []) }
{
    match parts {
        [AvtPart::Fixed(text)] => Some(text.as_str()),
        _ => None,
    }
}

impl<K: KeyFinder> Evaluator<'_, K> {
    // The texts of parts, one after another.
    #[inline(never)]
    fn evaluate_parts<T: Tally>(
        &self,
        parts: &[AvtPart],
        context: &Context<'_>,
        tally: &mut T,
    ) -> Result<String, Halt>
        requires context { IsContext (K.tables self.now.keys.now) context.now }
        ensures reported { IsStepBy (λ text. string_bytes text) (limited self.now.site
            (template (K.tables self.now.keys.now) (parts_from parts.now) context.now)
            (T.state tally.old)) result (T.state tally.new) }
        ensures kept { T.kept tally.new ≡ T.kept tally.old }
    {
        let mut text = String::new(self.alloc);
        for part in parts {
            text = self.add_part(part, text, context, tally)?;
        }
        Ok(text)
    }

    // The text of a part, after what is before it.
    fn add_part<T: Tally>(
        &self,
        part: &AvtPart,
        text: String,
        context: &Context<'_>,
        tally: &mut T,
    ) -> Result<String, Halt>
        requires context { IsContext (K.tables self.now.keys.now) context.now }
        ensures reported { IsStepBy (λ t. string_bytes t) (limited self.now.site
            (and_part (K.tables self.now.keys.now) context.now (string_bytes text)
            (part_from part.now))
            (T.state tally.old)) result (T.state tally.new) }
        ensures kept { T.kept tally.new ≡ T.kept tally.old }
    {
        match part {
            AvtPart::Fixed(fixed) => Ok(with_text(text, fixed.as_str())?),
            AvtPart::Computed(expr) => {
                let v = self.evaluate(expr, context, tally)?;
                let more = lend_text(self.alloc, context.tree, &v)?;
                Ok(with_text(text, more.as_str())?)
            }
        }
    }
}

// A text and more after it.
fn with_text(text: String, more: &str) -> Result<String, AllocError>
    ensures text { IfOk result (λ t. string_bytes t ≡ string_bytes text ++ more.now) }
{
    let mut text = text;
    text.push_str(more)?;
    Ok(text)
}
