//! Parameters that are passed to a template (XSLT 1.0, 11.6).

ghost use Rattle.std.specs.Prelude.{◌≡◌, IfOk, option_map, None, Some, if◌then◌else◌};
ghost use Rattle.std.specs.Str.{bytes_eq};
ghost use Rattle.xs_body.specs.steps.Passed.{values_of};
ghost use Rattle.xs_body_spec.specs.Tasks.{last_passed, no_params, value_passed};
ghost use Rattle.xs_sheet.specs.Sets.{is_same_label};

use crate::tasks::copied_values;
use std::alloc::{AllocError, Global};
use std::marker::Model;
use std::sync::Arc;
use xs_sheet::body::Binding;
use xs_trace::event::Label;
use xs_value::value::Value;

/// The values that are passed.
#[derive(Drop)]
pub enum PassedValues {
    /// None.
    None,
    /// Those of one template.
    Own(Vec<Value>),
    /// Those that several templates share.
    Shared(Arc<Vec<Value>>),
}

impl PassedValues {
    /// The values.
    fn values(&self) -> &[Value]
        ensures { result.now ≡ values_of self.now }
    {
        match self {
            PassedValues::None => &[],
            PassedValues::Own(values) => values.as_slice(),
            PassedValues::Shared(values) => values.as_slice(),
        }
    }
}

/// Parameters with their values. Contracts see them as both lists.
#[derive(Drop)]
pub struct Passed<'a> {
    bindings: &'a [Binding],
    values: PassedValues,
}

impl<'a> Model for Passed<'a> {
    ghost use Rattle.std.specs.Coded.{codes};
    ghost use Rattle.xs_sheet.specs.contracts.body.Content as content;
    ghost use Rattle.xs_body_spec.specs.Tasks.{Params};

    ghost Value = { Params };

    ghost coded = { Prim.hlevel (codes, content.the_row.coded) };

    ghost use Rattle.xs_body.specs.steps.Passed.{values_of};

    ghost view = { λ p. record {
      bindings = p.bindings.now;
      values = values_of p.values;
    } };
}

impl<'a> Passed<'a> {
    /// No parameters.
    pub(crate) fn none() -> Passed<'a>
        ensures { result ≡ no_params }
    {
        Passed {
            bindings: &[],
            values: PassedValues::None,
        }
    }

    /// These parameters, with these values.
    pub(crate) fn of(bindings: &'a [Binding], values: Vec<Value>) -> Passed<'a>
        ensures { result ≡ record { bindings = bindings.now; values = values.items } }
    {
        Passed {
            bindings,
            values: PassedValues::Own(values),
        }
    }

    /// The same for several templates: each further copy takes constant time.
    pub(crate) fn shared(self, alloc: Global) -> Result<Passed<'a>, AllocError>
        ensures { IfOk result (λ shared. shared ≡ self.entry) }
    {
        let Passed { bindings, values } = self;
        let values = match values {
            PassedValues::Own(values) => share(alloc, values)?,
            values => values,
        };
        Ok(Passed { bindings, values })
    }

    /// The same, in constant time where it is shared.
    #[inline(always)]
    pub(crate) fn copy(&self, alloc: Global) -> Result<Passed<'a>, AllocError>
        ensures { IfOk result (λ copy. copy ≡ self.now) }
    {
        Ok(Passed {
            bindings: self.bindings,
            values: copy_of(alloc, &self.values)?,
        })
    }

    /// The value that is passed for a name; of several of one name it is the last.
    #[inline(always)]
    pub(crate) fn value(&self, name: &Label) -> Result<Option<Value>, AllocError>
        ensures value { IfOk result (λ value. value ≡ value_passed name.now self.now) }
    {
        match last_passed(name, self.bindings, self.values.values()) {
            Some(value) => Ok(Some(value.copy()?)),
            None => Ok(None),
        }
    }
}

/// Values that several templates share; of none there is nothing to share.
fn share(alloc: Global, values: Vec<Value>) -> Result<PassedValues, AllocError>
    ensures { IfOk result (λ shared. values_of shared ≡ values.items) }
{
    if values.is_empty() {
        return Ok(PassedValues::None);
    }
    Ok(PassedValues::Shared(Arc::new(alloc, values)?))
}

/// The same values, in constant time where they are shared.
#[inline(always)]
fn copy_of(alloc: Global, values: &PassedValues) -> Result<PassedValues, AllocError>
    ensures { IfOk result (λ copy. values_of copy ≡ values_of values.now) }
{
    match values {
        PassedValues::None => Ok(PassedValues::None),
        PassedValues::Own(values) => Ok(PassedValues::Own(copied_values(
            alloc,
            values.as_slice(),
        )?)),
        PassedValues::Shared(values) => Ok(PassedValues::Shared(Arc::try_clone(values)?)),
    }
}

/// The last value with a name.
fn last_passed<'v>(name: &Label, bindings: &[Binding], values: &'v [Value]) -> Option<&'v Value>
    ensures { option_map (λ v. v.now) result
        ≡ last_passed name.now None bindings.now values.now }
{
    let mut found = None;
    let mut bindings = bindings;
    let mut values = values;
    while let Some((binding, other_bindings)) = bindings.split_first() {
        let Some((value, other_values)) = values.split_first() else {
            return found;
        };
        found = value_if(is_same_label(name, &binding.name), value, found);
        bindings = other_bindings;
        values = other_values;
    }
    found
}

/// A value, or the one found before.
fn value_if<'v>(is_wanted: bool, value: &'v Value, found: Option<&'v Value>) -> Option<&'v Value>
    ensures { option_map (λ v. v.now) result
        ≡ (if is_wanted then Some value.now else option_map (λ v. v.now) found.entry) }
{
    if is_wanted { Some(value) } else { found }
}

/// Whether two names are the same. Their local parts, which differ more often, are compared first.
#[inline(always)]
fn is_same_label(left: &Label, right: &Label) -> bool
    ensures { result ≡ is_same_label left.now right.now }
{
    is_same_text(left.local(), right.local()) && is_same_text(left.uri(), right.uri())
}

/// Whether two texts are the same.
#[inline(always)]
fn is_same_text(left: &str, right: &str) -> bool
    ensures { result ≡ bytes_eq left.now right.now }
{
    left.len() == right.len() && left == right
}
