//! What an attribute's value has to be.

ghost use Rattle.std.specs.Prelude.{◌≡◌};
ghost use Rattle.xs_elements.specs.Forms.{sees_locals};
ghost use Rattle.xs_elements.specs.Forms.{forbids_current, forbids_key, forbids_variables};
ghost use Rattle.xs_elements.specs.Forms.{is_pattern};

/// The forms of values.
#[derive(Clone, Copy, PartialEq, Eq)]
pub enum Form {
    /// Any text.
    Anything,
    /// `1.0` (XSLT 1.0, 2.5).
    Version,
    /// An expression (4).
    Expression,
    /// The expression of a key (12.2).
    KeyUse,
    /// The pattern of a template (5.3).
    TemplatePattern,
    /// The pattern of a key (12.2).
    KeyPattern,
    /// A pattern of `xsl:number` (7.7).
    NumberPattern,
    /// A value template (7.6.2).
    ValueTemplate,
    /// `yes` or `no`.
    YesOrNo,
    /// `single`, `multiple` or `any` (7.7).
    Level,
    /// A name (2.4).
    Name,
    /// Names with white space between them.
    Names,
    /// Names of attribute sets with white space between them (7.1.4).
    Sets,
    /// Name tests with white space between them (3.4).
    Tests,
    /// A prefix, or `#default` (7.1.1).
    Prefix,
    /// Prefixes or `#default` with white space between them (7.1.1, 14.1).
    Prefixes,
    /// A number, of at most nine digits before its point and four behind it (5.5).
    Priority,
}

/// Whether this is the form of a pattern.
pub fn is_pattern(form: Form) -> bool
    ensures { result ≡ is_pattern form }
{
    matches!(
        form,
        Form::TemplatePattern | Form::KeyPattern | Form::NumberPattern
    )
}

/// Whether a value of this form may have no variables (5.3, 12.2; of `xsl:number` this project's
/// own).
pub fn forbids_variables(form: Form) -> bool
    ensures { result ≡ forbids_variables form }
{
    matches!(
        form,
        Form::TemplatePattern | Form::KeyPattern | Form::NumberPattern | Form::KeyUse
    )
}

/// Whether a value of this form may not call `current` (12.4).
pub fn forbids_current(form: Form) -> bool
    ensures { result ≡ forbids_current form }
{
    is_pattern(form)
}

/// Whether a value of this form may not call `key` (this project's own).
pub fn forbids_key(form: Form) -> bool
    ensures { result ≡ forbids_key form }
{
    matches!(form, Form::KeyPattern | Form::KeyUse)
}

/// Whether local variables are visible to a value of this form: the element that has it stands in
/// a template.
pub fn sees_locals(form: Form) -> bool
    ensures { result ≡ sees_locals form }
{
    !matches!(
        form,
        Form::TemplatePattern | Form::KeyPattern | Form::KeyUse
    )
}
