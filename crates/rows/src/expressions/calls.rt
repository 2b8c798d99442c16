//! The calls that rows make, and their names.

use crate::expressions::parsed::Form;

/// What a call is about.
pub(crate) enum Subject {
    /// Values.
    Evaluated,
    /// What a text is parsed to in a form.
    Parsed(Form),
    /// Scopes and axes.
    Found,
    /// Values that the row writes.
    Values,
    /// Numbers.
    Numbers,
    /// Strings.
    Strings,
}

/// A call.
#[derive(Clone, Copy)]
pub(crate) enum Call {
    Value,
    Compare,
    Text,
    Expression,
    Pattern,
    Template,
    Bound,
    Long,
    Uri,
    Uris,
    Axis,
    Match,
    MatchFaulty,
    MatchAt,
    Table,
    Count,
    Marks,
    Convert,
    Compared,
    Join,
    Gather,
    Number,
    Negate,
    Add,
    Subtract,
    Multiply,
    Divide,
    Remainder,
    Order,
    StringLength,
    NormalizeSpace,
    Substring,
    SubstringBefore,
    SubstringAfter,
    Translate,
}

/// The names of the calls, with what each is about.
pub(crate) const CALLS: &[(&str, (Subject, Call))] = &[
    ("value", (Subject::Evaluated, Call::Value)),
    ("compare", (Subject::Evaluated, Call::Compare)),
    ("text", (Subject::Evaluated, Call::Text)),
    (
        "expression",
        (Subject::Parsed(Form::Expression), Call::Expression),
    ),
    ("pattern", (Subject::Parsed(Form::Pattern), Call::Pattern)),
    (
        "template",
        (Subject::Parsed(Form::Template), Call::Template),
    ),
    ("bound", (Subject::Parsed(Form::Bound), Call::Bound)),
    ("long", (Subject::Parsed(Form::Expression), Call::Long)),
    ("uri", (Subject::Found, Call::Uri)),
    ("uris", (Subject::Found, Call::Uris)),
    ("axis", (Subject::Found, Call::Axis)),
    ("match", (Subject::Parsed(Form::Pattern), Call::Match)),
    (
        "match-faulty",
        (Subject::Parsed(Form::Pattern), Call::MatchFaulty),
    ),
    ("match-at", (Subject::Parsed(Form::Pattern), Call::MatchAt)),
    ("table", (Subject::Parsed(Form::Pattern), Call::Table)),
    ("count", (Subject::Parsed(Form::Pattern), Call::Count)),
    ("marks", (Subject::Parsed(Form::Pattern), Call::Marks)),
    ("convert", (Subject::Values, Call::Convert)),
    ("compared", (Subject::Values, Call::Compared)),
    ("join", (Subject::Values, Call::Join)),
    ("gather", (Subject::Values, Call::Gather)),
    ("number", (Subject::Numbers, Call::Number)),
    ("negate", (Subject::Numbers, Call::Negate)),
    ("add", (Subject::Numbers, Call::Add)),
    ("subtract", (Subject::Numbers, Call::Subtract)),
    ("multiply", (Subject::Numbers, Call::Multiply)),
    ("divide", (Subject::Numbers, Call::Divide)),
    ("remainder", (Subject::Numbers, Call::Remainder)),
    ("order", (Subject::Numbers, Call::Order)),
    ("string-length", (Subject::Strings, Call::StringLength)),
    ("normalize-space", (Subject::Strings, Call::NormalizeSpace)),
    ("substring", (Subject::Strings, Call::Substring)),
    (
        "substring-before",
        (Subject::Strings, Call::SubstringBefore),
    ),
    ("substring-after", (Subject::Strings, Call::SubstringAfter)),
    ("translate", (Subject::Strings, Call::Translate)),
];
