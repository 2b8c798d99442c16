//! The faults that a run reports to its user: those of files by number, and the names of all.

ghost use Rattle.std.specs.Prelude.{◌≡◌};
ghost use Rattle.xs_reply.specs.Faults.{document_fault_name, fault_name, file_fault_name};
ghost use Rattle.xs_reply.specs.Faults.{run_fault_name, stylesheet_fault_name};

use xs_build::fault::{
    BAD_ESCAPE, BAD_LINE, BAD_NAME, BAD_NAMESPACE, BAD_UTF8, DOUBLE_ATTRIBUTE, NO_FINAL_LINE_FEED,
    NO_ROOT, TOO_LARGE, TRUNCATED, UNBALANCED, UNBOUND_PREFIX,
};
use xs_trace::fault::Fault;

/// A text is in no spelling of its grammar.
pub const SYNTAX: u8 = 20;

/// No function has the name.
pub const UNKNOWN_FUNCTION: u8 = 21;

/// A function has not so many arguments.
pub const ARG_COUNT: u8 = 22;

/// A number that is written is not whole, or out of range.
pub const BAD_LITERAL: u8 = 23;

/// Brackets and signs nest too deep.
pub const TOO_NESTED: u8 = 24;

/// An expression is no pattern.
pub const NOT_PATTERN: u8 = 25;

/// A module is mentioned on its own path of modules.
pub const CIRCULAR_MODULE: u8 = 30;

/// A module is mentioned where there are as many as there may be.
pub const TOO_MANY_MODULES: u8 = 31;

/// The root of a module is no stylesheet.
pub const BAD_ROOT: u8 = 32;

/// A version other than 1.0, or a decimal format.
pub const UNSUPPORTED: u8 = 33;

/// An element lacks an attribute.
pub const MISSING_ATTRIBUTE: u8 = 34;

/// An element has an attribute that it may not have.
pub const UNKNOWN_ATTRIBUTE: u8 = 35;

/// An attribute has a value that it may not have.
pub const BAD_ATTRIBUTE: u8 = 36;

/// An element or a text stands where it may not.
pub const MISPLACED: u8 = 37;

/// A prefix in a value is bound to no namespace.
pub const UNBOUND_PREFIX_IN_VALUE: u8 = 38;

/// No variable of the name is visible.
pub const UNKNOWN_VARIABLE: u8 = 39;

/// A local variable hides another.
pub const SHADOWING: u8 = 40;

/// Two global variables have one name.
pub const DOUBLE_GLOBAL: u8 = 41;

/// Two templates have one name.
pub const DOUBLE_TEMPLATE: u8 = 42;

/// No template has the name.
pub const UNKNOWN_TEMPLATE: u8 = 43;

/// An attribute set uses itself.
pub const CIRCULAR_SET: u8 = 44;

/// A pattern or key refers to what it may not.
pub const FORBIDDEN: u8 = 45;

/// An element stands too deep.
pub const MODULE_TOO_DEEP: u8 = 46;

/// A file could not be read.
pub const UNREADABLE: u8 = 70;

/// The name of a fault of a file; none of another number.
pub fn fault_name(fault: u8) -> &'static str
    ensures { result.now ≡ fault_name fault }
{
    if fault <= TRUNCATED {
        document_fault_name(fault)
    } else if fault <= MODULE_TOO_DEEP {
        stylesheet_fault_name(fault)
    } else {
        file_fault_name(fault)
    }
}

/// The name of a fault of a document.
#[tactic(auto, unfolding(crate::specs::Faults::document_fault_name))]
fn document_fault_name(fault: u8) -> &'static str
    ensures { result.now ≡ document_fault_name fault }
{
    match fault {
        BAD_LINE => "BadLine",
        BAD_ESCAPE => "BadEscape",
        BAD_UTF8 => "BadUtf8",
        NO_FINAL_LINE_FEED => "NoFinalLineFeed",
        UNBALANCED => "Unbalanced",
        NO_ROOT => "NoRoot",
        BAD_NAME => "BadName",
        UNBOUND_PREFIX => "UnboundPrefix",
        DOUBLE_ATTRIBUTE => "DoubleAttribute",
        BAD_NAMESPACE => "BadNamespace",
        TOO_LARGE => "TooLarge",
        TRUNCATED => "Truncated",
        _ => "",
    }
}

/// The name of a fault of a stylesheet.
#[tactic(auto, unfolding(crate::specs::Faults::stylesheet_fault_name))]
fn stylesheet_fault_name(fault: u8) -> &'static str
    ensures { result.now ≡ stylesheet_fault_name fault }
{
    match fault {
        SYNTAX => "Syntax",
        UNKNOWN_FUNCTION => "UnknownFunction",
        ARG_COUNT => "ArgCount",
        BAD_LITERAL => "BadLiteral",
        TOO_NESTED => "TooNested",
        NOT_PATTERN => "NotPattern",
        CIRCULAR_MODULE => "CircularModule",
        TOO_MANY_MODULES => "TooManyModules",
        BAD_ROOT => "BadRoot",
        UNSUPPORTED => "Unsupported",
        MISSING_ATTRIBUTE => "MissingAttribute",
        UNKNOWN_ATTRIBUTE => "UnknownAttribute",
        BAD_ATTRIBUTE => "BadAttribute",
        MISPLACED => "Misplaced",
        UNBOUND_PREFIX_IN_VALUE => "UnboundPrefix",
        UNKNOWN_VARIABLE => "UnknownVariable",
        SHADOWING => "Shadowing",
        DOUBLE_GLOBAL => "DoubleGlobal",
        DOUBLE_TEMPLATE => "DoubleTemplate",
        UNKNOWN_TEMPLATE => "UnknownTemplate",
        CIRCULAR_SET => "CircularSet",
        FORBIDDEN => "Forbidden",
        MODULE_TOO_DEEP => "ModuleTooDeep",
        _ => "",
    }
}

/// The name of the fault of a file that could not be read.
#[tactic(auto, unfolding(crate::specs::Faults::file_fault_name))]
fn file_fault_name(fault: u8) -> &'static str
    ensures { result.now ≡ file_fault_name fault }
{
    match fault {
        UNREADABLE => "ReadFault",
        _ => "",
    }
}

/// The name of a fault of an evaluation.
pub fn run_fault_name(fault: Fault) -> &'static str
    ensures { result.now ≡ run_fault_name fault }
{
    match fault {
        Fault::Budget => "Budget",
        Fault::Fraction => "Fraction",
        Fault::Range => "Range",
        Fault::NotNodes => "NotNodes",
        Fault::NoKey => "NoKey",
        Fault::TooDeep => "TooDeep",
        Fault::NoRule => "NoRule",
        Fault::Terminated => "Terminated",
        Fault::NoExtension => "NoExtension",
        Fault::Circular => "Circular",
        Fault::BadResultName => "BadResultName",
        Fault::UnboundResultPrefix => "UnboundResultPrefix",
        Fault::BadValue => "BadValue",
        Fault::TooManyEvents => "TooManyEvents",
        Fault::NoDocument => "NoDocument",
    }
}
