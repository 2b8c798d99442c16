//! The numbers of static faults that are not those of an expression's text, and the least of them.

ghost use Rattle.std.specs.Prelude.{◌≡◌, Some, None, if◌then◌else◌};
ghost use Rattle.xs_static.specs.steps.Least.{lesser};

/// A module's element is none of a stylesheet (XSLT 1.0, 2.2, 2.3).
pub(crate) const BAD_ROOT: u8 = 32;

/// Another version than 1.0, or `xsl:decimal-format`.
pub(crate) const UNSUPPORTED: u8 = 33;

/// An attribute that has to be there is missing.
pub(crate) const MISSING_ATTRIBUTE: u8 = 34;

/// An attribute that the element does not have.
pub(crate) const UNKNOWN_ATTRIBUTE: u8 = 35;

/// A value that is not as it has to be.
pub(crate) const BAD_ATTRIBUTE: u8 = 36;

/// An element or text where none may stand.
pub(crate) const MISPLACED: u8 = 37;

/// A prefix that is not in scope.
pub(crate) const UNBOUND_PREFIX: u8 = 38;

/// A reference without a visible binding.
pub(crate) const UNKNOWN_VARIABLE: u8 = 39;

/// A local binding that shadows a local one.
pub(crate) const SHADOWING: u8 = 40;

/// A global variable or parameter twice at one precedence.
pub(crate) const DOUBLE_GLOBAL: u8 = 41;

/// A named template twice at one precedence.
pub(crate) const DOUBLE_TEMPLATE: u8 = 42;

/// `xsl:call-template` of no template.
pub(crate) const UNKNOWN_TEMPLATE: u8 = 43;

/// An attribute set that uses itself, directly or not.
pub(crate) const CIRCULAR_SET: u8 = 44;

/// A variable, `current()` or `key()` where none may be.
pub(crate) const FORBIDDEN: u8 = 45;

/// An element deeper than elements may be.
pub(crate) const MODULE_TOO_DEEP: u8 = 46;

/// The lesser of two numbers, where there are any.
pub(crate) fn lesser(a: Option<u8>, b: Option<u8>) -> Option<u8>
    ensures { result ≡ lesser a b }
{
    match a {
        Some(x) => match b {
            Some(y) => Some(x.min(y)),
            None => Some(x),
        },
        None => b,
    }
}

/// A number, where something holds.
pub(crate) fn where_holds(holds: bool, number: u8) -> Option<u8>
    ensures { result ≡ (if holds then Some number else None) }
{
    if holds { Some(number) } else { None }
}
