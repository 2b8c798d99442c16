//! The rule that a node takes.

/// The rule that a node takes (XSLT 1.0, 5.5).
#[derive(Clone, Copy, PartialEq, Eq, Debug)]
pub enum Rule {
    /// That of the template with this number.
    Template(u32),
    /// The built-in one (XSLT 1.0, 5.8).
    BuiltIn,
}
