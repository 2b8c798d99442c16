//! Patterns (XSLT 1.0, 5.2).
ghost use Rattle.std.specs.Prelude.{◌≡◌};
ghost use Rattle.xs_xpath.specs.Patterns.{is_key};

use crate::expr::Expr;
use crate::name::Function;

/// A pattern by its alternatives, each a path.
#[derive(Drop)]
pub struct Pattern {
    pub alternatives: Vec<Expr>,
}

/// Whether a function is `key`.
pub fn is_key(name: Function) -> bool
    ensures same { result ≡ is_key name }
{
    matches!(name, Function::Key)
}
