//! Expressions, patterns and value templates with the namespaces that are in scope for them: some
//! functions resolve names when they run, as `key` and `system-property` do (XPath 1.0, 1).
//! Contracts see them as plain data.

ghost use Rattle.std.specs.Prelude.{◌≡◌};
ghost use Rattle.std.specs.Arc.{arc_value};
ghost use Rattle.xs_xpath.specs.AvtParts.{parts_from};
ghost use Rattle.xs_xpath.specs.Exprs.{tree_from, trees_from};

use std::marker::Model;
use std::sync::Arc;
use xs_xpath::avt::AvtPart;
use xs_xpath::expr::Expr;
use xs_xpath::pattern::Pattern;
use xs_xpath::scope::Scope;

/// An expression (XSLT 1.0, 4).
#[derive(Drop)]
pub struct ScopedExpr {
    pub expr: ParsedExpr,
    pub scope: Namespaces,
}

/// A pattern (XSLT 1.0, 5.2).
#[derive(Drop)]
pub struct ScopedPattern {
    pub pattern: ParsedPattern,
    pub scope: Namespaces,
}

/// A value template (XSLT 1.0, 7.6.2).
#[derive(Drop)]
pub struct ValueTemplate {
    pub parts: Parts,
    pub scope: Namespaces,
}

/// The namespaces that are in scope, shared. Contracts see the pairs of prefix and URI.
#[derive(Drop)]
pub struct Namespaces {
    scope: Arc<Scope>,
}

impl Model for Namespaces {
    ghost use Rattle.std.specs.Prelude.{ℕ, List};
    ghost use Rattle.std.specs.Arc.{arc_value};

    ghost Value = { List (List ℕ × List ℕ) };

    ghost view = { λ a. (arc_value a.scope).pairs.items };
}

impl Namespaces {
    /// Those of a scope. Takes no memory.
    pub fn of(scope: Arc<Scope>) -> Namespaces
        ensures { result ≡ (arc_value scope).pairs.items }
    {
        Namespaces { scope }
    }

    /// The scope.
    pub fn scope(&self) -> &Scope
        ensures { result.now.pairs.items ≡ self.now }
    {
        &*self.scope
    }
}

/// What the text of an expression was parsed to. Contracts see its tree.
#[derive(Drop)]
pub struct ParsedExpr {
    expr: Expr,
}

impl Model for ParsedExpr {
    ghost use Rattle.xs_xpath.specs.Tree.{Tree};
    ghost use Rattle.xs_xpath.specs.Exprs.{tree_from};
    ghost use Rattle.xs_sheet.specs.Codes.{coded_tree};

    ghost Value = { Tree };

    ghost coded = { coded_tree };

    ghost view = { λ a. tree_from a.expr };
}

impl ParsedExpr {
    /// An expression.
    pub fn of(expr: Expr) -> ParsedExpr
        ensures { result ≡ tree_from expr }
    {
        ParsedExpr { expr }
    }

    /// The expression.
    pub fn expr(&self) -> &Expr
        ensures { tree_from result.now ≡ self.now }
    {
        &self.expr
    }
}

/// What the text of a pattern was parsed to. Contracts see the trees of its alternatives.
#[derive(Drop)]
pub struct ParsedPattern {
    pattern: Pattern,
}

impl Model for ParsedPattern {
    ghost use Rattle.std.specs.Prelude.{List};
    ghost use Rattle.std.specs.Coded.{coded_list};
    ghost use Rattle.xs_xpath.specs.Tree.{Tree};
    ghost use Rattle.xs_xpath.specs.Exprs.{trees_from};
    ghost use Rattle.xs_sheet.specs.Codes.{coded_tree};

    ghost Value = { List Tree };

    ghost coded = { coded_list coded_tree };

    ghost view = { λ a. trees_from a.pattern.alternatives.items };
}

impl ParsedPattern {
    /// A pattern.
    pub fn of(pattern: Pattern) -> ParsedPattern
        ensures { result ≡ trees_from pattern.alternatives.items }
    {
        ParsedPattern { pattern }
    }

    /// Its alternatives.
    pub fn alternatives(&self) -> &[Expr]
        ensures { trees_from result.now ≡ self.now }
    {
        self.pattern.alternatives.as_slice()
    }
}

/// What the text of a value template was parsed to. Contracts see its parts.
#[derive(Drop)]
pub struct Parts {
    parts: Vec<AvtPart>,
}

impl Model for Parts {
    ghost use Rattle.std.specs.Prelude.{List};
    ghost use Rattle.std.specs.Coded.{coded_list};
    ghost use Rattle.xs_xpath.specs.AvtParts.{parts_from};
    ghost use Rattle.xs_xpath.specs.Templates.{Part};
    ghost use Rattle.xs_sheet.specs.Codes.{coded_part};

    ghost Value = { List Part };

    ghost coded = { coded_list coded_part };

    ghost view = { λ a. parts_from a.parts.items };
}

impl Parts {
    /// The parts of a vector. Takes no memory.
    pub fn of(parts: Vec<AvtPart>) -> Parts
        ensures { result ≡ parts_from parts.items }
    {
        Parts { parts }
    }

    /// Them.
    pub fn as_slice(&self) -> &[AvtPart]
        ensures { parts_from result.now ≡ self.now }
    {
        self.parts.as_slice()
    }
}
