//! Expressions, patterns and value templates whose texts are known to have no fault.

ghost use Rattle.std.specs.Prelude.{◌≡◌, ◌<◌, ◌^◌, Some, IsOk, IfOk, OnOk, length, option_map};
ghost use Rattle.std.specs.Result.{result_ok};
ghost use Rattle.xs_parser.specs.Faults.{expr_in, pattern_in};
ghost use Rattle.xs_parser.specs.Templates.{template_in};
ghost use Rattle.xs_xpath.specs.AvtParts.{parts_from};
ghost use Rattle.xs_xpath.specs.Exprs.{tree_from, trees_from};
ghost use Rattle.xs_xpath.specs.Patterns.{alternatives};

use std::alloc::{AllocError, Global};
use xs_parser::avt::parse_avt;
use xs_parser::fault::ParseFault;
use xs_parser::parse::{parse_expr, parse_pattern};
use xs_xpath::avt::AvtPart;
use xs_xpath::expr::Expr;
use xs_xpath::pattern::Pattern;
use xs_xpath::scope::Scope;

/// Refuses a text of 4 GiB as out of memory: no module is so long.
fn check_length(text: &str) -> Result<(), AllocError>
    ensures { OnOk result (length text.now < 2 ^ 32) }
{
    if u32::try_from(text.len()).is_err() {
        return Err(AllocError);
    }
    Ok(())
}

/// An expression (XSLT 1.0, 4).
pub(crate) fn expr(alloc: Global, text: &str, scope: &Scope) -> Result<Expr, AllocError>
    requires valid { IsOk (expr_in scope.now.pairs.items text.now) }
    ensures { IfOk result (λ e. result_ok (expr_in scope.now.pairs.items text.now)
        ≡ Some (tree_from e)) }
{
    check_length(text)?;
    match parse_expr(alloc, text, scope) {
        Ok(e) => Ok(e),
        Err(ParseFault::NoMemory) => Err(AllocError),
        Err(ParseFault::Bad { .. }) => unreachable!(),
    }
}

/// A pattern (5.2).
pub(crate) fn pattern(alloc: Global, text: &str, scope: &Scope) -> Result<Pattern, AllocError>
    requires valid { IsOk (pattern_in scope.now.pairs.items text.now) }
    ensures { IfOk result (λ p.
        option_map alternatives (result_ok (pattern_in scope.now.pairs.items text.now))
        ≡ Some (trees_from p.alternatives.items)) }
{
    check_length(text)?;
    match parse_pattern(alloc, text, scope) {
        Ok(pattern) => Ok(pattern),
        Err(ParseFault::NoMemory) => Err(AllocError),
        Err(ParseFault::Bad { .. }) => unreachable!(),
    }
}

/// The parts of a value template (7.6.2).
pub(crate) fn template(alloc: Global, text: &str, scope: &Scope) -> Result<Vec<AvtPart>, AllocError>
    requires valid { IsOk (template_in scope.now.pairs.items text.now) }
    ensures { IfOk result (λ parts. result_ok (template_in scope.now.pairs.items text.now)
        ≡ Some (parts_from parts.items)) }
{
    check_length(text)?;
    match parse_avt(alloc, text, scope) {
        Ok(parts) => Ok(parts),
        Err(ParseFault::NoMemory) => Err(AllocError),
        Err(ParseFault::Bad { .. }) => unreachable!(),
    }
}
