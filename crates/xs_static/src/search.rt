//! Whether a name leads back to itself.

ghost use Rattle.std.specs.Prelude.{◌≡◌, ◌+◌, ◌++◌, IfOk, OnOk, None, if◌then◌else◌, map, vec_len};
ghost use Rattle.std.specs.Bool.{MatchBool};
ghost use Rattle.xs_static.specs.Circles.{IsCircular};
ghost use Rattle.xs_elements.specs.Nodes.{Name, is_same_name, name_data};
ghost use Rattle.xs_static.specs.Declarations.{declared, declared_all};
ghost use Rattle.xs_static.specs.steps.Uses.{left_in, uses_in, uses_size};

use crate::circles::Declaration;
use crate::uses::Uses;
use std::alloc::{AllocError, Global};
use xs_elements::scope::Expanded;
use xs_tree::InputHashes;

/// Whether two names are the same.
fn is_same(a: Expanded<'_>, b: Expanded<'_>) -> bool
    ensures { result ≡ is_same_name (name_data a.entry) (name_data b.entry) }
{
    a.0 == b.0 && a.1 == b.1
}

/// Meets a name: those that it uses are still to be met, unless it was met before.
pub(crate) fn meet<'a>(
    left: &mut Uses<'a>,
    todo: &mut Vec<Expanded<'a>>,
    name: Expanded<'a>,
) -> Result<(), AllocError>
    ensures left { (n : Name) → left_in left.new n
        ≡ (if is_same_name (name_data name.entry) n then None else left_in left.old n) }
    ensures todo { OnOk result (map name_data todo.new.items
        ≡ map name_data todo.old.items ++ uses_in left.old (name_data name.entry)) }
    ensures less { OnOk result (vec_len todo.new + uses_size left.new
        ≡ vec_len todo.old + uses_size left.old) }
{
    match left.take(name) {
        Some(names) => todo.extend_from_slice(&names),
        None => Ok(()),
    }
}

/// Whether what a declaration uses leads back to its own name. A table has these hashes.
///
/// The time is linear in the size of the declarations.
pub(crate) fn leads_back<'a>(
    alloc: Global,
    hashes: InputHashes,
    declarations: &[Declaration<'a>],
    declaration: &Declaration<'a>,
) -> Result<bool, AllocError>
    ensures { let circle = IsCircular (declared_all declarations.now) (declared declaration.now)
        in IfOk result (λ b. MatchBool b circle (circle → ⊥)) }
{
    let mut left = Uses::of(alloc, hashes, declarations)?;
    let mut todo = Vec::from_slice(alloc, &declaration.sets)?;
    while let Some(name) = todo.pop() {
        if is_same(name, declaration.name) {
            return Ok(true);
        }
        meet(&mut left, &mut todo, name)?;
    }
    Ok(false)
}
