//! The first declaration of an attribute set that uses itself.

ghost use Rattle.std.specs.Prelude.{◌≡◌, ◌&&◌, true, IfOk};
ghost use Rattle.std.specs.List.{list_all};
ghost use Rattle.xs_static.specs.Circles.{IsFirstCircle, is_at_most};
ghost use Rattle.xs_static.specs.Declarations.{declared, declared_all};
ghost use Rattle.xs_static.specs.steps.First.{Takes, is_past};
ghost use Rattle.xs_static.specs.steps.Ranks.{falls, rises_nowhere};

use crate::name_numbers::Numbers;
use crate::ranks::{falls, none_rise, ranks};
use crate::search::leads_back;
use std::alloc::{AllocError, Global};
use xs_elements::scope::Expanded;
use xs_tree::InputHashes;

/// The place of a declaration: the number of its module, and its line there.
#[derive(Clone, Copy, PartialEq, Eq, Debug)]
pub struct Place {
    /// The number of the module.
    pub module: u32,
    /// The line.
    pub line: u32,
}

/// A declaration of an attribute set.
#[derive(Drop)]
pub struct Declaration<'a> {
    /// Its place.
    pub place: Place,
    /// The name of the set.
    pub name: Expanded<'a>,
    /// The names of the sets that it uses itself.
    pub sets: Vec<Expanded<'a>>,
}

/// Whether a place comes before another one or is the same.
fn is_at_most(a: Place, b: Place) -> bool
    ensures { result ≡ is_at_most a b }
{
    a.module < b.module || (a.module == b.module && a.line <= b.line)
}

/// Whether a place, if there is one, comes before another one or is the same.
fn is_past(first: Option<Place>, place: Place) -> bool
    ensures { result ≡ is_past first place }
{
    match first {
        Some(first) => is_at_most(first, place),
        None => false,
    }
}

/// Whether ranks show of a declaration that it is not circular.
fn is_reported(ranks: &Numbers<'_>, is_ranked: bool, declaration: &Declaration<'_>) -> bool
    ensures { result ≡ (is_ranked && falls ranks.now declaration.now) }
{
    is_ranked && falls(ranks, declaration)
}

/// The first place, after one declaration more was looked at, by ranks that show something where
/// they rise nowhere.
fn take<'a>(
    alloc: Global,
    declarations: &[Declaration<'a>],
    ranks: &Numbers<'a>,
    is_ranked: bool,
    declaration: &Declaration<'a>,
    first: Option<Place>,
) -> Result<Option<Place>, AllocError>
    requires { is_ranked ≡ true → list_all (rises_nowhere ranks.now) declarations.now ≡ true }
    ensures { IfOk result (λ now.
        Takes (declared_all declarations.now) (declared declaration.now) first now) }
{
    if is_past(first, declaration.place) {
        return Ok(first);
    }
    if is_reported(ranks, is_ranked, declaration) {
        return Ok(first);
    }
    if leads_back(alloc, ranks.hashes(), declarations, declaration)? {
        return Ok(Some(declaration.place));
    }
    Ok(first)
}

/// Hashes that have taken in the names of declarations.
fn hashes_of(declarations: &[Declaration<'_>]) -> InputHashes {
    let mut hashes = InputHashes::new();
    for declaration in declarations {
        take_in(&mut hashes, declaration.name);
        for used in &declaration.sets {
            take_in(&mut hashes, *used);
        }
    }
    hashes
}

/// Hashes take in a name.
fn take_in(hashes: &mut InputHashes, name: Expanded<'_>) {
    hashes.take_in(name.0);
    hashes.take_in(name.1);
}

/// The first place, by module and line, of a declaration whose own sets lead back to its name, none
/// where there is no such declaration (XSLT 1.0, 7.1.4).
///
/// The time is linear in the size of the declarations. Where some are circular, that time is taken
/// once more for each circular one whose place comes before those of all that precede it in the
/// list; ranks rule the others out.
pub fn first_circle<'a>(
    alloc: Global,
    declarations: &[Declaration<'a>],
) -> Result<Option<Place>, AllocError>
    ensures first { IfOk result (λ place. IsFirstCircle (declared_all declarations.now) place) }
{
    let ranks = ranks(alloc, hashes_of(declarations), declarations)?;
    let is_ranked = none_rise(&ranks, declarations);
    let mut first = None;
    for declaration in declarations {
        first = take(alloc, declarations, &ranks, is_ranked, declaration, first)?;
    }
    Ok(first)
}
