//! How the result is written (XSLT 1.0, 16).

ghost use Rattle.std.specs.Prelude.{◌≡◌, Some};
ghost use Rattle.std.specs.List.{All};
ghost use Rattle.xs_compile.specs.Output.{method, method_named};
ghost use Rattle.xs_structure.specs.Order.{declarations};
ghost use Rattle.xs_compile.specs.steps.Output.{of_two, output_in, said_method};
ghost use Rattle.xs_structure.specs.Places.{IsIn};
ghost use Rattle.xs_modules.specs.Results.{modules_data};

use xs_elements::tags::Tag;
use xs_modules::Modules;
use xs_sheet::declarations::Method;
use xs_structure::places::{Place, precedence_at, tag_at, value_at};
use xs_tree::Node;

/// The method of this name: `text` writes text, and any other method PYX lines.
fn method_named(name: &str) -> Method
    ensures { result ≡ method_named name.now }
{
    if name == "text" {
        Method::Text
    } else {
        Method::Pyx
    }
}

/// The method that a declaration says, if it is an `xsl:output` that says one.
fn said_method(modules: &Modules, number: u32, n: Node) -> Option<Method>
    requires at { IsIn (modules_data modules.now) («number», n) }
    ensures { result ≡ said_method (modules_data modules.now) («number», n) }
{
    if !matches!(tag_at(modules, number, n), Tag::Output) {
        return None;
    }
    match value_at(modules, number, n, "method") {
        Some(name) => Some(method_named(name)),
        None => None,
    }
}

/// Of the method that counts so far and of one that an element says, if it says one, the one that
/// counts, with its precedence.
fn later(
    modules: &Modules,
    so_far: Option<(u32, Method)>,
    number: u32,
    n: Node,
) -> Option<(u32, Method)>
    requires at { IsIn (modules_data modules.now) («number», n) }
    ensures { result ≡ output_in (modules_data modules.now) so_far («number», n) }
{
    match said_method(modules, number, n) {
        Some(said) => Some(of_two(precedence_at(modules, number), so_far, said)),
        None => so_far,
    }
}

/// Of the method that counts so far and of one of this precedence the one that counts.
fn of_two(precedence: u32, so_far: Option<(u32, Method)>, said: Method) -> (u32, Method)
    ensures { Some result ≡ of_two precedence so_far said }
{
    match so_far {
        Some((highest, method)) => {
            if precedence < highest {
                (highest, method)
            } else {
                (precedence, said)
            }
        }
        None => (precedence, said),
    }
}

/// The method of a stylesheet: of the values of `method` that of the highest import precedence, and
/// of several such the last.
pub(crate) fn method(modules: &Modules, places: &[Place]) -> Method
    requires inside { All (IsIn (modules_data modules.now)) places.now }
    requires all { places.now ≡ declarations (modules_data modules.now) }
    ensures { result ≡ method (modules_data modules.now) }
{
    let mut so_far = None;
    for place in places {
        so_far = later(modules, so_far, place.0, place.1);
    }
    match so_far {
        Some((_, method)) => method,
        None => Method::Pyx,
    }
}
