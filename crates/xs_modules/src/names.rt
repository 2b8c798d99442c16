//! The name that is asked for where a module is mentioned.

ghost use Rattle.std.specs.Prelude.{◌≡◌, ◌++◌, IfOk};
ghost use Rattle.xs_modules.specs.Names.{begins_with_slash, directory, resolved};

use std::alloc::{AllocError, Global};
use xs_text::TextBuf;

/// The name of the module that a reference in a module names: the reference itself where it begins
/// with a slash; else it follows the module's name up to its last slash.
pub(crate) fn resolve(alloc: Global, from: &str, reference: &str) -> Result<TextBuf, AllocError>
    ensures { IfOk result (λ name. name ≡ resolved from.now reference.now) }
{
    if begins_with_slash(reference) {
        TextBuf::of(alloc, reference)
    } else {
        follow(alloc, directory(from), reference)
    }
}

// Whether a reference is a name as it stands.
fn begins_with_slash(reference: &str) -> bool
    ensures { result ≡ begins_with_slash reference.now }
{
    matches!(reference.as_bytes(), [b'/', ..])
}

// A name up to its last slash, empty where it has none.
fn directory(name: &str) -> &str
    ensures { result.now ≡ directory name.now }
{
    match name.rfind('/') {
        Some(slash) => &name[..slash + 1],
        None => "",
    }
}

// A directory, and a reference in it.
fn follow(alloc: Global, directory: &str, reference: &str) -> Result<TextBuf, AllocError>
    ensures { IfOk result (λ name. name ≡ directory.now ++ reference.now) }
{
    let mut name = String::from_str(alloc, directory)?;
    name.push_str(reference)?;
    TextBuf::from_string(name)
}
