//! Names as they are written (Namespaces in XML 1.0, 3 and 4).
ghost use Rattle.std.specs.Prelude.{◌≡◌, ◌∷◌, ◌++◌, IfOk};
ghost use Rattle.xs_result_lines.specs.Bindings.{new_prefix};
ghost use Rattle.xs_result_lines.specs.Lines.{declaration_name, name_with};

use std::alloc::{AllocError, Global};
use xs_text::TextBuf;

/// A name with its prefix, if it has one.
pub(crate) fn name_with(alloc: Global, prefix: &str, local: &str) -> Result<TextBuf, AllocError>
    ensures { IfOk result (λ name. name ≡ name_with prefix.now local.now) }
{
    if prefix.is_empty() {
        return TextBuf::of(alloc, local);
    }
    joined(alloc, prefix, local)
}

/// The name of the attribute that declares a prefix.
pub(crate) fn declaration_name(alloc: Global, prefix: &str) -> Result<TextBuf, AllocError>
    ensures { IfOk result (λ name. name ≡ declaration_name prefix.now) }
{
    if prefix.is_empty() {
        return TextBuf::of(alloc, "xmlns");
    }
    joined(alloc, "xmlns", prefix)
}

/// A prefix, a colon and a local part.
fn joined(alloc: Global, prefix: &str, local: &str) -> Result<TextBuf, AllocError>
    ensures { IfOk result (λ name. name ≡ prefix.now ++ 58 ∷ local.now) }
{
    let mut name = String::new(alloc);
    name.push_str(prefix)?;
    name.push(':')?;
    name.push_str(local)?;
    TextBuf::from_string(name)
}

/// `ns` and a number.
pub(crate) fn new_prefix(alloc: Global, number: u64) -> Result<TextBuf, AllocError>
    ensures { IfOk result (λ prefix. prefix ≡ new_prefix number) }
{
    TextBuf::from_string(format!(in alloc; "ns{number}")?)
}
