//! Names of attributes without a prefix: what they are does not depend on the prefixes in scope.
ghost use Rattle.std.specs.Prelude.{◌≡◌, true, IfOk, IfSome};
ghost use Rattle.xs_making.specs.steps.Plain.{IsPlain, IsPlainName, IsPlainText, IsUnprefixed};

use std::alloc::AllocError;
use xs_text::split_qname;
use xs_trace::event::Label;

/// The name of an attribute that was made of its local part.
#[derive(Drop)]
pub(crate) struct PlainName {
    name: Label,
    ghost known: { IsPlainName name },
}

impl PlainName {
    /// This name.
    pub(crate) fn of(name: Label) -> PlainName
        requires { IsPlainName name }
    {
        PlainName { name }
    }

    /// The name that a text is, if it is this one.
    #[inline(always)]
    pub(crate) fn name_of(&self, text: &str) -> Result<Option<Label>, AllocError>
        ensures { IfOk result (λ found. IfSome found (λ name. IsPlain text.now name)) }
    {
        if !is_local(&self.name, text) {
            return Ok(None);
        }
        Ok(Some(self.name.copy()?))
    }
}

/// Whether a text is the local part of a name.
#[inline(always)]
fn is_local(name: &Label, text: &str) -> bool
    ensures { result ≡ true → name.now.local ≡ text.now }
{
    name.local() == text
}

/// Whether a name was made of a text that has no prefix.
pub(crate) fn is_plain(name: &Label, text: &str) -> bool
    ensures { result ≡ true → IsPlainText name.now text.now }
{
    is_local(name, text) && is_unprefixed(text)
}

/// Whether a text is a QName without a prefix.
fn is_unprefixed(text: &str) -> bool
    ensures { result ≡ true → IsUnprefixed text.now }
{
    match split_qname(text) {
        Some((prefix, local)) => prefix.is_empty() && local == text,
        None => false,
    }
}
