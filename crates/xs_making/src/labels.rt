//! Names as they are put into the result.
ghost use Rattle.std.specs.Prelude.{◌≡◌, IfOk};
ghost use Rattle.xs_making.specs.Labels.{put_label, put_prefix};

use std::alloc::{AllocError, Global};
use xs_text::{TextBuf, XML_URI, is_same};
use xs_trace::event::Label;

/// A name as it is put: with the prefix that fits its namespace.
pub(crate) fn put_label(
    alloc: Global,
    uri: &str,
    local: &str,
    prefix: &str,
) -> Result<Label, AllocError>
    ensures label { IfOk result (λ label. label ≡ put_label uri.now local.now prefix.now) }
{
    let prefix = TextBuf::of(alloc, put_prefix(uri, prefix))?;
    let uri = TextBuf::of(alloc, uri)?;
    let local = TextBuf::of(alloc, local)?;
    Label::of(alloc, uri, local, prefix)
}

/// The prefix that a name is put with: none in no namespace, `xml` in that of `xml`, and no
/// reserved one in any other.
pub(crate) fn put_prefix<'a>(uri: &str, prefix: &'a str) -> &'a str
    ensures { result.now ≡ put_prefix uri.now prefix.now }
{
    if uri.is_empty() {
        return "";
    }
    if is_same(uri, XML_URI) {
        return "xml";
    }
    if is_same(prefix, "xml") || is_same(prefix, "xmlns") {
        return "";
    }
    prefix
}
