//! What names declare, and which declarations and targets may be (Namespaces in XML 1.0).

ghost use Rattle.std.specs.Prelude.{◌≡◌, ◌&&◌, [], None, Some, codes};
ghost use Rattle.std.specs.Prelude.{if◌then◌else◌, not, option_map};
ghost use Rattle.std.specs.Str.{bytes_eq};
ghost use Rattle.xs_build.specs.Namespaces.{QName, is_empty, is_ncname, declared_prefix};
ghost use Rattle.xs_build.specs.Namespaces.{is_bad_binding, is_xml};
ghost use Rattle.xs_text.specs.WhiteSpace.{is_blank};

use xs_text::{XML_URI, XMLNS_URI};

/// Whether there are no characters.
#[tactic(auto, using(crate::proofs::TextLemmas::empty_by_length))]
fn is_nothing(text: &str) -> bool
    ensures { result ≡ is_empty text.now }
{
    text.is_empty()
}

/// The prefix that an attribute without a prefix declares: the empty one, where it is `xmlns`.
#[inline(always)]
fn default_prefix(local: &str) -> Option<&'static str>
    ensures { option_map (λ p. p.now) result
        ≡ (if bytes_eq local.now (codes "xmlns") then Some [] else None) }
{
    if local == "xmlns" { Some("") } else { None }
}

/// The prefix that an attribute of this name declares (empty: the default namespace); none where it
/// declares none.
#[tactic(auto, unfolding(crate::specs::Namespaces::declared_prefix))]
pub fn declared_prefix<'a>(prefix: &str, local: &'a str) -> Option<&'a str>
    ensures { option_map (λ p. p.now) result ≡ declared_prefix
        (record { prefix = prefix.now; local = local.now }) }
{
    if is_nothing(prefix) {
        return default_prefix(local);
    }
    if prefix == "xmlns" { Some(local) } else { None }
}

/// Whether a prefix may not be bound to a URI (Namespaces in XML 1.0, 2.2 and 3).
#[tactic(auto, unfolding(crate::specs::Namespaces::is_bad_binding))]
pub fn is_bad_binding(prefix: &str, uri: &str) -> bool
    ensures { result ≡ is_bad_binding prefix.now uri.now }
{
    !is_nothing(prefix) && is_nothing(uri)
        || prefix == "xmlns"
        || prefix == "xml" && uri != XML_URI
        || prefix != "xml" && uri == XML_URI
        || uri == XMLNS_URI
}

/// Whether a target is `xml`, in any case.
#[tactic(auto, using(crate::proofs::TextLemmas::same_bytes))]
pub fn is_xml(target: &str) -> bool
    ensures { result ≡ is_xml target.now }
{
    target.eq_ignore_ascii_case("xml")
}

/// Whether a processing instruction may have this target (XML 1.0, 2.6).
pub fn is_target(text: &str) -> bool
    ensures { result ≡ (is_ncname text.now && not (is_xml text.now)) }
{
    xs_text::is_ncname(text) && !is_xml(text)
}

/// Whether a text is white space alone (XML 1.0, 2.3).
pub fn is_white(text: &str) -> bool
    ensures { result ≡ is_blank text.now }
{
    xs_text::is_blank(text.as_bytes())
}
