//! NCNames and QNames of Namespaces in XML 1.0.

ghost use Rattle.std.specs.Prelude.{◌≡◌, ℕ, ◌↔◌, List, IsTrue, IfSome, IfNone, option_map};
ghost use Rattle.xs_text.specs.Names.{starts_name, continues_name, is_ncname, IsNcName, IsQName};
ghost use Rattle.xs_text.specs.Names.{prefixed, unprefixed, qname_of, qname_parts};

/// The namespace of the prefix `xml` (Namespaces in XML 1.0, 3).
pub const XML_URI: &str = "http://www.w3.org/XML/1998/namespace";

/// The namespace of the prefix `xmlns` (Namespaces in XML 1.0, 3).
pub const XMLNS_URI: &str = "http://www.w3.org/2000/xmlns/";

/// Whether a character may begin a name: XML 1.0, 2.3, production 4, without the colon.
pub fn is_name_start(c: char) -> bool
    ensures { result ≡ starts_name c }
{
    matches!(
        c,
        'A'..='Z'
            | '_'
            | 'a'..='z'
            | '\u{C0}'..='\u{D6}'
            | '\u{D8}'..='\u{F6}'
            | '\u{F8}'..='\u{2FF}'
            | '\u{370}'..='\u{37D}'
            | '\u{37F}'..='\u{1FFF}'
            | '\u{200C}'..='\u{200D}'
            | '\u{2070}'..='\u{218F}'
            | '\u{2C00}'..='\u{2FEF}'
            | '\u{3001}'..='\u{D7FF}'
            | '\u{F900}'..='\u{FDCF}'
            | '\u{FDF0}'..='\u{FFFD}'
            | '\u{10000}'..='\u{EFFFF}'
    )
}

/// Whether a character may be in a name after its first: XML 1.0, 2.3, production 4a, without
/// the colon.
pub fn is_name_char(c: char) -> bool
    ensures { result ≡ continues_name c }
{
    is_name_start(c)
        || matches!(
            c,
            '-' | '.' | '0'..='9' | '\u{B7}' | '\u{300}'..='\u{36F}' | '\u{203F}'..='\u{2040}'
        )
}

/// Whether a text is an NCName: a name of XML 1.0, fifth edition, without a colon.
pub fn is_ncname(s: &str) -> bool
    ensures { result ≡ is_ncname s.now }
{
    let mut chars = s.chars();
    let Some(first) = chars.next() else {
        return false;
    };
    is_name_start(first) && chars.all(is_name_char)
}

/// The parts of a name with a colon.
fn prefixed<'a>(prefix: &'a str, local: &'a str) -> Option<(&'a str, &'a str)>
    ensures { option_map qname_parts result ≡ prefixed prefix.now local.now }
{
    if is_ncname(prefix) && is_ncname(local) {
        Some((prefix, local))
    } else {
        None
    }
}

/// The parts of a name without a colon.
fn unprefixed(s: &str) -> Option<(&str, &str)>
    ensures { option_map qname_parts result ≡ unprefixed s.now }
{
    if is_ncname(s) { Some(("", s)) } else { None }
}

/// The prefix, which may be empty, and the local part of a QName; `None` where the text is none.
#[tactic(auto, unfolding(crate::specs::Names::qname_of))]
pub fn split_qname(s: &str) -> Option<(&str, &str)>
    ensures named { option_map qname_parts result ≡ qname_of s.now }

    // The function says what the productions say.
    ensures parts { IfSome result (λ name. IsQName s.now name.0.now name.1.now) }
    ensures none { IfNone result ((prefix local : List ℕ) → ¬ IsQName s.now prefix local) }
{
    match s.split_once(':') {
        Some((prefix, local)) => prefixed(prefix, local),
        None => unprefixed(s),
    }
}
