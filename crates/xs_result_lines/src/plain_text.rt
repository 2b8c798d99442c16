//! Texts of which each character is written as itself. In long ones many bytes are searched at a
//! time.

ghost use Rattle.std.specs.Prelude.{◌≡◌, ◌==◌, ◌&&◌, nat_lt, not, true};
ghost use Rattle.std.specs.List.{list_any};
ghost use Rattle.memchr.specs.Find.{is_byte2};
ghost use Rattle.xs_text.specs.Escapes.{escaped};

use memchr::memchr2;

/// How many bytes a text has at least that is searched. A shorter one is sooner gone through.
const LONG: usize = 32;

/// Whether each character of a text is written as itself. Of a short text it answers no where there
/// is a control character, or a backslash.
pub(crate) fn is_plain(text: &str) -> bool
    ensures { result ≡ true → escaped text.now ≡ text.now }
{
    if text.len() < LONG {
        return is_printed(text.as_bytes());
    }
    is_searched(text.as_bytes())
}

/// Whether no byte of a text is a control character or a backslash.
fn is_printed(text: &[u8]) -> bool
    ensures { result ≡ true → escaped text.now ≡ text.now }
{
    let mut rest = text;
    while let Some((byte, behind)) = rest.split_first() {
        if !is_printed_byte(*byte) {
            return false;
        }
        rest = behind;
    }
    true
}

/// Whether a byte is neither a backslash nor a control character.
fn is_printed_byte(byte: u8) -> bool
    ensures { result ≡ (not (byte == 92) && nat_lt 31 byte) }
{
    byte != b'\\' && byte > 31
}

/// Whether no byte of a text is one of the four that are written as pairs.
#[tactic(auto, using(crate::proofs::PlainTextLemmas::escaped_itself))]
fn is_searched(text: &[u8]) -> bool
    ensures { result ≡ true → escaped text.now ≡ text.now }
{
    if has_either(text, b'\n', b'\\') {
        return false;
    }
    !has_either(text, b'\t', b'\r')
}

/// Whether one of these two bytes is in a text.
fn has_either(text: &[u8], one: u8, other: u8) -> bool
    ensures { result ≡ list_any (is_byte2 one other) text.now }
{
    memchr2(one, other, text).is_some()
}
