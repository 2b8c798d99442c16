//! Texts, compared.

ghost use Rattle.std.specs.Prelude.{◌≡◌, [], ◌∷◌, false};
ghost use Rattle.std.specs.Str.{bytes_eq};

/// Whether two texts are the same. Of one byte, as many prefixes and names are, this takes no call.
#[inline(always)]
pub fn is_same(text: &str, other: &str) -> bool
    ensures { result ≡ bytes_eq text.now other.now }
{
    if !are_as_long(text, other) {
        return false;
    }
    match text.as_bytes() {
        [one] => is_byte(*one, other.as_bytes()),
        _ => text == other,
    }
}

/// Whether two texts have one length.
#[inline(always)]
fn are_as_long(text: &str, other: &str) -> bool
    ensures { result ≡ false → bytes_eq text.now other.now ≡ false }
{
    text.len() == other.len()
}

/// Whether bytes are this one alone.
#[inline(always)]
fn is_byte(one: u8, bytes: &[u8]) -> bool
    ensures { result ≡ bytes_eq (one ∷ []) bytes.now }
{
    match bytes {
        [] => false,
        [other] => one == *other,
        [_, _, ..] => false,
    }
}
