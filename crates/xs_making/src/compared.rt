//! Texts of names and of stylesheets, compared.
ghost use Rattle.std.specs.Prelude.{◌≡◌, true};

/// The most bytes that are compared one by one, which takes less time than a call.
const FEW_BYTES: usize = 4;

/// Whether a text is another one.
pub(crate) fn is_text(text: &str, other: &str) -> bool
    ensures { result ≡ true → text.now ≡ other.now }
{
    if text.len() > FEW_BYTES {
        return text == other;
    }
    are_bytes(text.as_bytes(), other.as_bytes())
}

/// Whether bytes are other ones, one by one.
fn are_bytes(bytes: &[u8], others: &[u8]) -> bool
    ensures { result ≡ true → bytes.now ≡ others.now }
{
    let mut rest = others;
    for byte in bytes {
        match rest.split_first() {
            Some((other, behind)) => {
                if *byte != *other {
                    return false;
                }
                rest = behind;
            }
            None => return false,
        }
    }
    rest.is_empty()
}
