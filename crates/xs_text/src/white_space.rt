//! White space (XML 1.0, 2.3, production 3).

ghost use Rattle.std.specs.Prelude.{◌≡◌};
ghost use Rattle.xs_text.specs.WhiteSpace.{is_blank, is_white_space};

/// Whether a character is white space: space, tab, carriage return or line feed.
pub fn is_space(c: char) -> bool
    ensures { result ≡ is_white_space c }
{
    matches!(c, ' ' | '\t' | '\r' | '\n')
}

/// Whether a byte is white space. No byte of a character past ASCII is.
pub fn is_space_byte(byte: u8) -> bool
    ensures { result ≡ is_white_space byte }
{
    matches!(byte, b' ' | b'\t' | b'\r' | b'\n')
}

/// Whether a text, by its bytes, is white space alone, as one without any byte is.
pub fn is_blank(text: &[u8]) -> bool
    ensures { result ≡ is_blank text.now }
{
    text.iter().all(|byte| is_space_byte(*byte))
}
