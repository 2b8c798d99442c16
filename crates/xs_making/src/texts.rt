//! The texts of comments and processing instructions that `xsl:comment` and
//! `xsl:processing-instruction` put.
ghost use Rattle.std.specs.Prelude.{◌≡◌, ◌<◌, ◌∷◌, ◌++◌, [], if◌then◌else◌, IfOk, OnOk};
ghost use Rattle.std.specs.Prelude.{string_bytes};
ghost use Rattle.xs_making.specs.Texts.{begins_with, comment_text, ends_or_hyphen};
ghost use Rattle.xs_making.specs.Texts.{instruction_text};

use std::alloc::{AllocError, Global};
use xs_text::TextBuf;

/// The text of a comment: with a space after each `-` that is followed by another or ends the
/// comment (XSLT 1.0, 7.4).
pub fn comment_text(alloc: Global, text: &str) -> Result<TextBuf, AllocError>
    ensures text { IfOk result (λ made. made ≡ comment_text text.now) }
{
    let mut out = String::with_capacity(alloc, text.len())?;
    let mut rest = text;
    while let Some((before, after)) = rest.split_once('-') {
        push_part(&mut out, before, '-', ends_or_hyphen(after))?;
        rest = after;
    }
    out.push_str(rest)?;
    TextBuf::from_string(out)
}

/// The text of a processing instruction: with a space between `?` and `>` (XSLT 1.0, 7.3).
pub fn pi_text(alloc: Global, text: &str) -> Result<TextBuf, AllocError>
    ensures text { IfOk result (λ made. made ≡ instruction_text text.now) }
{
    let mut out = String::with_capacity(alloc, text.len())?;
    let mut rest = text;
    while let Some((before, after)) = rest.split_once('?') {
        push_part(&mut out, before, '?', begins_with(after, b'>'))?;
        rest = after;
    }
    out.push_str(rest)?;
    TextBuf::from_string(out)
}

/// Appends what stands before an ASCII character, that character, and a space where one is asked
/// for.
fn push_part(out: &mut String, before: &str, mark: char, is_spaced: bool) -> Result<(), AllocError>
    requires { mark < 128 }
    ensures { OnOk result (string_bytes out.new
        ≡ string_bytes out.old ++ (before.now
        ++ (if is_spaced then mark ∷ 32 ∷ [] else mark ∷ []))) }
{
    out.push_str(before)?;
    out.push(mark)?;
    if is_spaced {
        out.push(' ')?;
    }
    Ok(())
}

/// Whether what follows a `-` in a comment is another one, or nothing.
fn ends_or_hyphen(text: &str) -> bool
    ensures { result ≡ ends_or_hyphen text.now }
{
    match text.as_bytes() {
        [] => true,
        [first, ..] => *first == b'-',
    }
}

/// Whether a text begins with this byte.
fn begins_with(text: &str, byte: u8) -> bool
    ensures { result ≡ begins_with byte text.now }
{
    match text.as_bytes() {
        [] => false,
        [first, ..] => *first == byte,
    }
}
