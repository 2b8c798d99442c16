//! The escapes of PYX data: `\n`, `\t`, `\r` and `\\`.

ghost use Rattle.std.specs.Prelude.{◌≡◌, ℕ, ◌+◌, ◌<◌, ◌↔◌, [], ◌∷◌, ◌++◌, List, length, take, drop};
ghost use Rattle.std.specs.Prelude.{vec_len, IsTrue, IsSome, IsSomeAnd, IsErrOf, OnOk, OnErr};
ghost use Rattle.std.specs.Prelude.{MatchOption, MatchResult};
ghost use Rattle.std.specs.Str.{IsUtf8};
ghost use Rattle.xs_text.specs.Escapes.{letter_of, byte_of, escaped, unescaped, behind, Represents};

use std::alloc::AllocError;
use thiserror::Error;

/// Why a text could not be read.
#[derive(Debug, Drop, Error)]
pub enum TextFault {
    /// A backslash is not followed by `n`, `t`, `r` or a backslash.
    #[error("a backslash begins no escape")]
    BadEscape,
    /// There is no memory for the data.
    #[error("out of memory")]
    NoMemory,
}

/// The letter that a byte is written with after a backslash, if it is one of the four.
fn escape_letter(byte: u8) -> Option<u8>
    ensures { result ≡ letter_of byte }
{
    match byte {
        b'\n' => Some(b'n'),
        b'\t' => Some(b't'),
        b'\r' => Some(b'r'),
        b'\\' => Some(b'\\'),
        _ => None,
    }
}

/// What is before the first byte that is written as a pair, the letter of that pair, and what
/// follows.
fn first_escape(text: &[u8]) -> Option<(&[u8], u8, &[u8])>
    ensures { MatchOption result
        (escaped text.now ≡ text.now)
        (λ p. (length p.2.now < length text.now)
        × (escaped text.now ≡ p.0.now ++ 92 ∷ p.1 ∷ escaped p.2.now)) }
{
    for (i, byte) in text.iter().enumerate() {
        if let Some(letter) = escape_letter(*byte) {
            return Some((&text[..i], letter, &text[i + 1..]));
        }
    }
    None
}

/// Appends the escaped text. After a refusal a part of it may follow what `out` had.
fn append_escaped(out: &mut Vec<u8>, text: &[u8]) -> Result<(), AllocError>
    ensures ok { OnOk result (out.new.items ≡ out.old.items ++ escaped text.now) }
    ensures kept { take (vec_len out.old) out.new.items ≡ out.old.items }
{
    let mut rest = text;
    while let Some((plain, letter, after)) = first_escape(rest) {
        out.extend_from_slice(plain)?;
        out.push(b'\\')?;
        out.push(letter)?;
        rest = after;
    }
    out.extend_from_slice(rest)
}

/// Appends `s` to `out` as PYX data: line feed, tab, carriage return and backslash as pairs, and
/// every other byte as itself. After a refusal `out` is as it was.
pub fn escape_into(out: &mut Vec<u8>, s: &str) -> Result<(), AllocError>
    ensures ok { OnOk result (out.new.items ≡ out.old.items ++ escaped s.now) }
    ensures err { OnErr result (out.new.items ≡ out.old.items) }
    ensures utf8 { IsUtf8 out.old.items → IsUtf8 out.new.items }

    // What is written is read back.
    ensures read_back { unescaped (escaped s.now) ≡ Some s.now }
{
    let start = out.len();
    let outcome = append_escaped(out, s.as_bytes());
    if outcome.is_err() {
        out.truncate(start);
    }
    outcome
}

/// The byte that a letter represents after a backslash, if it is one of the four.
fn escaped_byte(letter: u8) -> Option<u8>
    ensures { result ≡ byte_of letter }
{
    match letter {
        b'n' => Some(b'\n'),
        b't' => Some(b'\t'),
        b'r' => Some(b'\r'),
        b'\\' => Some(b'\\'),
        _ => None,
    }
}

/// What is before the first pair, the byte that the pair represents, and what follows; an error
/// where the first backslash begins no pair.
fn first_pair(text: &[u8]) -> Result<Option<(&[u8], u8, &[u8])>, TextFault>
    ensures { MatchResult result
        (λ found. MatchOption found
        (unescaped text.now ≡ Some text.now)
        (λ p. (length p.2.now < length text.now)
        × (unescaped text.now ≡ behind (p.0.now ++ p.1 ∷ []) (unescaped p.2.now))))
        (λ _. unescaped text.now ≡ None) }
{
    for (i, byte) in text.iter().enumerate() {
        if *byte != b'\\' {
            continue;
        }
        if i + 1 == text.len() {
            return Err(TextFault::BadEscape);
        }
        return match escaped_byte(text[i + 1]) {
            Some(read) => Ok(Some((&text[..i], read, &text[i + 2..]))),
            None => Err(TextFault::BadEscape),
        };
    }
    Ok(None)
}

/// Whether each backslash of `text` begins a pair, so that it represents data. No memory.
pub fn is_well_escaped(text: &[u8]) -> bool
    ensures { IsTrue result ↔ IsSome (unescaped text.now) }
{
    let mut rest = text;
    loop {
        match first_pair(rest) {
            Ok(Some((_, _, after))) => rest = after,
            Ok(None) => return true,
            Err(_) => return false,
        }
    }
}

/// Appends the data that `text` represents. After an error a part of it may follow what `out` had.
fn append_unescaped(out: &mut Vec<u8>, text: &[u8]) -> Result<(), TextFault>
    ensures ok { OnOk result (behind out.old.items (unescaped text.now) ≡ Some out.new.items) }
    ensures kept { take (vec_len out.old) out.new.items ≡ out.old.items }
{
    let mut rest = text;
    while let Some((plain, byte, after)) = first_pair(rest)? {
        out.extend_from_slice(plain)
            .map_err(|_| TextFault::NoMemory)?;
        out.push(byte).map_err(|_| TextFault::NoMemory)?;
        rest = after;
    }
    out.extend_from_slice(rest).map_err(|_| TextFault::NoMemory)
}

/// Appends to `out` the data that `s` represents, a pair for its byte and every other byte for
/// itself. After an error `out` is as it was.
pub fn unescape_into(out: &mut Vec<u8>, s: &str) -> Result<(), TextFault>
    ensures ok { OnOk result
        (IsSomeAnd (unescaped s.now) (λ read. out.new.items ≡ out.old.items ++ read)) }
    ensures bad_escape { IsErrOf result TextFault.BadEscape ↔ (unescaped s.now ≡ None) }
    ensures err { OnErr result (out.new.items ≡ out.old.items) }
    ensures utf8 { IsUtf8 out.old.items → IsUtf8 out.new.items }

    // What a text represents is what the rules say.
    ensures rules { (read : List ℕ) → (unescaped s.now ≡ Some read) ↔ Represents s.now read }
{
    let start = out.len();
    if append_unescaped(out, s.as_bytes()).is_ok() {
        return Ok(());
    }
    out.truncate(start);
    if is_well_escaped(s.as_bytes()) {
        Err(TextFault::NoMemory)
    } else {
        Err(TextFault::BadEscape)
    }
}
