//! Lines as bytes.

ghost use Rattle.std.specs.Prelude.{◌≡◌, ◌++◌, ◌∷◌, [], List, ℕ, OnOk, OnErr, take, vec_len};
ghost use Rattle.std.specs.Str.{IsUtf8};
ghost use Rattle.xs_text.specs.Escapes.{escaped};
ghost use Rattle.xs_pyx.specs.FirstBytes.{space, line_feed};
ghost use Rattle.xs_pyx.specs.Writing.{written, IsPlain, IsReadBack, IsLineBefore, HasTexts};

use crate::first_bytes::{ATTRIBUTE, COMMENT, END, INSTRUCTION, START, TEXT};
use crate::line::Line;
use std::alloc::AllocError;
use xs_text::escape_into;

/// Appends a line that has one name.
fn append_name(out: &mut Vec<u8>, kind: u8, name: &str) -> Result<(), AllocError>
    ensures ok { OnOk result (out.new.items ≡ out.old.items ++ kind ∷ name.now ++ line_feed ∷ []) }
    ensures kept { take (vec_len out.old) out.new.items ≡ out.old.items }
{
    out.push(kind)?;
    out.extend_from_slice(name.as_bytes())?;
    out.push(b'\n')?;
    Ok(())
}

/// Appends a line that has one text.
fn append_text(out: &mut Vec<u8>, kind: u8, text: &str) -> Result<(), AllocError>
    ensures ok { OnOk result
        (out.new.items ≡ out.old.items ++ kind ∷ escaped text.now ++ line_feed ∷ []) }
    ensures kept { take (vec_len out.old) out.new.items ≡ out.old.items }
{
    out.push(kind)?;
    escape_into(out, text)?;
    out.push(b'\n')?;
    Ok(())
}

/// Appends a line that has a name and a value.
fn append_pair(out: &mut Vec<u8>, kind: u8, name: &str, value: &str) -> Result<(), AllocError>
    ensures ok { OnOk result
        (out.new.items
        ≡ out.old.items ++ kind ∷ name.now ++ space ∷ escaped value.now ++ line_feed ∷ []) }
    ensures kept { take (vec_len out.old) out.new.items ≡ out.old.items }
{
    out.push(kind)?;
    out.extend_from_slice(name.as_bytes())?;
    out.push(b' ')?;
    escape_into(out, value)?;
    out.push(b'\n')?;
    Ok(())
}

/// Appends a line. After a refusal more than `out` had may stand behind it.
#[tactic(auto, unfolding(crate::specs::Writing::written))]
fn append_line(out: &mut Vec<u8>, line: &Line) -> Result<(), AllocError>
    ensures ok { OnOk result (out.new.items ≡ out.old.items ++ written line.now) }
    ensures kept { take (vec_len out.old) out.new.items ≡ out.old.items }
    ensures texts { HasTexts line.now }
{
    match line {
        Line::Start(name) => append_name(out, START, name.as_str()),
        Line::Attr { name, value } => append_pair(out, ATTRIBUTE, name.as_str(), value.as_str()),
        Line::Chars(text) => append_text(out, TEXT, text.as_str()),
        Line::End(name) => append_name(out, END, name.as_str()),
        Line::Pi { target, value } => append_pair(
            out,
            INSTRUCTION,
            target.as_str(),
            value.as_str(),
        ),
        Line::Comment(text) => append_text(out, COMMENT, text.as_str()),
    }
}

/// Appends a line to `out`. After a refusal `out` is as it was.
pub fn write_line(out: &mut Vec<u8>, line: &Line) -> Result<(), AllocError>
    ensures ok { OnOk result (out.new.items ≡ out.old.items ++ written line.now) }
    ensures err { OnErr result (out.new.items ≡ out.old.items) }
    ensures utf8 { IsUtf8 out.old.items → IsUtf8 out.new.items }

    // For a line whose name has no space, line feed or backslash: what is written is read as this
    // line, whatever follows, and before the bytes of lines it makes the bytes of one line more.
    ensures read_back { IsPlain line.now → (more : List ℕ) → IsReadBack line.now more }
    ensures lines { IsPlain line.now → IsLineBefore line.now }
{
    let start = out.len();
    let outcome = append_line(out, line);
    if outcome.is_err() {
        out.truncate(start);
    }
    outcome
}
