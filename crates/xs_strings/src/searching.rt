//! What is before and after an occurrence.

ghost use Rattle.std.specs.Prelude.{◌≡◌, ◌++◌, OnOk, OnErr};
ghost use Rattle.std.specs.Str.{chars, encode_utf8_all, IsUtf8};
ghost use Rattle.xs_strings.specs.Searching.{text_before, text_after};

use std::alloc::AllocError;

/// Appends the part of `s` before the first occurrence of `t`, and nothing where `s` holds no `t`
/// (XPath 1.0, 4.2). After a refusal `out` is as it was.
pub fn substring_before(out: &mut Vec<u8>, s: &str, t: &str) -> Result<(), AllocError>
    ensures ok { OnOk result
        (out.new.items
        ≡ out.old.items ++ encode_utf8_all (text_before (chars s.now) (chars t.now))) }
    ensures err { OnErr result (out.new.items ≡ out.old.items) }
    ensures utf8 { IsUtf8 out.old.items → IsUtf8 out.new.items }
{
    match s.split_once(t) {
        Some((before, _)) => out.extend_from_slice(before.as_bytes()),
        None => Ok(()),
    }
}

/// Appends the part of `s` after the first occurrence of `t`, and nothing where `s` holds no `t`
/// (XPath 1.0, 4.2). After a refusal `out` is as it was.
pub fn substring_after(out: &mut Vec<u8>, s: &str, t: &str) -> Result<(), AllocError>
    ensures ok { OnOk result
        (out.new.items
        ≡ out.old.items ++ encode_utf8_all (text_after (chars s.now) (chars t.now))) }
    ensures err { OnErr result (out.new.items ≡ out.old.items) }
    ensures utf8 { IsUtf8 out.old.items → IsUtf8 out.new.items }
{
    match s.split_once(t) {
        Some((_, after)) => out.extend_from_slice(after.as_bytes()),
        None => Ok(()),
    }
}
