//! The text of a number (XPath 1.0, 4.2).

ghost use Rattle.std.specs.Prelude.{◌≡◌, ◌++◌, OnOk, OnErr, Ok};
ghost use Rattle.std.specs.Str.{IsUtf8};
ghost use Rattle.xs_num.specs.Text.{text_of, number_in};

use crate::number::{Num, Number};
use itoa::Buffer;
use std::alloc::AllocError;

/// Appends the text of a number: its decimal digits, after `-` where it is below 0, or `NaN`.
/// On an error `out` is as it was.
pub fn write_num(out: &mut Vec<u8>, n: Num) -> Result<(), AllocError>
    ensures ok { OnOk result (out.new.items ≡ out.old.items ++ text_of n) }
    ensures err { OnErr result (out.new.items ≡ out.old.items) }
    ensures utf8 { IsUtf8 out.old.items → IsUtf8 out.new.items }

    // What is written is read back.
    ensures reads_back { number_in (text_of n) ≡ Ok n }
{
    match n.get() {
        Number::Whole(value) => {
            let mut buffer = Buffer::new();
            out.extend_from_slice(buffer.format(value).as_bytes())
        }
        Number::NaN => out.extend_from_slice(b"NaN"),
    }
}
