//! The two files of a load.

ghost use Rattle.std.specs.Prelude.{◌≡◌, ◌++◌, ◌∷◌, [], IfOk, OnOk, codes};
ghost use Rattle.xs_load.specs.Case.{element, elements, sheet, source};

use itoa::Buffer;
use std::alloc::{AllocError, Global};

/// The stylesheet and the source of a load of `count` elements, as PYX lines.
///
/// The elements `i` have the numbers from 1 as their texts, and one of 97 keys. The stylesheet puts
/// each element whose number is a multiple of 100,000, and then the number of elements, the sum of
/// their keys, and how many have the key 5.
pub fn load_case(alloc: Global, count: u32) -> Result<(Vec<u8>, Vec<u8>), AllocError>
    ensures sheet { IfOk result (λ files. files.0.items ≡ sheet) }
    ensures source { IfOk result (λ files. files.1.items ≡ source count) }
{
    let sheet = sheet(alloc)?;
    let mut source = Vec::from_slice(alloc, b"(r\n")?;
    append_elements(&mut source, count)?;
    source.extend_from_slice(b")r\n")?;
    Ok((sheet, source))
}

/// The stylesheet.
fn sheet(alloc: Global) -> Result<Vec<u8>, AllocError>
    ensures { IfOk result (λ lines. lines.items ≡ sheet) }
{
    let mut lines = Vec::new(alloc);
    lines.extend_from_slice(
        b"(xsl:stylesheet\nAxmlns:xsl http://www.w3.org/1999/XSL/Transform\nAversion 1.0\n(xsl:output\nAmethod text\n)xsl:output\n",
    )?;
    lines.extend_from_slice(b"(xsl:key\nAname k\nAmatch i\nAuse @k\n)xsl:key\n")?;
    lines.extend_from_slice(
        b"(xsl:template\nAmatch /\n(xsl:apply-templates\nAselect r/i\n)xsl:apply-templates\n",
    )?;
    lines.extend_from_slice(
        b"(xsl:value-of\nAselect concat(count(r/i),' ',sum(r/i/@k),' ',count(key('k','5')))\n)xsl:value-of\n",
    )?;
    lines.extend_from_slice(b"(xsl:text\n-\\n\n)xsl:text\n)xsl:template\n")?;
    lines.extend_from_slice(
        b"(xsl:template\nAmatch i\n(xsl:if\nAtest . mod 100000 = 0\n(xsl:value-of\nAselect .\n)xsl:value-of\n",
    )?;
    lines.extend_from_slice(
        b"(xsl:text\n-\\n\n)xsl:text\n)xsl:if\n)xsl:template\n)xsl:stylesheet\n",
    )?;
    Ok(lines)
}

/// Appends the elements with the numbers from 1 to `count`.
#[tactic(auto, unfolding(crate::specs::Case::elements))]
fn append_elements(source: &mut Vec<u8>, count: u32) -> Result<(), AllocError>
    ensures { OnOk result (source.new.items ≡ source.old.items ++ elements count) }
{
    let mut number = 0;
    while number < count {
        append_element(source, number + 1)?;
        number += 1;
    }
    Ok(())
}

/// Appends an element: its number is its text, and decides its key.
fn append_element(source: &mut Vec<u8>, number: u32) -> Result<(), AllocError>
    ensures { OnOk result (source.new.items ≡ source.old.items ++ element number) }
{
    let mut digits = Buffer::new();
    let key = 31 * u64::from(number) % 97;
    source.extend_from_slice(b"(i\nAk ")?;
    source.extend_from_slice(digits.format(key).as_bytes())?;
    source.extend_from_slice(b"\n-")?;
    source.extend_from_slice(digits.format(number).as_bytes())?;
    source.extend_from_slice(b"\n)i\n")
}
