//! Documents, whole.

ghost use Rattle.std.specs.Prelude.{◌≡◌, ◌+◌, ◌<◌, ◌≤◌, ◌&&◌, not, length, IfOk, IfSome, OnOk};
ghost use Rattle.xs_build.specs.Document.{document};
ghost use Rattle.xs_build.specs.DocumentTree.{IsOneDocument};
ghost use Rattle.xs_build.specs.steps.Rest.{left, fault_at, Goes};
ghost use Rattle.xs_build.specs.Limits.{most_bytes};
ghost use Rattle.xs_build.specs.steps.Invariant.{IsGood};
ghost use Rattle.xs_build.specs.Results.{Builds};
ghost use Rattle.xs_build.specs.steps.State.{state, initial};
ghost use Rattle.xs_build.specs.Start.{begins_with};
ghost use Rattle.xs_pyx.specs.Row.{rows_of};
ghost use Rattle.xs_pyx.specs.Views.{bytes_left};

use crate::builder::Builder;
use crate::fault::{BAD_LINE, BAD_UTF8, BuildFault, TOO_LARGE};
use std::alloc::Global;
use xs_pyx::Rest;
use xs_tree::Tree;

/// A document's tree, and where its nodes come from.
#[derive(Drop)]
pub struct Built {
    /// The nodes.
    pub tree: Tree,
    /// The line that each node comes from, in document order. Lines are counted from 1, and the
    /// root is at line 0.
    pub lines: Vec<u32>,
}

/// The tree that the bytes of a document represent, and the line of each node; or the fault of the
/// first bad line. The tree is that of one well-formed document (XPath 1.0, 5).
///
/// `limit` is the most bytes that the document may have, and 8,000,000 the most nodes, namespace
/// nodes among them.
pub fn build_tree(alloc: Global, bytes: &[u8], limit: u64) -> Result<Built, BuildFault>
    requires limit { limit ≤ most_bytes }
    ensures document { Builds result (document limit bytes.now) }
    ensures each { IfOk result (λ built. length built.lines.items ≡ length built.tree) }
    ensures tree { IfOk result (λ built. IsOneDocument built.tree) }

    // More bytes than the limit are refused without memory.
    ensures large { limit < length bytes.now → result ≡ Err (BuildFault.Bad 11 0) }
{
    if bytes.len() as u64 > limit {
        return Err(BuildFault::Bad {
            number: TOO_LARGE,
            line: 0,
        });
    }
    read_lines(alloc, bytes)
}

/// The tree that all lines give.
fn read_lines(alloc: Global, bytes: &[u8]) -> Result<Built, BuildFault>
    requires { length bytes.now ≤ most_bytes }
    ensures document { Builds result (left initial (rows_of bytes.now)) }
    ensures each { IfOk result (λ built. length built.lines.items ≡ length built.tree) }
{
    let mut builder = Builder::new(alloc)?;
    let mut rest = Rest::of(bytes);
    while let Some(behind) = read_line(&mut builder, alloc, rest)? {
        rest = behind;
    }
    builder.finish()
}

/// Takes the first line of what is left, and answers what stands behind it.
fn read_line<'a>(
    builder: &mut Builder<'a>,
    alloc: Global,
    rest: Rest<'a>,
) -> Result<Option<Rest<'a>>, BuildFault>
    requires good { IsGood (state builder.old) }
    requires few { builder.old.line + length (bytes_left rest) < 4294967296 }
    ensures goes { Goes result (state builder.old) (state builder.new) (bytes_left rest.entry) }
    ensures good { OnOk result (IsGood (state builder.new)) }
    ensures line { OnOk result (builder.new.line ≤ builder.old.line + 1) }
    ensures shorter { IfOk result (λ found. IfSome found
        (λ behind. length (bytes_left behind) < length (bytes_left rest.entry))) }
{
    let line = rest.plain_line();
    if line.size == 0 {
        return read_any_line(builder, alloc, rest);
    }
    let behind = rest.behind(line.size);
    builder.take_plain(alloc, line.kind, line.rest, behind.bytes())?;
    builder.line += 1;
    Ok(Some(behind))
}

/// The same of any line.
#[inline(never)]
#[tactic(auto, using(crate::proofs::RestLemmas::is_readable))]
fn read_any_line<'a>(
    builder: &mut Builder<'a>,
    alloc: Global,
    rest: Rest<'a>,
) -> Result<Option<Rest<'a>>, BuildFault>
    requires good { IsGood (state builder.old) }
    requires few { builder.old.line + length (bytes_left rest) < 4294967296 }
    ensures goes { Goes result (state builder.old) (state builder.new) (bytes_left rest.entry) }
    ensures good { OnOk result (IsGood (state builder.new)) }
    ensures line { OnOk result (builder.new.line ≤ builder.old.line + 1) }
    ensures shorter { IfOk result (λ found. IfSome found
        (λ behind. length (bytes_left behind) < length (bytes_left rest.entry))) }
{
    match rest.view_line() {
        Ok(None) => Ok(None),
        Ok(Some((view, size))) => {
            let behind = rest.behind(size);
            builder.take(alloc, view, behind.bytes())?;
            builder.line += 1;
            Ok(Some(behind))
        }
        Err(fault) => {
            let is_stray = is_stray(builder, rest.bytes());
            Err(builder.bad(fault_at(is_stray, fault.number())))
        }
    }
}

/// Whether the first line is an attribute that follows no start tag.
fn is_stray(builder: &Builder<'_>, bytes: &[u8]) -> bool
    ensures { result ≡ (begins_with 65 bytes.now && not builder.now.follows) }
{
    matches!(bytes, [b'A', ..]) && !builder.follows
}

/// The fault of a line that says nothing: of a stray attribute 1 comes before all but 3.
fn fault_at(is_stray: bool, number: u8) -> u8
    ensures { result ≡ fault_at is_stray number }
{
    if is_stray && number != BAD_UTF8 {
        BAD_LINE
    } else {
        number
    }
}
