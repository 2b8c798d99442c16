//! Reads the source of a run, and strips white space of it.

ghost use Rattle.std.specs.Prelude.{◌≡◌, IfOk, OnOk};
ghost use Rattle.xs_outside.specs.Edge.{failed_after};
ghost use Rattle.xs_reply.specs.Read.{read_as};
ghost use Rattle.xs_reply.specs.Run.{source_of};
ghost use Rattle.xs_reply.specs.Reply.{AsksFor, FileGives};
ghost use Rattle.xs_making.specs.Laws.{AreWell};
ghost use Rattle.xs_rules.specs.WhiteSpace.{stripped};
ghost use Rattle.xs_tree.specs.Stripping.{without};

use std::alloc::{AllocError, Global};
use xs_build::{BuildFault, Built, build_tree};
use xs_outside::{FetchEnd, Library};
use xs_rules::white_space::strip_space;
use xs_sheet::declarations::StripRule;
use xs_tree::Tree;

/// The most bytes of a source.
pub const SOURCE_LIMIT: u64 = 268_435_456;

/// Why a file that was fetched is no document.
#[derive(Clone, Copy, Debug)]
pub struct BadDocument {
    /// The number of the fault, 1 to 12.
    pub number: u8,
    /// The line that has it; 0 is the file as a whole.
    pub line: u32,
}

/// The source of this name in the library, or why it is refused. The names of its nodes can be
/// written.
pub fn read_source<L: Library>(
    alloc: Global,
    name: &str,
    library: &mut L,
) -> Result<Result<Tree, BadDocument>, FetchEnd>
    ensures files { L.files library.new ≡ L.files library.old }
    ensures asked { AsksFor result name.now (L.asked library.old) (L.asked library.new) }
    ensures failed { L.failed library.new ≡ failed_after result name.now (L.failed library.old) }
    ensures tree { IfOk result (λ source.
        FileGives source_of (L.files library.old) name.now (read_as (λ tree. tree) source)) }
    ensures well { IfOk result (λ source. IfOk source (λ tree. AreWell tree)) }
{
    let bytes = library.fetch(alloc, name, SOURCE_LIMIT)?;
    let source = source_in(alloc, &bytes)?;
    Ok(source)
}

/// The tree that a source's bytes represent, or why they are refused.
#[tactic(auto, unfolding(crate::specs::Run::source_of))]
fn source_in(alloc: Global, bytes: &[u8]) -> Result<Result<Tree, BadDocument>, AllocError>
    ensures tree { IfOk result (λ source.
        read_as (λ tree. tree) source ≡ source_of bytes.now) }
    ensures well { IfOk result (λ source. IfOk source (λ tree. AreWell tree)) }
{
    xs_result_laws::results::documents_are_well();
    match build_tree(alloc, bytes, SOURCE_LIMIT) {
        Ok(Built { tree, lines: _ }) => {
            let _count = tree.len();
            Ok(Ok(tree))
        }
        Err(BuildFault::Bad { number, line }) => Ok(Err(BadDocument { number, line })),
        Err(BuildFault::NoMemory) => Err(AllocError),
    }
}

/// Strips white space of a source as the rules say (XSLT 1.0, 3.4). Most stylesheets have none, and
/// then the source is not looked through.
#[tactic(auto, using(crate::proofs::StripLemmas::stripped_without_rules))]
pub fn strip(alloc: Global, tree: &mut Tree, rules: &[StripRule]) -> Result<(), AllocError>
    ensures stripped { OnOk result (tree.new ≡ without (stripped rules.now tree.old) tree.old) }
{
    if rules.is_empty() {
        return Ok(());
    }
    strip_space(alloc, tree, rules)
}
