//! What the inputs of a command line ask for.

ghost use Rattle.std.specs.Prelude.{◌≡◌, ◌++◌, IfOk, MatchOption, OnOk, drop, false, option_map};
ghost use Rattle.std.specs.Prelude.{true};
ghost use Rattle.std.specs.List.{flat_map};
ghost use Rattle.xs_words.specs.Inputs.{all_pairs, check_work, document_in, files_work};
ghost use Rattle.xs_words.specs.Inputs.{has_distinct_names, is_document, load_work, named};
ghost use Rattle.xs_words.specs.Inputs.{pair_of, pairs_of, parameter_in, run_work, work_of};
ghost use Rattle.xs_words.specs.Results.{Gives, HasAdded, borrowed, pair_reported, work_reported};

use crate::choice::{Job, WordsEnd};
use indexmap::IndexSet;
use std::alloc::{AllocError, Global};
use xs_text::{TextBuf, is_ncname};

/// The greatest number of further documents.
pub const MOST_DOCUMENTS: usize = 255;

/// What is run, and the further documents.
#[derive(Drop)]
pub struct Work {
    /// What is run.
    pub job: Job,
    /// The names and paths of further documents.
    pub documents: Vec<(TextBuf, TextBuf)>,
}

/// What the inputs ask for, beside the number of rows of a made input and whether the stylesheet is
/// only checked.
#[tactic(auto, unfolding(crate::specs::Inputs::work_of))]
pub fn work_of(
    alloc: Global,
    load: Option<u32>,
    is_check: bool,
    inputs: &[&str],
) -> Result<Work, WordsEnd>
    ensures { Gives work_reported (work_of load is_check (borrowed inputs.now)) result }
{
    match load {
        Some(rows) => load_work(alloc, rows, is_check, inputs),
        None => {
            if is_check {
                check_work(alloc, inputs)
            } else {
                run_work(alloc, inputs)
            }
        }
    }
}

/// A made input: no word stands beside it, and nothing is only checked.
fn load_work(alloc: Global, rows: u32, is_check: bool, inputs: &[&str]) -> Result<Work, WordsEnd>
    ensures { Gives work_reported (load_work rows is_check (borrowed inputs.now)) result }
{
    if is_check {
        return Err(WordsEnd::Usage);
    }
    match inputs {
        [] => Ok(Work {
            job: Job::Load(rows),
            documents: Vec::new(alloc),
        }),
        [_, ..] => Err(WordsEnd::Usage),
    }
}

/// A check of one stylesheet.
fn check_work(alloc: Global, inputs: &[&str]) -> Result<Work, WordsEnd>
    ensures { Gives work_reported (check_work (borrowed inputs.now)) result }
{
    match inputs {
        [sheet] => Ok(Work {
            job: Job::Check {
                sheet: TextBuf::of(alloc, sheet)?,
            },
            documents: Vec::new(alloc),
        }),
        _ => Err(WordsEnd::Usage),
    }
}

/// A run of a stylesheet on a source.
fn run_work(alloc: Global, inputs: &[&str]) -> Result<Work, WordsEnd>
    ensures { Gives work_reported (run_work (borrowed inputs.now)) result }
{
    match inputs {
        [sheet, source, rest @ ..] => files_work(alloc, sheet, source, rest),
        _ => Err(WordsEnd::Usage),
    }
}

/// A run of a stylesheet on a source, with the parameters and documents of the other inputs.
#[tactic(auto, unfolding(crate::specs::Inputs::files_work), using(crate::proofs::InputLemmas::parameters_borrowed, crate::proofs::InputLemmas::documents_borrowed))]
fn files_work(alloc: Global, sheet: &str, source: &str, rest: &[&str]) -> Result<Work, WordsEnd>
    ensures { Gives work_reported (files_work sheet.now source.now (borrowed rest.now)) result }
{
    let parameters = parameters_in(alloc, rest)?;
    let documents = documents_in(alloc, rest)?;
    let given = pairs_of(alloc, parameters.as_slice())?;
    let documents = pairs_of(alloc, documents.as_slice())?;
    if documents.len() > MOST_DOCUMENTS {
        return Err(WordsEnd::Usage);
    }
    let sheet = TextBuf::of(alloc, sheet)?;
    let source = TextBuf::of(alloc, source)?;
    Ok(Work {
        job: Job::Files {
            sheet,
            source,
            given,
        },
        documents,
    })
}

/// The inputs that are parameters.
fn parameters_in<'a>(alloc: Global, inputs: &[&'a str]) -> Result<Vec<&'a str>, AllocError>
    ensures { IfOk result (λ words.
        borrowed words.items ≡ flat_map (λ word. parameter_in word.now) inputs.now) }
{
    let mut words = Vec::new(alloc);
    for word in inputs {
        push_parameter(&mut words, word)?;
    }
    Ok(words)
}

/// Puts an input behind the others, where it is a parameter.
fn push_parameter<'a>(words: &mut Vec<&'a str>, word: &'a str) -> Result<(), AllocError>
    ensures { OnOk result (borrowed words.new.items
        ≡ borrowed words.old.items ++ parameter_in word.entry.now) }
{
    if document_of(word).is_none() {
        words.push(word)?;
    }
    Ok(())
}

/// What stands behind the `@` of the inputs that are documents.
fn documents_in<'a>(alloc: Global, inputs: &[&'a str]) -> Result<Vec<&'a str>, AllocError>
    ensures { IfOk result (λ words.
        borrowed words.items ≡ flat_map (λ word. document_in word.now) inputs.now) }
{
    let mut words = Vec::new(alloc);
    for word in inputs {
        push_document(&mut words, word)?;
    }
    Ok(words)
}

/// Puts what stands behind the `@` of an input behind the others, where it is a document.
fn push_document<'a>(words: &mut Vec<&'a str>, word: &'a str) -> Result<(), AllocError>
    ensures { OnOk result (borrowed words.new.items
        ≡ borrowed words.old.items ++ document_in word.entry.now) }
{
    if let Some(pair) = document_of(word) {
        words.push(pair)?;
    }
    Ok(())
}

/// What stands behind the `@` of a document; `None` where the word is none.
fn document_of(word: &str) -> Option<&str>
    ensures { MatchOption result (is_document word.now ≡ false)
        (λ rest. (is_document word.now ≡ true) × (rest.now ≡ drop 1 word.now)) }
{
    word.strip_prefix('@')
}

/// The pairs that words write, no two of one name.
#[tactic(auto, unfolding(crate::specs::Inputs::pairs_of))]
fn pairs_of(alloc: Global, words: &[&str]) -> Result<Vec<(TextBuf, TextBuf)>, WordsEnd>
    ensures { Gives (λ pairs. pairs.items) (pairs_of (borrowed words.now)) result }
{
    let pairs = all_pairs(alloc, words)?;
    if has_distinct_names(alloc, pairs.as_slice())? {
        Ok(pairs)
    } else {
        Err(WordsEnd::Usage)
    }
}

/// Whether no two pairs have the same name.
#[tactic(auto, unfolding(crate::specs::Inputs::has_distinct_names, crate::specs::Inputs::are_new))]
fn has_distinct_names(alloc: Global, pairs: &[(TextBuf, TextBuf)]) -> Result<bool, AllocError>
    ensures { IfOk result (λ distinct. distinct ≡ has_distinct_names pairs.now) }
{
    let mut names = IndexSet::new(alloc);
    for pair in pairs {
        if !add_name(&mut names, pair.0.as_str())? {
            return Ok(false);
        }
    }
    Ok(true)
}

/// Puts a name behind others, and answers whether it is none of them.
fn add_name<'a>(names: &mut IndexSet<&'a str>, name: &'a str) -> Result<bool, AllocError>
    ensures { IfOk result (λ added. HasAdded added name.entry.now (borrowed names.old.keys)
        (borrowed names.new.keys)) }
{
    let added = names.insert(name)?;
    Ok(added)
}

/// Each word as a pair.
fn all_pairs(alloc: Global, words: &[&str]) -> Result<Vec<(TextBuf, TextBuf)>, WordsEnd>
    ensures { Gives (λ pairs. pairs.items) (all_pairs (borrowed words.now)) result }
{
    let mut pairs = Vec::new(alloc);
    for word in words {
        match owned_pair(alloc, word) {
            Ok(pair) => pairs.push(pair)?,
            Err(end) => return Err(end),
        }
    }
    Ok(pairs)
}

/// The name and the text of `name=text`, in memory of their own.
fn owned_pair(alloc: Global, word: &str) -> Result<(TextBuf, TextBuf), WordsEnd>
    ensures { Gives (λ pair. pair) (pair_of word.now) result }
{
    match pair_of(word) {
        Some((name, text)) => {
            let name = TextBuf::of(alloc, name)?;
            let text = TextBuf::of(alloc, text)?;
            Ok((name, text))
        }
        None => Err(WordsEnd::Usage),
    }
}

/// The name and the text of `name=text`; `None` where the word is none.
#[tactic(auto, unfolding(crate::specs::Inputs::pair_of))]
fn pair_of(word: &str) -> Option<(&str, &str)>
    ensures { option_map pair_reported result ≡ pair_of word.now }
{
    match word.split_once('=') {
        Some((name, text)) => named(name, text),
        None => None,
    }
}

/// A name and a text, where the name is an NCName.
fn named<'a>(name: &'a str, text: &'a str) -> Option<(&'a str, &'a str)>
    ensures { option_map pair_reported result ≡ named name.now text.now }
{
    if is_ncname(name) {
        Some((name, text))
    } else {
        None
    }
}
