//! What the matches of the command hold.

ghost use Rattle.std.specs.Prelude.{◌≡◌, [], option_map, unwrap_or};
ghost use Rattle.clap.specs.Words.{first_of};
ghost use Rattle.xs_words.specs.Options.{has_flag, inputs_of};
ghost use Rattle.xs_words.specs.Results.{borrowed};
ghost use Rattle.xs_words.specs.Rows.{rows_in};

use clap::ArgMatches;

/// The value of an option; `None` where it is not given.
#[tactic(auto, using(crate::proofs::RowLemmas::first_value_rows))]
pub fn value_of<'a>(matches: &ArgMatches<'a>, name: &str) -> Option<&'a str>
    ensures { option_map (λ word. word.now) result ≡ first_of name.now (rows_in matches.now) }
{
    matches.get_str(name)
}

/// Whether a flag is given.
#[tactic(auto, unfolding(crate::specs::Options::has_flag))]
pub fn has_flag(matches: &ArgMatches<'_>, name: &str) -> bool
    ensures { result ≡ has_flag (rows_in matches.now) name.now }
{
    match value_of(matches, name) {
        Some(word) => word == "true",
        None => false,
    }
}

/// The words that are no options; `None` where there are none.
#[tactic(auto, unfolding(crate::specs::Options::inputs_of), using(crate::proofs::RowLemmas::raw_values_rows))]
pub fn inputs_of<'m, 'a>(matches: &'m ArgMatches<'a>) -> Option<&'m [&'a str]>
    ensures { unwrap_or (option_map (λ words. borrowed words.now) result) []
        ≡ inputs_of (rows_in matches.now) }
{
    matches.get_raw("inputs")
}
