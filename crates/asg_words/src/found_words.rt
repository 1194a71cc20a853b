//! What the command finds in the words.

ghost use Rattle.std.specs.Prelude.{◌≡◌, codes, option_map};
ghost use Rattle.clap.specs.Matches.{found_of};
ghost use Rattle.clap.specs.Walk.{first_of, rows_of};
ghost use Rattle.asg_words.specs.CommandLine.{found_in, is_flag_set};

use crate::FoundWords;
use clap::ArgMatches;

// What stands in the matches.
#[tactic(auto, using(crate::proofs::Matches::all_values))]
pub fn found_in<'m, 'a>(matches: &'m ArgMatches<'a>) -> FoundWords<'m, 'a>
    ensures { result ≡ found_in (rows_of (found_of matches.now)) }
{
    FoundWords {
        command: value(matches, "command"),
        words: matches.get_raw("words"),
        format: value(matches, "format"),
        place: value(matches, "place"),
        each: value(matches, "each"),
        count: value(matches, "count"),
        script: value(matches, "script"),
        brief: is_brief(matches),
    }
}

// The value of an option, or the word in a place.
#[tactic(auto, using(crate::proofs::Matches::first_values))]
fn value<'a>(matches: &ArgMatches<'a>, name: &str) -> Option<&'a str>
    ensures { option_map (λ word. word.now) result
        ≡ first_of name.now (rows_of (found_of matches.now)) }
{
    matches.get_str(name)
}

// Whether the flag stands.
fn is_brief(matches: &ArgMatches<'_>) -> bool
    ensures { result ≡ is_flag_set (codes "brief") (rows_of (found_of matches.now)) }
{
    match value(matches, "brief") {
        Some(text) => text == "true",
        None => false,
    }
}
