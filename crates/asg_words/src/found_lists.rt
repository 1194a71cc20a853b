//! What is found in the words of a command line.

ghost use Rattle.std.specs.Prelude.{◌≡◌, length, option_map, slice_get};

use std::marker::Model;

/// The command's name, the words after it, the values of the options, and whether the flag stands.
#[derive(Drop)]
pub struct FoundWords<'m, 'a> {
    pub command: Option<&'a str>,
    pub words: Option<&'m [&'a str]>,
    pub format: Option<&'a str>,
    pub place: Option<&'a str>,
    pub each: Option<&'a str>,
    pub count: Option<&'a str>,
    pub script: Option<&'a str>,
    pub brief: bool,
}

impl<'m, 'a> Model for FoundWords<'m, 'a> {
    ghost use Rattle.std.specs.Prelude.{[], map, option_map, unwrap_or};
    ghost use Rattle.asg_words.specs.Found.{Found};

    ghost Value = { Found };

    ghost view = { λ found. record {
      command = option_map (λ word. word.now) found.command;
      words = unwrap_or (option_map (λ words. map (λ word. word.now) words.now) found.words) [];
      format = option_map (λ word. word.now) found.format;
      place = option_map (λ word. word.now) found.place;
      each = option_map (λ word. word.now) found.each;
      count = option_map (λ word. word.now) found.count;
      script = option_map (λ word. word.now) found.script;
      brief = found.brief;
    } };
}

impl<'m, 'a> FoundWords<'m, 'a> {
    /// How many words stand after the command's name.
    pub fn count_words(&self) -> usize
        ensures { result ≡ length self.now.words }
    {
        match self.words {
            Some(words) => words.len(),
            None => 0,
        }
    }

    /// The word at a place, from 0, after the command's name.
    pub fn word(&self, place: usize) -> Option<&'a str>
        ensures { option_map (λ word. word.now) result ≡ slice_get self.now.words place }
    {
        self.words?.get(place).copied()
    }
}
