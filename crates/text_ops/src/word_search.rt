// The lines in which a word occurs, counted.
ghost use Rattle.std.specs.Prelude.{◌≡◌};
ghost use Rattle.text_ops.specs.Lines.{IsNormal};
ghost use Rattle.text_ops.specs.TextMeaning.{word_lines};
ghost use Rattle.text_ops.specs.inside.FoundLine.{IsSearchWord};

use crate::found_line::first_kept;
use crate::line_ends::line_ends;
use memchr::memchr;
use memchr::memmem::Finder;
use std::marker::Model;

/// A word that is looked for in several texts, or in several parts of one. Contracts see it as the word.
#[derive(Drop)]
pub struct WordSearch<'w> {
    word: &'w [u8],
    finder: Finder<'w>,
}

impl<'w> Model for WordSearch<'w> {
    ghost use Rattle.std.specs.Prelude.{◌≡◌, ℕ, List};

    ghost Value = { List ℕ };

    ghost view = { λ search. search.word.now };

    ghost invariant = { λ search. search.finder ≡ search.word.now };
}

impl<'w> WordSearch<'w> {
    /// A search for this word.
    pub fn new(word: &'w [u8]) -> WordSearch<'w>
        ensures { result ≡ word.entry.now }
    {
        WordSearch {
            word,
            finder: Finder::new(word),
        }
    }

    /// In how many lines of a text the word occurs. The empty word occurs in every line, and one with a line end in
    /// none.
    pub fn lines_with(&self, text: &[u8]) -> u64
        requires { IsNormal text.now }
        ensures { result ≡ word_lines self.now text.now }
    {
        if self.word.is_empty() {
            return line_ends(text) as u64;
        }
        if memchr(b'\n', self.word).is_some() {
            return 0;
        }
        lines_found(&self.finder, text)
    }
}

// In how many lines the word occurs.
fn lines_found(word: &Finder<'_>, text: &[u8]) -> u64
    requires search { IsSearchWord word.now }
    requires normal { IsNormal text.now }
    ensures { result ≡ word_lines word.now text.now }
{
    let mut rest = text;
    let mut lines = 0;
    while let Some(line) = first_kept(word, rest) {
        lines += 1;
        rest = &rest[line.end..];
    }
    lines
}
