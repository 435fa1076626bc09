// The lines in which a word occurs, and the others.
ghost use Rattle.std.specs.Prelude.{◌≡◌, []};
ghost use Rattle.text_ops.specs.TextMeaning.{has_word, keep_meaning, without_meaning};
ghost use Rattle.text_ops.specs.Values.{Makes};
ghost use Rattle.text_ops.specs.inside.FoundLine.{IsSearchWord};

use crate::found_line::first_kept;
use crate::gathered::ApplyError;
use crate::line_runs::LineRuns;
use crate::part::pass;
use crate::text::Text;
use memchr::memchr;
use memchr::memmem::Finder;
use std::alloc::Global;

/// The lines in which the word occurs. The empty word occurs in every line, and one with a line end in none.
pub fn keep(alloc: Global, word: &[u8], text: &Text) -> Result<Text, ApplyError>
    ensures { Makes (keep_meaning word.now text.now) result }
{
    if word.is_empty() {
        return pass(text);
    }
    if memchr(b'\n', word).is_some() {
        return Ok(Text::new());
    }
    keep_found(alloc, &Finder::new(word), text)
}

/// The lines in which the word doesn't occur.
pub fn without(alloc: Global, word: &[u8], text: &Text) -> Result<Text, ApplyError>
    ensures { Makes (without_meaning word.now text.now) result }
{
    if word.is_empty() {
        return Ok(Text::new());
    }
    if memchr(b'\n', word).is_some() {
        return pass(text);
    }
    drop_found(alloc, &Finder::new(word), text)
}

/// Whether the word occurs in some line. The empty word occurs in every line, and one with a line end in none.
pub fn has_word(word: &[u8], text: &Text) -> bool
    ensures { result ≡ has_word word.now text.now }
{
    let bytes = text.as_slice();
    if word.is_empty() {
        return !bytes.is_empty();
    }
    if memchr(b'\n', word).is_some() {
        return false;
    }
    first_kept(&Finder::new(word), bytes).is_some()
}

// The lines in which the word occurs, at any place of the line.
fn keep_found(alloc: Global, word: &Finder<'_>, text: &Text) -> Result<Text, ApplyError>
    requires { IsSearchWord word.now }
    ensures { Makes (keep_meaning word.now text.now) result }
{
    let bytes = text.as_slice();
    let mut kept = LineRuns::new(alloc, text);
    let mut at = 0;
    while let Some(line) = first_kept(word, &bytes[at..]) {
        kept.keep(at + line.start, at + line.end)?;
        at += line.end;
    }
    kept.finish(alloc)
}

// The other lines.
fn drop_found(alloc: Global, word: &Finder<'_>, text: &Text) -> Result<Text, ApplyError>
    requires { IsSearchWord word.now }
    ensures { Makes (without_meaning word.now text.now) result }
{
    let bytes = text.as_slice();
    let mut kept = LineRuns::new(alloc, text);
    let mut at = 0;
    while let Some(line) = first_kept(word, &bytes[at..]) {
        kept.keep(at, at + line.start)?;
        at += line.end;
    }
    kept.keep(at, bytes.len())?;
    kept.finish(alloc)
}
