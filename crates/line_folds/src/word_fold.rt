// In how many lines of a text a word occurs.
ghost use Rattle.std.specs.Prelude.{◌≡◌, ◌+◌, ◌≤◌, IfOk, count_by, drop, length, take};
ghost use Rattle.text_ops.specs.Lines.{lines_of, occurs};
ghost use Rattle.text_ops.specs.TextMeaning.{word_lines};
ghost use Rattle.line_folds.specs.WordFolds.{word_text};

use crate::line_index::LineIndex;
use grain_tasks::{Chunk, Fold, reduce_drawn};
use outside_io::NoMemory;
use std::alloc::Global;
use std::marker::Model;
use std::thread::Threads;
use text_ops::{Text, WordSearch};

/// The fold of a word over the lines of a text: its value at a line is 1 where the word occurs in it, else 0, and
/// values are added up. Contracts see it as the word and the text.
#[derive(Drop)]
pub struct WordFold<'t> {
    search: WordSearch<'t>,
    index: LineIndex<'t>,
}

impl<'t> Model for WordFold<'t> {
    ghost use Rattle.line_folds.specs.WordFolds.{WordText, word_text};

    ghost Value = { WordText };

    ghost use Rattle.std.specs.Prelude.{◌≤◌, length};
    ghost use Rattle.text_ops.specs.Lines.{lines_of};

    ghost view = { λ fold. word_text fold.search fold.index };

    ghost invariant = { λ fold. length (lines_of fold.index) ≤ 18446744073709551615 };
}

impl<'t> WordFold<'t> {
    /// The fold of a word over the lines of a text.
    pub fn new(alloc: Global, word: &'t [u8], text: &'t Text) -> Result<WordFold<'t>, NoMemory>
        ensures { IfOk result (λ fold. fold ≡ word_text word.entry.now text.entry.now) }
    {
        let search = WordSearch::new(word);
        let index = LineIndex::new(alloc, text)?;
        Ok(WordFold { search, index })
    }

    // In how many of `count` lines from the line `first` on the word occurs. The lines of a text can be counted.
    fn lines_in(&self, first: u64, count: u64) -> u64
        requires { first + count ≤ length (lines_of self.now.text) }
        ensures counted { result ≡ count_by (occurs self.now.word)
            (take count (drop first (lines_of self.now.text))) }
        ensures few { length (lines_of self.now.text) ≤ 18446744073709551615 }
    {
        let lines = self.index.lines_between(first, first + count);
        self.search.lines_with(lines)
    }
}

impl<'t> Fold for WordFold<'t> {
    ghost use Rattle.line_folds.specs.WordFolds.{word_fold, word_fold_lawful};

    type V = u64;

    ghost folding = { word_fold };

    fn count(&self) -> u64 {
        self.index.line_count()
    }

    fn unit(&self, _alloc: Global) -> Result<u64, NoMemory> {
        Ok(0)
    }

    fn at(&self, _alloc: Global, index: u64) -> Result<u64, NoMemory> {
        Ok(self.lines_in(index, 1))
    }

    fn join(&self, _alloc: Global, left: u64, right: &u64) -> Result<u64, NoMemory> {
        Ok(left.saturating_add(*right))
    }

    fn fold_chunk(&self, _alloc: Global, chunk: Chunk) -> Result<u64, NoMemory> {
        Ok(self.lines_in(chunk.from, chunk.to - chunk.from))
    }

    ghost lawful = { word_fold_lawful };
}

/// In how many lines of a text the word occurs: by one worker, who searches the whole text, or by several, each of whom
/// draws chunks of at least `grain` lines. The empty word occurs in every line, and one with a line end in none.
pub fn count_lines_with<R: Threads + Sync>(
    rt: &R,
    alloc: Global,
    workers: u32,
    word: &[u8],
    text: &Text,
    grain: u64,
) -> Result<u64, NoMemory>
    requires workers { (1 ≤ workers) × (workers ≤ 16) }
    requires short { length text.now ≤ 1099511627776 }
    requires grain { (1 ≤ grain) × (grain ≤ 1000000) }
    ensures { IfOk result (λ lines. lines ≡ word_lines word.now text.now) }
{
    if workers == 1 {
        // It has nobody to share the lines with, so no line's place is looked for.
        return Ok(WordSearch::new(word).lines_with(text.as_slice()));
    }
    count_by_chunks(rt, alloc, workers, word, text, grain)
}

// So by workers that draw chunks of lines.
fn count_by_chunks<R: Threads + Sync>(
    rt: &R,
    alloc: Global,
    workers: u32,
    word: &[u8],
    text: &Text,
    grain: u64,
) -> Result<u64, NoMemory>
    requires workers { (1 ≤ workers) × (workers ≤ 16) }
    requires short { length text.now ≤ 1099511627776 }
    requires grain { (1 ≤ grain) × (grain ≤ 1000000) }
    ensures { IfOk result (λ lines. lines ≡ word_lines word.now text.now) }
{
    let fold = WordFold::new(alloc, word, text)?;
    let count = fold.count();
    match reduce_drawn(rt, alloc, workers, &fold, count, grain) {
        Ok(lines) => Ok(lines),
        Err(_error) => Err(NoMemory),
    }
}
