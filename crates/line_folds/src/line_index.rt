// Where the lines of a text begin.
ghost use Rattle.std.specs.Prelude.{◌≡◌, ◌*◌, ◌-◌, ◌≤◌, IfNone, IfOk, IfSome, drop, length, take};
ghost use Rattle.text_ops.specs.Lines.{IsNormal, lines_of};
ghost use Rattle.text_ops.specs.LineParts.{IsCut};
ghost use Rattle.line_folds.specs.inside.Marks.{AreLineMarks, mark_step};

use outside_io::NoMemory;
use std::alloc::Global;
use std::marker::Model;
use text_ops::{Text, end_of_first, slice_line_count};

// A place is kept for each of so many lines. A line is found by a walk over fewer lines than that.
const STEP: u64 = 1000;

/// A text with the places of some of its lines, by which any line is found without a walk over all those before it.
/// Contracts see it as the bytes of the text.
#[derive(Drop)]
pub struct LineIndex<'t> {
    text: &'t [u8],
    lines: u64,
    // Where each 1,000th line begins, the first one's place first.
    marks: Vec<usize>,
}

impl<'t> Model for LineIndex<'t> {
    ghost use Rattle.std.specs.Prelude.{ℕ, List};

    ghost Value = { List ℕ };

    ghost use Rattle.line_folds.specs.inside.Marks.{IsLineIndex};

    ghost view = { λ index. index.text.now };

    ghost invariant = { λ index. IsLineIndex index.text.now index.lines index.marks.items };
}

impl<'t> LineIndex<'t> {
    /// The index of a text. It takes a word of memory for 1,000 lines.
    pub fn new(alloc: Global, text: &'t Text) -> Result<LineIndex<'t>, NoMemory>
        ensures index { IfOk result (λ index. index ≡ text.entry.now) }
        ensures few { IfOk result (λ _. length (lines_of text.entry.now) ≤ 18446744073709551615) }
    {
        let text = text.as_slice();
        let marks = marks_of(alloc, text)?;
        let lines = lines_by_marks(text, marks.as_slice());
        Ok(LineIndex { text, lines, marks })
    }

    /// How many lines the text has.
    pub fn line_count(&self) -> u64
        ensures { result ≡ length (lines_of self.now) }
    {
        self.lines
    }

    /// The text from a line on: all of it but the first `n` lines.
    pub fn from_line(&self, n: u64) -> &[u8]
        requires { n ≤ length (lines_of self.now) }
        ensures normal { IsNormal result.now }
        ensures lines { lines_of result.now ≡ drop n (lines_of self.now) }
    {
        let Some(mark) = self.mark(n / STEP) else {
            return &[];
        };
        let rest = &self.text[mark..];
        &rest[end_of_first(rest, n % STEP)..]
    }

    /// The text of the lines numbered `from` to `to`, without the last of these.
    pub fn lines_between(&self, from: u64, to: u64) -> &[u8]
        requires order { from ≤ to }
        requires within { to ≤ length (lines_of self.now) }
        ensures normal { IsNormal result.now }
        ensures lines { lines_of result.now ≡ take (to - from) (drop from (lines_of self.now)) }
    {
        let rest = self.from_line(from);
        let behind = self.from_line(to);
        &rest[..rest.len() - behind.len()]
    }

    // Where the line numbered 1,000 * `k` begins, if the text has it.
    fn mark(&self, k: u64) -> Option<usize>
        ensures found { IfSome result (IsCut self.now (k * mark_step)) }
        ensures none { IfNone result (length (lines_of self.now) ≤ k * mark_step) }
    {
        Some(*self.marks.get(k as usize)?)
    }
}

// How many lines a text has: those before the last place, and those from there on.
fn lines_by_marks(text: &[u8], marks: &[usize]) -> u64
    requires normal { IsNormal text.now }
    requires marks { AreLineMarks text.now marks.now }
    ensures { result ≡ length (lines_of text.now) }
{
    match marks.last() {
        Some(last) => (marks.len() - 1) as u64 * STEP + slice_line_count(&text[*last..]),
        None => 0,
    }
}

// Where each 1,000th line of a text begins.
fn marks_of(alloc: Global, text: &[u8]) -> Result<Vec<usize>, NoMemory>
    requires { IsNormal text.now }
    ensures { IfOk result (λ marks. AreLineMarks text.now marks.items) }
{
    let mut marks = Vec::new(alloc);
    let mut at = 0;
    while at < text.len() {
        marks.push(at)?;
        at += end_of_first(&text[at..], STEP);
    }
    Ok(marks)
}
