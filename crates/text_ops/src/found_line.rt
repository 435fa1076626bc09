// The first line of a text in which a word occurs.
ghost use Rattle.std.specs.Prelude.{◌≡◌, ◌<◌, ◌≤◌, [], length, IfSome, IfNone};
ghost use Rattle.text_ops.specs.Lines.{IsNormal};
ghost use Rattle.text_ops.specs.inside.FoundLine.{StartsLine, EndsLine, IsSearchWord, IsFirstKept, IsNowhere};

use memchr::memmem::Finder;
use memchr::{memchr, memrchr};

/// A line with its end: the bytes of a text from `start` up to `end`.
#[derive(Clone, Copy)]
pub(crate) struct FoundLine {
    pub(crate) start: usize,
    pub(crate) end: usize,
}

/// The first line in which the word occurs. One search goes over all lines before it.
pub(crate) fn first_kept(word: &Finder<'_>, text: &[u8]) -> Option<FoundLine>
    requires word { IsSearchWord word.now }
    requires normal { IsNormal text.now }
    ensures found { IfSome result (IsFirstKept word.now text.now) }
    ensures none { IfNone result (IsNowhere word.now text.now) }
{
    let place = word.find(text)?;
    Some(FoundLine {
        start: line_start(text, place),
        end: line_end(text, place),
    })
}

// Where the line of this place starts.
fn line_start(text: &[u8], place: usize) -> usize
    requires { place ≤ length text.now }
    ensures { StartsLine text.now place result }
{
    match memrchr(b'\n', &text[..place]) {
        Some(end) => end + 1,
        None => 0,
    }
}

// Where the next line starts.
fn line_end(text: &[u8], place: usize) -> usize
    requires inside { place < length text.now }
    requires normal { IsNormal text.now }
    ensures { EndsLine text.now place result }
{
    match memchr(b'\n', &text[place..]) {
        Some(gap) => place + gap + 1,
        None => text.len(),
    }
}
