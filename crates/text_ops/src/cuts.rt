// The first lines, the last ones, and the others.
ghost use Rattle.std.specs.Prelude.{◌≡◌, ◌-◌, ◌<◌, ◌≤◌, length};
ghost use Rattle.text_ops.specs.Lines.{IsNormal, lines_of};
ghost use Rattle.text_ops.specs.TextMeaning.{head_meaning, skip_meaning, tail_meaning};
ghost use Rattle.text_ops.specs.Values.{Makes};
ghost use Rattle.text_ops.specs.LineParts.{IsCut};
ghost use Rattle.text_ops.specs.inside.Cuts.{LeftBehind, LeftBefore};

use crate::gathered::ApplyError;
use crate::line_ends::{BLOCK, block_line_ends};
use crate::part::part;
use crate::text::Text;
use memchr::{memchr, memrchr};

// More line ends than these are counted in blocks, which is faster than to go from one to the next.
const FEW: u64 = 8;

/// The first `n` lines, or all where there are fewer.
pub fn head(text: &Text, n: u64) -> Result<Text, ApplyError>
    ensures { Makes (head_meaning n text.now) result }
{
    let end = end_of_first(text.as_slice(), n);
    part(text, 0, end)
}

/// All but the first `n` lines.
pub fn skip(text: &Text, n: u64) -> Result<Text, ApplyError>
    ensures { Makes (skip_meaning n text.now) result }
{
    let bytes = text.as_slice();
    let start = end_of_first(bytes, n);
    part(text, start, bytes.len())
}

/// The last `n` lines, or all where there are fewer.
pub fn tail(text: &Text, n: u64) -> Result<Text, ApplyError>
    ensures { Makes (tail_meaning n text.now) result }
{
    let bytes = text.as_slice();
    let start = start_of_last(bytes, n);
    part(text, start, bytes.len())
}

/// Where the first `n` lines of a text end: at its end where there are no more.
pub fn end_of_first(text: &[u8], n: u64) -> usize
    requires { IsNormal text.now }
    ensures { IsCut text.now n result }
{
    if n == 0 {
        return 0;
    }
    let (mut at, mut left) = blocks_before(text, n);
    while let Some(gap) = memchr(b'\n', &text[at..]) {
        at += gap + 1;
        left -= 1;
        if left == 0 {
            return at;
        }
    }
    text.len()
}

// Where the last lines begin.
fn start_of_last(text: &[u8], n: u64) -> usize
    requires { IsNormal text.now }
    ensures { IsCut text.now (length (lines_of text.now) - n) result }
{
    if n >= text.len() as u64 {
        return 0;
    }
    let (mut end, mut left) = blocks_behind(text, n + 1);
    while let Some(place) = memrchr(b'\n', &text[..end]) {
        left -= 1;
        if left == 0 {
            return place + 1;
        }
        end = place;
    }
    0
}

// The end of the blocks with fewer than n line ends, and how many are left.
fn blocks_before(text: &[u8], n: u64) -> (usize, u64)
    requires { 0 < n }
    ensures { LeftBehind text.now n result.0 result.1 }
{
    let mut at = 0;
    let mut left = n;
    while left > FEW && text.len() - at > BLOCK {
        let ends = u64::from(block_line_ends(&text[at..at + BLOCK]));
        if ends >= left {
            break;
        }
        left -= ends;
        at += BLOCK;
    }
    (at, left)
}

// The same from the end back.
fn blocks_behind(text: &[u8], n: u64) -> (usize, u64)
    requires { 0 < n }
    ensures { LeftBefore text.now n result.0 result.1 }
{
    let mut end = text.len();
    let mut left = n;
    while left > FEW && end > BLOCK {
        let ends = u64::from(block_line_ends(&text[end - BLOCK..end]));
        if ends >= left {
            break;
        }
        left -= ends;
        end -= BLOCK;
    }
    (end, left)
}
