// The number of lines.
ghost use Rattle.std.specs.Prelude.{◌≡◌, ◌∷◌, [], decimal, length};
ghost use Rattle.text_ops.specs.Lines.{IsNormal, lines_of, text_of};
ghost use Rattle.text_ops.specs.TextMeaning.{count_meaning};
ghost use Rattle.text_ops.specs.Values.{Makes};

use crate::gathered::ApplyError;
use crate::line_ends::line_ends;
use crate::text::Text;
use itoa::write_digits;
use outside_io::List;
use std::alloc::Global;

/// How many lines the text has.
pub fn line_count(text: &Text) -> u64
    ensures { result ≡ length (lines_of text.now) }
{
    slice_line_count(text.as_slice())
}

/// How many lines these bytes have, which are those of a text.
pub fn slice_line_count(text: &[u8]) -> u64
    requires { IsNormal text.now }
    ensures { result ≡ length (lines_of text.now) }
{
    line_ends(text) as u64
}

/// One line, the number of lines of the text in decimal.
pub fn count(alloc: Global, text: &Text) -> Result<Text, ApplyError>
    ensures { Makes (count_meaning text.now) result }
{
    count_line(alloc, line_count(text))
}

/// One line, this number in decimal.
pub fn count_line(alloc: Global, lines: u64) -> Result<Text, ApplyError>
    ensures { Makes (text_of (decimal lines ∷ [])) result }
{
    let mut line = [b'\n'; 21];
    let start = write_digits(lines, &mut line, 20);
    let line = List::from_slice(alloc, &line[start..])?;
    Ok(Text::from_lines(alloc, line)?)
}
