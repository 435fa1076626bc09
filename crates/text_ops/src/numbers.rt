// Lines behind a number.
ghost use Rattle.text_ops.specs.Lines.{IsNormal, lines_of};
ghost use Rattle.text_ops.specs.TextMeaning.{numbered_meaning};
ghost use Rattle.text_ops.specs.Values.{Makes};
ghost use Rattle.text_ops.specs.inside.Numbering.{all_behind};

use crate::gathered::{ApplyError, Gathered};
use crate::line_walk::Lines;
use crate::text::Text;
use itoa::write_digits;
use std::alloc::Global;

/// The lines of the text, each behind the number in decimal and a space.
///
/// `Long`: the value would have so many bytes, which are more than `VALUE_LIMIT`.
pub fn numbered(alloc: Global, number: u64, text: &Text) -> Result<Text, ApplyError>
    ensures { Makes (numbered_meaning number text.now) result }
{
    let mut front = [b' '; 21];
    let start = write_digits(number, &mut front, 20);
    each_behind(alloc, &front[start..], text.as_slice())
}

// The lines of a text, each behind the same bytes.
fn each_behind(alloc: Global, front: &[u8], text: &[u8]) -> Result<Text, ApplyError>
    requires { IsNormal text.now }
    ensures { Makes (all_behind front.now (lines_of text.now)) result }
{
    let mut made = Gathered::new(alloc);
    for line in Lines::new(text) {
        made.add_line(front, line)?;
    }
    made.finish(alloc)
}
