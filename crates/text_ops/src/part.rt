// Values that are a part of a text.
ghost use Rattle.std.specs.Prelude.{◌≤◌, length, slice_range};
ghost use Rattle.text_ops.specs.Lines.{IsNormal};
ghost use Rattle.text_ops.specs.Values.{Makes};

use crate::gathered::{ApplyError, VALUE_LIMIT};
use crate::text::Text;

/// The text itself. Its bytes are shared.
pub fn pass(text: &Text) -> Result<Text, ApplyError>
    ensures value { Makes text.now result }
    ensures normal { IsNormal text.now }
{
    let end = text.as_slice().len();
    part(text, 0, end)
}

// The lines from this place up to that. Their bytes are shared.
pub(crate) fn part(text: &Text, start: usize, end: usize) -> Result<Text, ApplyError>
    requires rising { start ≤ end }
    requires within { end ≤ length text.now }
    requires lines { IsNormal (slice_range text.now start end) }
    ensures { Makes (slice_range text.now start end) result }
{
    let bytes = (end - start) as u64;
    if bytes > VALUE_LIMIT {
        return Err(ApplyError::Long(bytes));
    }
    Ok(text.cut(start, end)?)
}
