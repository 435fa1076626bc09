// Texts in parts of so many lines.
ghost use Rattle.std.specs.Prelude.{◌≡◌, ◌≤◌, IfOk};
ghost use Rattle.text_ops.specs.LineParts.{line_parts, part_count};

use crate::counts::line_count;
use crate::cuts::end_of_first;
use crate::text::Text;
use outside_io::{List, NoMemory};
use std::alloc::Global;

/// How many parts of `n` lines a text has, the last one with what remains.
pub fn part_count(text: &Text, n: u64) -> u64
    requires { 1 ≤ n }
    ensures { result ≡ part_count n text.now }
{
    line_count(text).div_ceil(n)
}

/// The lines of a text in parts of `n`, the last one with what remains. The parts share the text's bytes. It walks over
/// the text twice, and takes memory for the parts alone.
pub fn line_parts(alloc: Global, text: &Text, n: u64) -> Result<List<Text>, NoMemory>
    requires { 1 ≤ n }
    ensures { IfOk result (λ parts. parts ≡ line_parts n text.now) }
{
    let bytes = text.as_slice();
    let count = part_count(text, n);
    let mut parts = List::with_room(alloc, count as usize)?;
    let mut place = 0;
    for _part in 0..count {
        let end = place + end_of_first(&bytes[place..], n);
        parts.push(text.cut(place, end)?)?;
        place = end;
    }
    Ok(parts)
}
