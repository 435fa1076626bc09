// Operations that go from one of several texts to the next, and put none together but the value.
ghost use Rattle.std.specs.Prelude.{◌≡◌, ◌-◌, length, IfOk};
ghost use Rattle.text_ops.specs.Lines.{lines_of};
ghost use Rattle.text_ops.specs.TextMeaning.{head_meaning, skip_meaning, tail_meaning};
ghost use Rattle.text_ops.specs.Values.{Makes};
ghost use Rattle.text_tasks.specs.OpMeaning.{text_op_value};
ghost use Rattle.text_tasks.specs.inside.Finding.{text_from};
ghost use Rattle.text_tasks.specs.inside.OneByOne.{GoesByLines};

use crate::found::text_of_edge;
use crate::item::Item;
use crate::work::apply;
use graph_plans::TextOp;
use join_words::Ins;
use outside_io::NoMemory;
use std::alloc::Global;
use text_ops::{ApplyError, Joined, Text, head, line_count, skip};

// What an operation makes that keeps or leaves out each line by itself.
pub(crate) fn filtered(alloc: Global, op: &TextOp, ins: &Ins<Item>) -> Result<Text, ApplyError>
    requires { GoesByLines op.now }
    ensures { Makes (text_op_value op.now (text_from ins.now 0)) result }
{
    let mut made = Joined::new(alloc);
    for place in 0..ins.len() {
        if let Some(text) = text_of_edge(ins, place) {
            made.add(apply(alloc, op, text))?;
        }
    }
    made.finish(alloc)
}

// The first `n` lines.
pub(crate) fn first_lines(alloc: Global, n: u64, ins: &Ins<Item>) -> Result<Text, ApplyError>
    ensures { Makes (head_meaning n (text_from ins.now 0)) result }
{
    let mut made = Joined::new(alloc);
    let mut left = n;
    for place in 0..ins.len() {
        if left == 0 {
            break;
        }
        if let Some(text) = text_of_edge(ins, place) {
            made.add(head(text, left))?;
            left = left.saturating_sub(line_count(text));
        }
    }
    made.finish(alloc)
}

// All but the first `n` lines.
pub(crate) fn later_lines(alloc: Global, n: u64, ins: &Ins<Item>) -> Result<Text, ApplyError>
    ensures { Makes (skip_meaning n (text_from ins.now 0)) result }
{
    let mut made = Joined::new(alloc);
    let mut left = n;
    for place in 0..ins.len() {
        if let Some(text) = text_of_edge(ins, place) {
            made.add(skip(text, left))?;
            left = left_behind(left, text);
        }
    }
    made.finish(alloc)
}

// How many of the lines to be left out are behind this text.
fn left_behind(left: u64, text: &Text) -> u64
    ensures { result ≡ left - length (lines_of text.now) }
{
    if left == 0 {
        return 0;
    }
    left.saturating_sub(line_count(text))
}

// The last `n` lines.
pub(crate) fn last_lines(alloc: Global, n: u64, ins: &Ins<Item>) -> Result<Text, ApplyError>
    ensures { Makes (tail_meaning n (text_from ins.now 0)) result }
{
    let lines = found_lines(ins)?;
    later_lines(alloc, lines.saturating_sub(n), ins)
}

// How many lines the texts have, if they can be counted.
pub(crate) fn found_lines(ins: &Ins<Item>) -> Result<u64, NoMemory>
    ensures { IfOk result (λ lines. lines ≡ length (lines_of (text_from ins.now 0))) }
{
    let mut lines = 0u64;
    for place in 0..ins.len() {
        if let Some(text) = text_of_edge(ins, place) {
            let Some(more) = lines.checked_add(line_count(text)) else {
                return Err(NoMemory);
            };
            lines = more;
        }
    }
    Ok(lines)
}
