// The work of each operation.
ghost use Rattle.std.specs.Prelude.{◌≡◌, ◌<◌, ◌≤◌, [], length, if◌then◌else◌, slice_index_or, IfOk};
ghost use Rattle.graph_plans.specs.Operations.{HasPipeline, IsOp};
ghost use Rattle.text_ops.specs.TextMeaning.{match_meaning, sort_meaning};
ghost use Rattle.text_ops.specs.Values.{Makes};
ghost use Rattle.text_tasks.specs.FoundTexts.{left_found, right_found};
ghost use Rattle.text_tasks.specs.OpMeaning.{first_one, occurring, op_meaning, second_one, text_op_value};
ghost use Rattle.text_tasks.specs.inside.Finding.{founds, text_from};
ghost use Rattle.text_tasks.specs.inside.Working.{DoesAs};

use crate::found::{lone_text, text_from, text_of_edge, whole_text};
use crate::graph_job::GraphJob;
use crate::item::Item;
use crate::job::TextJob;
use crate::one_by_one::{filtered, first_lines, found_lines, last_lines, later_lines};
use crate::parts_job::parts_job;
use crate::pipe_job::pipe_job;
use crate::task_error::TaskError;
use graph_plans::{Op, TextOp};
use join_words::Ins;
use outside_io::{Bytes, List, NoMemory};
use run_frame::{Answer, Done};
use std::alloc::Global;
use text_ops::{
    ApplyError, Text, count, count_line, has_word, head, keep, line_count, match_lines, pass, skip,
    sort, tail, tally, uniq, without,
};

impl GraphJob {
    // What the task of an operation does on what it finds. One row for each operation.
    pub(crate) fn work(
        &self,
        alloc: Global,
        op: &Op,
        ins: &Ins<Item>,
    ) -> Result<Done<TextJob>, TaskError>
        requires op { IsOp (length self.now.texts) (length self.now.plan.modules) op.now }
        requires pipeline { HasPipeline op.now }
        ensures { DoesAs (op_meaning self.now (founds ins.now) op.now) result }
    {
        match op {
            Op::Input => Ok(hands_on(self.input.share()?, Answer::All)),
            Op::Read(number) => Ok(hands_on(self.read(*number)?, Answer::All)),
            Op::Text(op) => Ok(hands_on(apply_to_found(alloc, op, ins)?, Answer::All)),
            Op::Match => Ok(hands_on(match_found(alloc, ins)?, Answer::All)),
            Op::Back => {
                let text = whole_text(alloc, ins)?;
                Ok(hands_on(text, first_or_second(alloc, true)?))
            }
            Op::IfMore(n) => {
                let text = whole_text(alloc, ins)?;
                let has_more = line_count(&text) > *n;
                Ok(hands_on(text, first_or_second(alloc, has_more)?))
            }
            Op::IfHas(word) => {
                let text = whole_text(alloc, ins)?;
                let has_word = has_word(word.as_slice(), &text);
                Ok(hands_on(text, first_or_second(alloc, has_word)?))
            }
            Op::Route(words) => {
                let text = whole_text(alloc, ins)?;
                let chosen = occurring(alloc, words.as_slice(), &text)?;
                Ok(hands_on(text, Answer::Indices(chosen)))
            }
            Op::Spread(lines, each) => Ok(Done::Inner(parts_job(alloc, *lines, each, ins)?)),
            Op::Module(module) => Ok(Done::Inner(self.module_job(alloc, *module, ins)?)),
            Op::Pipe(plan) => Ok(Done::Inner(pipe_job(alloc, plan, ins)?)),
        }
    }

    // The text of a number.
    fn read(&self, number: u32) -> Result<Text, NoMemory>
        requires { number < length self.now.texts }
        ensures { IfOk result (λ text. text ≡ slice_index_or self.now.texts number []) }
    {
        let Some(text) = self.texts.get(number) else {
            unreachable!()
        };
        text.share()
    }
}

// A task hands a text on, to those of its successors that the answer names.
pub(crate) fn hands_on(text: Text, answer: Answer) -> Done<TextJob>
    ensures { result ≡ Done.Value (Item.Text text) answer }
{
    Done::Value(Item::Text(text), answer)
}

// What an operation on one text makes of the text of a task.
fn apply_to_found(alloc: Global, op: &TextOp, ins: &Ins<Item>) -> Result<Text, ApplyError>
    ensures { Makes (text_op_value op.now (text_from ins.now 0)) result }
{
    if let Some(text) = lone_text(ins, 0) {
        return apply(alloc, op, text);
    }
    match op {
        TextOp::Pass => whole_text(alloc, ins),
        TextOp::Keep(_) | TextOp::Without(_) => filtered(alloc, op, ins),
        TextOp::Head(n) => first_lines(alloc, *n, ins),
        TextOp::Tail(n) => last_lines(alloc, *n, ins),
        TextOp::Skip(n) => later_lines(alloc, *n, ins),
        TextOp::Sort => sort_found(alloc, ins),
        TextOp::Count => count_line(alloc, found_lines(ins)?),
        TextOp::Uniq | TextOp::Tally => apply(alloc, op, &text_from(alloc, ins, 0)?),
    }
}

// The lines of the text of a task in order. They are as long as the text, so one that is too long isn't put together.
#[tactic(auto, using(crate::proofs::WorkLemmas::sort_refuses))]
fn sort_found(alloc: Global, ins: &Ins<Item>) -> Result<Text, ApplyError>
    ensures { Makes (sort_meaning (text_from ins.now 0)) result }
{
    let text = whole_text(alloc, ins)?;
    sort(alloc, &text)
}

/// What an operation on one text makes of a text. One row for each operation.
///
/// `Long`: the value would have so many bytes, which are more than `VALUE_LIMIT`.
pub fn apply(alloc: Global, op: &TextOp, text: &Text) -> Result<Text, ApplyError>
    ensures { Makes (text_op_value op.now text.now) result }
{
    match op {
        TextOp::Pass => pass(text),
        TextOp::Keep(word) => keep(alloc, word.as_slice(), text),
        TextOp::Without(word) => without(alloc, word.as_slice(), text),
        TextOp::Head(n) => head(text, *n),
        TextOp::Tail(n) => tail(text, *n),
        TextOp::Skip(n) => skip(text, *n),
        TextOp::Sort => sort(alloc, text),
        TextOp::Uniq => uniq(alloc, text),
        TextOp::Count => count(alloc, text),
        TextOp::Tally => tally(alloc, text),
    }
}

// The lines of the text at the first edge, matched with those of the others.
fn match_found(alloc: Global, ins: &Ins<Item>) -> Result<Text, ApplyError>
    ensures { Makes (match_meaning (left_found (founds ins.now)) (right_found (founds ins.now)))
        result }
{
    let Some(left) = text_of_edge(ins, 0) else {
        return Ok(Text::new());
    };
    match_lines(alloc, left, &text_from(alloc, ins, 1)?)
}

// The first successor alone, or else the second one alone.
fn first_or_second(alloc: Global, first: bool) -> Result<Answer, NoMemory>
    ensures { IfOk result (λ answer. answer ≡ (if first then first_one else second_one)) }
{
    let index = if first { 0 } else { 1 };
    Ok(Answer::Indices(List::from_slice(alloc, &[index])?))
}

// The rising indices of the words that occur in a line of the text.
fn occurring(alloc: Global, words: &[Bytes], text: &Text) -> Result<List<i64>, NoMemory>
    requires { length words.now ≤ 256 }
    ensures { IfOk result (λ chosen. chosen ≡ occurring words.now text.now) }
{
    let mut chosen = List::new(alloc);
    for (index, word) in words.iter().enumerate() {
        if has_word(word.as_slice(), text) {
            chosen.push(index as i64)?;
        }
    }
    Ok(chosen)
}
