// The command `count`.
ghost use Rattle.std.specs.Prelude.{◌≡◌, [], None, Some, IfErr, IfOk};
ghost use Rattle.outside_io.specs.Sink.{Writes};
ghost use Rattle.call_status.specs.Delivery.{Delivers};
ghost use Rattle.flow_run.specs.Answers.{HasWritten, conclusion_text};
ghost use Rattle.flow_run.specs.Counted.{CountEnds, IsLineCount, count_text};
ghost use Rattle.flow_run.specs.PlanFiles.{IsAfterConclusion};
ghost use Rattle.flow_run.specs.Reads.{FailsBy, HaveRead};
ghost use Rattle.flow_run.specs.Requests.{StopsAtName, text_limit};

use super::call::{Ended, stopped};
use super::conclusion::Conclusion;
use super::inputs::{TEXT_LIMIT, read_named};
use super::number_line::add_number_line;
use call_status::{Status, Stop, flushed};
use command_line::Count;
use line_folds::count_lines_with;
use outside_io::{Bytes, List, NoMemory, Sink, SinkFault, Texts, put_piece};
use std::alloc::Global;
use std::thread::Threads;
use text_ops::Text;

/// Counts the lines of a text in which a word occurs, by as many workers as are asked for, and writes how many they
/// are.
pub(crate) fn count_file<F: Texts, S: Sink, R: Threads + Sync>(
    rt: &R,
    alloc: Global,
    asked: Count<'_>,
    texts: &mut F,
    out: &mut S,
) -> Ended
    requires { (S.state out.old).held_back ≡ [] }
    ensures ends { CountEnds (F.held texts.old) asked.entry.word.now asked.entry.file.now
        result.status result.conclusion }
    ensures output { HasWritten S.state out.old out.new result.status (result.conclusion ≡ None)
        (conclusion_text result.conclusion) result.written }
    ensures no_run { result.runs ≡ [] }
    ensures read { HaveRead F.held F.failed texts.old texts.new result.status }
{
    match counted(rt, alloc, asked, texts) {
        Ok(lines) => write_count(alloc, lines, out),
        Err(stop) => stopped(alloc, Status::of(stop)),
    }
}

// In how many lines of the text the word occurs. An `Err` is the first thing that stops the call.
fn counted<F: Texts, R: Threads + Sync>(
    rt: &R,
    alloc: Global,
    asked: Count<'_>,
    texts: &mut F,
) -> Result<u64, Stop>
    ensures counted { IfOk result
        (IsLineCount (F.held texts.old) asked.entry.word.now asked.entry.file.now) }
    ensures stops { IfErr result
        (StopsAtName (F.held texts.old) asked.entry.file.now text_limit) }
    ensures stays { F.held texts.new ≡ F.held texts.old }
    ensures fails { FailsBy result (F.failed texts.old) (F.failed texts.new) }
{
    let bytes = read_named(alloc, texts, asked.file.as_bytes(), TEXT_LIMIT)?;
    let text = Text::from_bytes(alloc, bytes)?;
    let word = asked.word.as_bytes();
    Ok(count_lines_with(rt, alloc, asked.workers, word, &text, asked.grain)?)
}

// Writes how many lines they are.
fn write_count<S: Sink>(alloc: Global, lines: u64, out: &mut S) -> Ended
    requires { (S.state out.old).held_back ≡ [] }
    ensures after { IsAfterConclusion result.status }
    ensures conclusion { result.conclusion ≡ Some (Conclusion.WordLines lines) }
    ensures output { HasWritten S.state out.old out.new result.status (result.conclusion ≡ None)
        (conclusion_text result.conclusion) result.written }
    ensures no_run { result.runs ≡ [] }
{
    let (status, written) = match deliver_count(alloc, out, lines) {
        Ok(()) => (Status::Done, true),
        Err(SinkFault::Failed) => (Status::WriteFault, false),
        Err(SinkFault::NoMemory) => (Status::NoMemory, false),
    };
    Ended {
        status,
        runs: List::new(alloc),
        conclusion: Some(Conclusion::WordLines(lines)),
        written,
    }
}

// Writes the line of a count to the output, and flushes it.
fn deliver_count<S: Sink>(alloc: Global, out: &mut S, lines: u64) -> Result<(), SinkFault>
    requires { (S.state out.old).held_back ≡ [] }
    ensures { Delivers (S.state out.old) (S.state out.new) (count_text lines) result }
{
    let written = put_count_text(alloc, out, lines);
    flushed(out, written)
}

// Writes the line of a count.
#[tactic(auto, using(outside_io::proofs::Pieces::writes_nothing))]
fn put_count_text<S: Sink>(alloc: Global, out: &mut S, lines: u64) -> Result<(), SinkFault>
    ensures { Writes (S.state out.old) (S.state out.new) (count_text lines) result }
{
    let line = count_text(alloc, lines)?;
    put_piece(out, line.as_slice())
}

// The line of a count.
fn count_text(alloc: Global, lines: u64) -> Result<Bytes, NoMemory>
    ensures { IfOk result (λ line. line ≡ count_text lines) }
{
    let mut line = List::new(alloc);
    add_number_line(&mut line, b"lines ", lines)?;
    Ok(line)
}
