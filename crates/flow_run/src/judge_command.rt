// The command `judge`.
ghost use Rattle.std.specs.Prelude.{◌≡◌, ◌≢◌, ◌++◌, [], ℕ, List, None, Some, IfErr, IfOk, OnOk};
ghost use Rattle.journal_text.specs.JournalText.{IsJournalText, RefusesJournal};
ghost use Rattle.call_status.specs.Delivery.{Delivers};
ghost use Rattle.call_status.specs.Statuses.{status_by};
ghost use Rattle.flow_run.specs.Answers.{HasWritten, conclusion_text};
ghost use Rattle.flow_run.specs.Judgements.{HasJournal, IsAfterVerdict, IsJudged, JudgeEnds, StopsAtJournal, StopsAtJournalBytes, StopsBeforeVerdict, break_text, verdict_line};
ghost use Rattle.flow_run.specs.Reads.{FailsBy, HaveRead};

use super::call::{Ended, stopped};
use super::conclusion::Conclusion;
use super::inputs::{FILE_LIMIT, read_named, read_plan};
use call_status::{Status, Stop, deliver};
use command_line::Judge;
use journal_rules::Journal;
use journal_text::{JournalError, read_journal};
use legal_run::{Break, Verdict, judge};
use outside_io::{Bytes, List, NoMemory, Sink, SinkFault, Texts, add_numbered};
use std::alloc::Global;

/// The most bytes of a journal file.
pub const JOURNAL_LIMIT: u64 = 67_108_864;

/// Judges the journal in a file by the graph in another, and writes the verdict's line.
pub(crate) fn judge_file<F: Texts, S: Sink>(
    alloc: Global,
    asked: Judge<'_>,
    texts: &mut F,
    out: &mut S,
) -> Ended
    requires { (S.state out.old).held_back ≡ [] }
    ensures ends { JudgeEnds (F.held texts.old) asked.entry.file.now asked.entry.journal.now
        asked.entry.limit result.status result.conclusion }
    ensures output { HasWritten S.state out.old out.new result.status (result.conclusion ≡ None)
        (conclusion_text result.conclusion) result.written }
    ensures no_run { result.runs ≡ [] }
    ensures read { HaveRead F.held F.failed texts.old texts.new result.status }
{
    let (file, journal) = (asked.file.as_bytes(), asked.journal.as_bytes());
    match verdict_on(alloc, texts, file, journal, asked.limit) {
        Ok(verdict) => report_verdict(alloc, verdict, out),
        Err(stop) => stopped(alloc, Status::of(stop)),
    }
}

// The verdict on the journal in a file by the graph in another. An `Err` is the first thing that stops the call.
fn verdict_on<F: Texts>(
    alloc: Global,
    texts: &mut F,
    file: &[u8],
    journal: &[u8],
    limit: u64,
) -> Result<Verdict, Stop>
    ensures judged { IfOk result (IsJudged (F.held texts.old) file.now journal.now limit) }
    ensures stops { IfErr result (StopsBeforeVerdict (F.held texts.old) file.now journal.now) }
    ensures stays { F.held texts.new ≡ F.held texts.old }
    ensures fails { FailsBy result (F.failed texts.old) (F.failed texts.new) }
{
    let bytes = read_named(alloc, texts, file, FILE_LIMIT)?;
    let plan = read_plan(alloc, bytes.as_slice())?;
    let journal = read_journal_file(alloc, texts, journal)?;
    Ok(judge(alloc, &plan.top.net, limit, &journal)?)
}

// The journal in a file.
fn read_journal_file<F: Texts>(alloc: Global, texts: &mut F, name: &[u8]) -> Result<Journal, Stop>
    ensures journal { IfOk result (HasJournal (F.held texts.old) name.now) }
    ensures stops { IfErr result (StopsAtJournal (F.held texts.old) name.now) }
    ensures stays { F.held texts.new ≡ F.held texts.old }
    ensures fails { FailsBy result (F.failed texts.old) (F.failed texts.new) }
{
    let bytes = read_named(alloc, texts, name, JOURNAL_LIMIT)?;
    journal_in(alloc, bytes.as_slice())
}

// The journal of which these bytes are the text.
fn journal_in(alloc: Global, bytes: &[u8]) -> Result<Journal, Stop>
    ensures journal { IfOk result (λ journal. IsJournalText journal bytes.now) }
    ensures stops { IfErr result (StopsAtJournalBytes bytes.now) }
{
    match read_journal(alloc, bytes) {
        Ok(journal) => Ok(journal),
        Err(error) => Err(journal_refusal(error)),
    }
}

// Why bytes that were read as a journal stop the call.
fn journal_refusal(error: JournalError) -> Stop
    ensures { (bytes : List ℕ) → RefusesJournal bytes error → StopsAtJournalBytes bytes result }
{
    match error {
        JournalError::BadLine(line) => Stop::BadJournal(line),
        JournalError::NoMemory => Stop::NoMemory,
    }
}

// Writes the line of a verdict.
fn report_verdict<S: Sink>(alloc: Global, verdict: Verdict, out: &mut S) -> Ended
    requires { (S.state out.old).held_back ≡ [] }
    ensures after { IsAfterVerdict verdict result.status }
    ensures conclusion { result.conclusion ≡ Some (Conclusion.Verdict verdict) }
    ensures output { HasWritten S.state out.old out.new result.status (result.conclusion ≡ None)
        (conclusion_text result.conclusion) result.written }
    ensures no_run { result.runs ≡ [] }
{
    let (status, written) = match deliver_verdict(alloc, verdict, out) {
        Ok(()) => (Status::by(verdict), true),
        Err(SinkFault::Failed) => (unwritten_verdict(verdict), false),
        Err(SinkFault::NoMemory) => (Status::NoMemory, false),
    };
    Ended {
        status,
        runs: List::new(alloc),
        conclusion: Some(Conclusion::Verdict(verdict)),
        written,
    }
}

// The status of a verdict whose line couldn't be written: an entry that breaks a rule is reported before that.
fn unwritten_verdict(verdict: Verdict) -> Status
    ensures fine { status_by verdict ≡ Status.Done → result ≡ Status.WriteFault }
    ensures breaks { status_by verdict ≢ Status.Done → result ≡ status_by verdict }
{
    match Status::by(verdict) {
        Status::Done => Status::WriteFault,
        status => status,
    }
}

// Writes the line of a verdict to the output, and flushes it.
#[tactic(auto, using(call_status::proofs::Deliveries::nothing_delivered))]
fn deliver_verdict<S: Sink>(alloc: Global, verdict: Verdict, out: &mut S) -> Result<(), SinkFault>
    requires { (S.state out.old).held_back ≡ [] }
    ensures { Delivers (S.state out.old) (S.state out.new) (verdict_line verdict) result }
{
    match line_of_verdict(alloc, verdict) {
        Ok(line) => deliver(out, line.as_slice()),
        Err(NoMemory) => Err(SinkFault::NoMemory),
    }
}

// The line of a verdict.
fn line_of_verdict(alloc: Global, verdict: Verdict) -> Result<Bytes, NoMemory>
    ensures { IfOk result (λ line. line ≡ verdict_line verdict) }
{
    match verdict {
        Verdict::Complete => List::from_slice(alloc, b"complete\n"),
        Verdict::Legal => List::from_slice(alloc, b"legal\n"),
        Verdict::Breaks(place, why) => {
            let mut line = List::new(alloc);
            add_numbered(&mut line, b"breaks at ", place)?;
            line.add_all(b": ")?;
            add_break(&mut line, why)?;
            line.add_all(b"\n")?;
            Ok(line)
        }
    }
}

// Adds what an entry breaks.
fn add_break(line: &mut Bytes, why: Break) -> Result<(), NoMemory>
    ensures { OnOk result (line.new ≡ line.old ++ break_text why) }
{
    match why {
        Break::NoSuch => line.add_all(b"no such number"),
        Break::AfterStuck => line.add_all(b"after stuck"),
        Break::NotReleased => line.add_all(b"not released"),
        Break::OverUnits(sem) => add_numbered(line, b"over units ", u64::from(sem)),
        Break::OverLimit => line.add_all(b"over limit"),
        Break::NotOpen => line.add_all(b"not open"),
        Break::NotChosen => line.add_all(b"not chosen"),
        Break::NothingOut(sem) => add_numbered(line, b"nothing out ", u64::from(sem)),
        Break::NotOver => line.add_all(b"not over"),
        Break::NotHalted => line.add_all(b"not halted"),
        Break::NotStuck => line.add_all(b"not stuck"),
    }
}
