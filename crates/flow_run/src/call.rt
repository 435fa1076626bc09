// The top call of the program.
ghost use Rattle.std.specs.Prelude.{◌≡◌, ◌≢◌, ◌⊎◌, ℕ, [], true, List, Some, None, map, All};
ghost use Rattle.std.specs.Option.{option_copied, option_map};
ghost use Rattle.std.specs.String.{string_bytes};
ghost use Rattle.graph_plans.specs.PlanRows.{plan_rows};
ghost use Rattle.call_status.specs.Codes.{code_of};
ghost use Rattle.call_status.specs.Notes.{note_line};
ghost use Rattle.call_status.specs.Noting.{HasNoted};
ghost use Rattle.command_line.specs.Requests.{AskedRounds, asked_by, upgrade};
ghost use Rattle.nested_runs.specs.Reasons.{run_reason};
ghost use Rattle.text_tasks.specs.JobMeaning.{text_job};
ghost use Rattle.pipe_laws.specs.TextPipes.{PipesInOrder};
ghost use Rattle.flow_run.specs.Answers.{CallEnds, HasWritten, output_of};
ghost use Rattle.flow_run.specs.Completion.{IsAtHand, NothingFails};
ghost use Rattle.flow_run.specs.Plainly.{AsksPlainly, IsReportedPlainly, EndsPlainly};
ghost use Rattle.flow_run.specs.Profiles.{plan_run};
ghost use Rattle.flow_run.specs.Reads.{HaveRead};
ghost use Rattle.flow_run.specs.Upgrades.{TakesSamePlan};
ghost use Rattle.flow_run.specs.Watched.{HaveSeen, asked_workers};
ghost use Rattle.text_tasks.specs.declared.job.TextJob.{TextJob};

use super::check_command::check_file;
use super::conclusion::Conclusion;
use super::count_command::count_file;
use super::generate_command::run_generated;
use super::judge_command::judge_file;
use super::profile_command::profile_file;
use super::run_command::run_file;
use super::upgrade_command::upgrade_file;
use call_status::{Noted, Status, put_note};
use command_line::{ArgumentsError, Request, read_arguments};
use graph_plans::Plan;
use nested_runs::Reason;
use outside_io::{List, Sink, Texts};
use run_frame::FrameRun;
use span_profile::Watch;
use std::alloc::Global;
use std::sync::Wait;
use std::thread::Threads;
use text_tasks::TextJob;

/// How a call of the program ended.
#[derive(Drop)]
pub struct CallResult {
    /// Why it ended.
    pub status: Status,
    /// The runs that were run to their end, round after round.
    pub runs: List<FrameRun<TextJob>>,
    /// What was concluded: the judge's verdict, the findings on a graph, its new file, the profile of the runs, or the
    /// number of lines that were counted.
    pub conclusion: Option<Conclusion>,
    /// The watchers that were handed in. Those of the workers were told the spans of the runs.
    pub watchers: Vec<Box<dyn Watch + Send>>,
    /// Whether all that was to be written was written, or nothing was. Else the output has a prefix of it.
    pub written: bool,
    /// Whether the line of the status was written.
    pub noted: Noted,
}

impl CallResult {
    /// The exit code of a program that ends so. The runs and all else are let go.
    pub fn into_code(self) -> u8
        ensures { result ≡ code_of self.status }
    {
        self.status.code()
    }
}

/// Does what the command line `words` asks for: `run FILE` reads the graph file of this name and then, in order of
/// first mention, the texts that it names, runs its top graph to the end, by as many workers as it says, and writes the
/// run's report to `out`, or with `--journal` its journal; with `--times` or `--until` it runs the graph round after
/// round, each with what the last task of the round before ended with as its input, and once all are run writes what it
/// would of each; `profile FILE` runs it so too, and writes a table of what each task did; `judge FILE JOURNAL` reads
/// the journal file of that name besides, and writes the judge's verdict; `check FILE` writes how the graph can go
/// wrong; `upgrade FILE` writes the graph as a file of the newest version; `generate N` runs the generated graph of so
/// many layers, and writes a summary of its run; `count WORD FILE` reads the text of that name, and writes in how many
/// of its lines the word occurs. The line of the status goes to `notes`, the diagnostics sink. Each worker tells a
/// watcher the spans that end in its steps, the first worker the first watcher. There are no more workers than
/// watchers, but for one where there is none. A watcher that answers `NoMemory` ends the call so. `rt` makes the
/// threads of several workers and waits for them, so it isn't proved that the call returns.
pub fn flow_main<F: Texts, S: Sink, N: Sink, R: Threads + Wait + Sync>(
    rt: &R,
    alloc: Global,
    words: &[String],
    texts: &mut F,
    out: &mut S,
    notes: &mut N,
    mut watchers: Vec<Box<dyn Watch + Send>>,
) -> CallResult
    requires nothing_held_on_out { (S.state out.old).held_back ≡ [] }
    requires nothing_held_on_notes { (N.state notes.old).held_back ≡ [] }
    // The status has its cause; the kept runs are the rounds that are asked for of the graph that FILE holds, each
    // legal and complete, or the first of them where memory ran out, and the profile is theirs; the verdict is that on
    // the journal that JOURNAL holds, the findings are those on the graph that FILE holds, the new file is one for that
    // graph, and the lines that were counted are those of the text that FILE holds in which WORD occurs.
    ensures ends { CallEnds (F.held texts.old) (map string_bytes words.now) result.status
        result.runs result.conclusion }
    // Where that is at hand, no read and no write fails and no run is cut short, all is done.
    ensures completes { IsAtHand (F.held texts.old) (asked_by (map string_bytes words.now))
        → NothingFails F.failed S.state texts.old texts.new out.old out.new
        → All (λ run. run_reason text_job run ≡ Reason.Fine) result.runs
        → (result.status ≡ Status.Done) ⊎ (result.status ≡ Status.NoMemory) }
    // Whatever the number of workers: the kept run of a plan without conditions is fine exactly where its values by one
    // thread run through, and its report is then theirs.
    ensures kept_plainly { All IsReportedPlainly result.runs }
    // Whatever the number of workers: in each pipeline's run inside the kept runs the serial pipes start the tokens in
    // the order in which they pass, those that wait for others included; where nothing is cut short, all pass all
    // pipes.
    ensures pipes { All PipesInOrder result.runs }
    // Where rounds of such a plan are asked for, but not their journals, and the source specifies the file and the
    // texts, and holds them within their limits, the call is done exactly where the values of each round by one thread
    // run through, unless something fails; and the output has taken just their reports by one thread, or the table of
    // their profile, which has some number of spans.
    ensures plainly { (rounds : AskedRounds) (job : TextJob)
        → AsksPlainly (F.held texts.old) (asked_by (map string_bytes words.now)) rounds job
        → EndsPlainly (asked_by (map string_bytes words.now)) rounds job
        (S.state out.old).taken (S.state out.new).taken
        (NothingFails F.failed S.state texts.old texts.new out.old out.new) result.status }
    // The output took the reports or the journals of the kept runs, or their profile, or the verdict's line, or the
    // findings, or the new file, or the line of the count; where it failed or an allocation did, a prefix of it. Where
    // no run is kept and nothing was concluded, it is left alone.
    ensures output { HasWritten S.state out.old out.new result.status
        ((result.runs ≡ []) × (result.conclusion ≡ None))
        (output_of (map string_bytes words.now) result.runs result.conclusion) result.written }
    // Where an upgrade is done the output took a graph file for the plan of FILE.
    ensures upgrades { (file : List ℕ) → asked_by (map string_bytes words.now) ≡ Some (upgrade file)
        → result.status ≡ Status.Done
        → TakesSamePlan (F.held texts.old) file (S.state out.old).taken (S.state out.new).taken }
    // With ReadFault one read failed, the one that the status names, and else none did unless an allocation failed.
    ensures read { HaveRead F.held F.failed texts.old texts.new result.status }
    // The diagnostics sink took the line of the status, or a prefix of it where it failed, or nothing.
    ensures noted { HasNoted N.state notes.old notes.new
        (note_line (plan_run result.runs) result.status) result.status result.noted }
    // Unless memory ran out, the watchers of the workers, one a worker, were together told as many spans as the kept
    // runs have, with the runs inside them; a count that reaches the greatest u64 stays there. The other watchers are
    // as they were.
    ensures watchers { HaveSeen told (asked_workers (asked_by (map string_bytes words.now)))
        (result.status ≢ Status.NoMemory) result.runs watchers.items result.watchers.items }
{
    let Ended {
        status,
        runs,
        conclusion,
        written,
    } = answer(rt, alloc, words, texts, out, &mut watchers);
    let noted = put_note(alloc, notes, plan_run(runs.as_slice()), &status);
    CallResult {
        status,
        runs,
        conclusion,
        watchers,
        written,
        noted,
    }
}

// How a command ended, apart from its line on standard error.
pub(crate) struct Ended {
    pub status: Status,
    pub runs: List<FrameRun<TextJob>>,
    pub conclusion: Option<Conclusion>,
    pub written: bool,
}

// Does what the command line asks for.
fn answer<F: Texts, S: Sink, R: Threads + Wait + Sync>(
    rt: &R,
    alloc: Global,
    words: &[String],
    texts: &mut F,
    out: &mut S,
    watchers: &mut Vec<Box<dyn Watch + Send>>,
) -> Ended
    requires { (S.state out.old).held_back ≡ [] }
    ensures ends { CallEnds (F.held texts.old) (map string_bytes words.now) result.status
        result.runs result.conclusion }
    ensures output { HasWritten S.state out.old out.new result.status
        ((result.runs ≡ []) × (result.conclusion ≡ None))
        (output_of (map string_bytes words.now) result.runs result.conclusion) result.written }
    ensures read { HaveRead F.held F.failed texts.old texts.new result.status }
    ensures watchers { HaveSeen told (asked_workers (asked_by (map string_bytes words.now)))
        (result.status ≢ Status.NoMemory) result.runs watchers.old.items watchers.new.items }
{
    match read_arguments(alloc, words) {
        Ok(Request::Run(run)) => run_file(rt, alloc, run, texts, out, watchers),
        Ok(Request::Profile(profile)) => profile_file(rt, alloc, profile, texts, out, watchers),
        Ok(Request::Judge(judge)) => judge_file(alloc, judge, texts, out),
        Ok(Request::Check(check)) => check_file(alloc, check, texts, out),
        Ok(Request::Upgrade(upgrade)) => upgrade_file(alloc, upgrade, texts, out),
        Ok(Request::Generate(asked)) => run_generated(rt, alloc, asked, out, watchers),
        Ok(Request::Count(asked)) => count_file(rt, alloc, asked, texts, out),
        Err(ArgumentsError::Refused) => stopped(alloc, Status::BadWords),
        Err(ArgumentsError::NoMemory) => stopped(alloc, Status::NoMemory),
    }
}

/// An end before any run and any conclusion.
pub(crate) fn stopped(alloc: Global, status: Status) -> Ended
    ensures { result ≡ record { status = status; runs = []; conclusion = None; written = true } }
{
    Ended {
        status,
        runs: List::new(alloc),
        conclusion: None,
        written: true,
    }
}

/// The plan of the graph that was run.
pub(crate) fn plan_run(runs: &[FrameRun<TextJob>]) -> Option<&Plan>
    ensures { option_map plan_rows (option_copied result) ≡ plan_run runs.now }
{
    match runs {
        [run, ..] => run.job.plan(),
        [] => None,
    }
}
