// Calls of the program over texts and sinks in memory, each a row of a table.
use crate::inputs::{CallInputs, inputs_of};
use crate::seen_runs::{Sight, shown_run};
use crate::wanted::wanted_of;
use crate::watchers::{Handed, KnownCount, Shared, shown_watchers};
use call_status::Noted;
use flow_run::{CallResult, flow_main};
use outside_io::NoMemory;
use outside_io::for_tests::MemorySink;
use span_profile::Watch;
use std::alloc::{AllocError, Global};
use std::str;
use std::sync::Wait;
use std::thread::Threads;

// A read of the text `t` and the number of its lines.
pub const COUNT: &str = r#"{"tasks":[
    {"name":"a","op":"read","text":"t","to":["b"]},
    {"name":"b","op":"count"}]}"#;

// A call: its words, with a space between two, or `-` for none, where `''` is the empty word, `_` a space in a word
// and `|` a line end in one; the texts `t`, `u` and `v` that it finds, with ` / ` between two, where `-` is none; what
// fails in it (`read CALL`, `put CALL TAKEN`, `note CALL TAKEN`, or `span PLACE` among all spans that its watchers are
// told), how many watchers it has in place of 16 (`watchers COUNT`), that the totals of its runs are seen too
// (`totals`), or what their pipelines started (`tokens`, and behind it the order of which they start a prefix where
// they end by a fault), or `-`; and what is seen of it: the exit code, whether all was written and noted, the entries
// of each run, then what the output took, then what standard error took. `|` ends a line of a text.
#[derive(Clone, Copy)]
pub struct Row<'r> {
    pub words: &'r str,
    pub texts: &'r str,
    pub failing: &'r str,
    pub seen: &'r str,
}

// A row is a line of a table, with ` -> ` between two parts.
fn row_of(line: &str) -> Row<'_> {
    let (words, rest) = line.split_once(" -> ").unwrap_or((line, ""));
    let (texts, rest) = rest.split_once(" -> ").unwrap_or((rest, ""));
    let (failing, seen) = rest.split_once(" -> ").unwrap_or((rest, ""));
    Row {
        words,
        texts,
        failing,
        seen,
    }
}

// The numbers of workers that a star in the words stands for, one after the other.
const WORKERS: [&str; 3] = ["1", "4", "16"];

// What was seen of the first call of a row that isn't as it says, or nothing. In the graph and in the call `@1`, `@2`
// and so on stand for the parts of the row, which have ` -> ` between them.
pub fn row_difference<R: Threads + Wait + Sync>(
    rt: &R,
    alloc: Global,
    graph: &str,
    call: &str,
    row: &str,
) -> Result<String, NoMemory> {
    let graph = filled(alloc, graph, row)?;
    let call = filled(alloc, call, row)?;
    first_by_workers(rt, alloc, graph.as_str(), row_of(call.as_str()))
}

// A pattern with the parts of a row in it.
fn filled(alloc: Global, pattern: &str, row: &str) -> Result<String, AllocError> {
    let mut filled = String::from_str(alloc, pattern)?;
    for (sign, part) in ["@1", "@2", "@3", "@4"].iter().zip(row.split(" -> ")) {
        filled = filled.replace(alloc, *sign, part)?;
    }
    Ok(filled)
}

// The first call of a row, by each number of workers that a star in its words stands for, that isn't as it says, with
// what was seen; or nothing.
fn first_by_workers<R: Threads + Wait + Sync>(
    rt: &R,
    alloc: Global,
    graph: &str,
    row: Row<'_>,
) -> Result<String, NoMemory> {
    for workers in WORKERS {
        let words = row.words.replace(alloc, "*", workers)?;
        let call = Row {
            words: words.as_str(),
            ..row
        };
        let difference = difference(rt, alloc, graph, call)?;
        if !difference.is_empty() || !row.words.contains('*') {
            return Ok(difference);
        }
    }
    Ok(String::new(alloc))
}

// What is seen of a call, if it isn't as its row says; or nothing.
fn difference<R: Threads + Wait + Sync>(
    rt: &R,
    alloc: Global,
    graph: &str,
    row: Row<'_>,
) -> Result<String, NoMemory> {
    let seen = shown(rt, alloc, graph, row)?;
    let wanted = wanted_of(alloc, row.seen)?;
    if seen.as_str() == wanted.as_str() {
        return Ok(String::new(alloc));
    }
    Ok(format!(in alloc;
        "{} -> {} -> {}: {}",
        row.words,
        row.texts,
        row.failing,
        seen.as_str()
    )?)
}

/// How a call ended, and its sinks. The end of a call isn't dropped, but taken by `CallResult::into_code`: a crate that
/// drops it has to prove anew how all that it holds is dropped.
pub struct Called {
    pub outcome: CallResult,
    pub out: MemorySink,
    pub notes: MemorySink,
}

/// A call of these inputs with these watchers.
pub fn end_of_call<R: Threads + Wait + Sync>(
    rt: &R,
    alloc: Global,
    inputs: CallInputs,
    watchers: Vec<Box<dyn Watch + Send>>,
) -> Called {
    let CallInputs {
        words,
        mut texts,
        mut out,
        mut notes,
        handed: _,
    } = inputs;
    let outcome = flow_main(
        rt,
        alloc,
        words.as_slice(),
        &mut texts,
        &mut out,
        &mut notes,
        watchers,
    );
    Called {
        outcome,
        out,
        notes,
    }
}

/// The inputs of a call of these words that finds the graph as `g`, and these texts.
pub fn plain_inputs(
    alloc: Global,
    graph: &str,
    words: &str,
    texts: &str,
) -> Result<CallInputs, NoMemory> {
    let row = Row {
        words,
        texts,
        failing: "-",
        seen: "",
    };
    inputs_of(alloc, graph, row)
}

// What is seen of a call.
fn shown<R: Threads + Wait + Sync>(
    rt: &R,
    alloc: Global,
    graph: &str,
    row: Row<'_>,
) -> Result<String, NoMemory> {
    let inputs = inputs_of(alloc, graph, row)?;
    let handed = inputs.handed;
    let shared = Shared::of(alloc, handed)?;
    let mut watchers: Vec<Box<dyn Watch + Send>> = Vec::new(alloc);
    for place in 0..handed.watchers {
        let watcher = KnownCount::at(place, &shared)?;
        watchers.push(Box::new(alloc, watcher)?)?;
    }
    let Called {
        outcome,
        out,
        notes,
    } = end_of_call(rt, alloc, inputs, watchers);
    let end = shown_outcome(alloc, &outcome, handed, sight_of(row.failing));
    let _code = outcome.into_code();
    shown_end(alloc, end, &out, &notes)
}

fn shown_end(
    alloc: Global,
    end: Result<String, NoMemory>,
    out: &MemorySink,
    notes: &MemorySink,
) -> Result<String, NoMemory> {
    let end = end?;
    Ok(format!(in alloc;
        "{} [{}] [{}]",
        end.as_str(),
        shown_bytes(out),
        shown_bytes(notes)
    )?)
}

// What the sink took, or a question mark where that is no text.
fn shown_bytes(sink: &MemorySink) -> &str {
    str::from_utf8(sink.bytes()).unwrap_or("?")
}

// What is to be seen of each run.
fn sight_of(failing: &str) -> Sight<'_> {
    match failing {
        "totals" => Sight::Totals,
        _ => match failing.strip_prefix("tokens") {
            Some(order) => Sight::Tokens(order),
            None => Sight::Length,
        },
    }
}

// The exit code, whether all was written and noted, each run, and what is wrong with the watchers.
fn shown_outcome(
    alloc: Global,
    outcome: &CallResult,
    handed: Handed,
    sight: Sight<'_>,
) -> Result<String, NoMemory> {
    let written = if outcome.written { "written" } else { "cut" };
    let mut shown = format!(in alloc; "{} {written}", outcome.status.code())?;
    match outcome.noted {
        Noted::Whole => (),
        Noted::Fault => shown.push_str(", note refused")?,
        Noted::NoMemory => shown.push_str(", no memory for the note")?,
    }
    for run in &outcome.runs {
        shown.push_str(", ")?;
        shown.push_str(shown_run(alloc, run, sight)?.as_str())?;
    }
    shown.push_str(shown_watchers(handed, outcome))?;
    Ok(shown)
}
