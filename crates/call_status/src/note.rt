// The line of a status on standard error.
ghost use Rattle.std.specs.Prelude.{◌≡◌, ◌++◌, [], List, ℕ, codes, decimal, IfOk, OnOk};
ghost use Rattle.std.specs.Option.{option_copied, option_map};
ghost use Rattle.graph_plans.specs.PlanRows.{plan_rows};
ghost use Rattle.call_status.specs.Notes.{graph_error_text, kind_text, note_line, pipe_error_text, spot_text, within_text};
ghost use Rattle.call_status.specs.Noting.{HasNoted, TakesLine};
ghost use Rattle.call_status.specs.Reasons.{fault_text, limit_text, stuck_text};

use super::delivery::deliver;
use super::reasons::{add_fault, add_limit, add_stuck};
use super::status::{Noted, Status};
use graph_file::{GraphError, Kind};
use graph_plans::{Plan, Spot};
use journal_rules::Why;
use outside_io::{Bytes, List, NoMemory, Sink, SinkFault, add_numbered};
use pipe_lines::PipeError;
use std::alloc::Global;

/// Writes the line of a status to `notes`, the diagnostics sink, and flushes it. With `Done` there is no line, and the
/// sink is left alone. The tasks that it names are those of the plan whose top graph was run; without a plan they go by
/// their numbers. A line that names nothing allocates nothing, so that of a failed allocation can be written all the
/// same.
pub fn put_note<N: Sink>(
    alloc: Global,
    notes: &mut N,
    plan: Option<&Plan>,
    status: &Status,
) -> Noted
    requires nothing_held { (N.state notes.old).held_back ≡ [] }
    ensures { HasNoted N.state notes.old notes.new
        (note_line (option_map plan_rows (option_copied plan.entry)) status.now) status.now result }
{
    match status {
        Status::Done => Noted::Whole,
        Status::BadWords => put_line(notes, b"flow: bad words\n"),
        Status::BadGraph(error) => put_made(notes, bad_graph(alloc, error)),
        Status::NoSource(spot) => put_made(notes, no_source(alloc, *spot)),
        Status::NoText(name) => put_made(notes, of_name(alloc, b"flow: no text ", name)),
        Status::LongText(name) => put_made(notes, of_name(alloc, b"flow: text too long ", name)),
        Status::ReadFault(name) => put_made(notes, of_name(alloc, b"flow: read fault on ", name)),
        Status::WriteFault => put_line(notes, b"flow: write fault\n"),
        Status::Limit(path, limit) => put_made(notes, limit_note(alloc, plan, path, *limit)),
        Status::TaskFault(path, why) => put_made(notes, fault_note(alloc, plan, path, *why)),
        Status::Stuck(path) => put_made(notes, stuck_note(alloc, plan, path)),
        Status::NotLegal(place, _) => put_made(
            notes,
            numbered(alloc, b"flow: not legal at ", *place),
        ),
        Status::BadJournal(line) => put_made(
            notes,
            numbered(alloc, b"flow: bad journal line ", *line),
        ),
        Status::NoMemory => put_line(notes, b"flow: no memory\n"),
    }
}

// Writes a line where there was memory to make it.
fn put_made<N: Sink>(notes: &mut N, line: Result<Bytes, NoMemory>) -> Noted
    requires { (N.state notes.old).held_back ≡ [] }
    ensures takes { (text : List ℕ) → IfOk line (λ made. made ≡ text)
        → TakesLine (N.state notes.old) (N.state notes.new) text result }
    ensures nothing_held { (N.state notes.new).held_back ≡ [] }
{
    match line {
        Ok(line) => put_line(notes, line.as_slice()),
        Err(_) => Noted::NoMemory,
    }
}

// Writes a line, and flushes it.
fn put_line<N: Sink>(notes: &mut N, line: &[u8]) -> Noted
    requires { (N.state notes.old).held_back ≡ [] }
    ensures takes { TakesLine (N.state notes.old) (N.state notes.new) line.now result }
    ensures nothing_held { (N.state notes.new).held_back ≡ [] }
{
    match deliver(notes, line) {
        Ok(()) => Noted::Whole,
        Err(SinkFault::Failed) => Noted::Fault,
        Err(SinkFault::NoMemory) => Noted::NoMemory,
    }
}

// The line that a run met its limit.
fn limit_note(
    alloc: Global,
    plan: Option<&Plan>,
    path: &List<u32>,
    limit: u64,
) -> Result<Bytes, NoMemory>
    ensures { IfOk result
        (λ line. line ≡ codes "flow: " ++ limit_text (option_map plan_rows (option_copied plan.entry)) path.now limit ++ codes "\n") }
{
    let mut line = List::from_slice(alloc, b"flow: ")?;
    add_limit(&mut line, plan, path.as_slice(), limit)?;
    line.push(b'\n')?;
    Ok(line)
}

// The line that a task faulted.
fn fault_note(
    alloc: Global,
    plan: Option<&Plan>,
    path: &List<u32>,
    why: Why,
) -> Result<Bytes, NoMemory>
    ensures { IfOk result
        (λ line. line ≡ codes "flow: " ++ fault_text (option_map plan_rows (option_copied plan.entry)) path.now why ++ codes "\n") }
{
    let mut line = List::from_slice(alloc, b"flow: ")?;
    add_fault(&mut line, plan, path.as_slice(), why)?;
    line.push(b'\n')?;
    Ok(line)
}

// The line that a task waited for a unit that never came.
fn stuck_note(alloc: Global, plan: Option<&Plan>, path: &List<u32>) -> Result<Bytes, NoMemory>
    ensures { IfOk result
        (λ line. line ≡ codes "flow: " ++ stuck_text (option_map plan_rows (option_copied plan.entry)) path.now ++ codes "\n") }
{
    let mut line = List::from_slice(alloc, b"flow: ")?;
    add_stuck(&mut line, plan, path.as_slice())?;
    line.push(b'\n')?;
    Ok(line)
}

fn bad_graph(alloc: Global, error: &GraphError) -> Result<Bytes, NoMemory>
    ensures { IfOk result (λ line.
        line ≡ codes "flow: bad graph: " ++ graph_error_text error.now ++ codes "\n") }
{
    let mut line = List::from_slice(alloc, b"flow: bad graph: ")?;
    add_graph_error(&mut line, error)?;
    line.push(b'\n')?;
    Ok(line)
}

fn no_source(alloc: Global, spot: Spot) -> Result<Bytes, NoMemory>
    ensures { IfOk result (λ line.
        line ≡ codes "flow: no source" ++ within_text spot ++ codes "\n") }
{
    let mut line = List::from_slice(alloc, b"flow: no source")?;
    add_within(&mut line, spot)?;
    line.push(b'\n')?;
    Ok(line)
}

// The line that ends with this number.
fn numbered(alloc: Global, what: &[u8], number: u64) -> Result<Bytes, NoMemory>
    ensures { IfOk result (λ line. line ≡ what.now ++ decimal number ++ codes "\n") }
{
    let mut line = List::new(alloc);
    add_numbered(&mut line, what, number)?;
    line.push(b'\n')?;
    Ok(line)
}

// The line that says this of the text of that name.
fn of_name(alloc: Global, what: &[u8], name: &Bytes) -> Result<Bytes, NoMemory>
    ensures { IfOk result (λ line. line ≡ what.now ++ name.now ++ codes "\n") }
{
    let mut line = List::new(alloc);
    add_around(&mut line, what, name, b"\n")?;
    Ok(line)
}

fn add_within(line: &mut Bytes, spot: Spot) -> Result<(), NoMemory>
    ensures { OnOk result (line.new ≡ line.old ++ within_text spot) }
{
    if let Spot::File = spot {
        return Ok(());
    }
    line.add_all(b" in ")?;
    add_spot(line, spot)
}

fn add_graph_error(line: &mut Bytes, error: &GraphError) -> Result<(), NoMemory>
    ensures { OnOk result (line.new ≡ line.old ++ graph_error_text error.now) }
{
    match error {
        GraphError::NotJson => line.add_all(b"not JSON"),
        GraphError::BadField(spot, field) => add_field(line, b"bad field ", field, b" in ", *spot),
        GraphError::NoSuchName(spot, field) => add_field(
            line,
            b"no such name in ",
            field,
            b" of ",
            *spot,
        ),
        GraphError::Repeated(spot, field) => add_field(
            line,
            b"repeated name in ",
            field,
            b" of ",
            *spot,
        ),
        GraphError::ModuleCycle(name) => add_behind(line, b"module cycle at ", name.as_slice()),
        GraphError::TooMany(kind) => {
            line.add_all(b"too many ")?;
            line.add_all(plural_of(*kind))
        }
        GraphError::BadPipe(spot, why) => add_pipe_error(line, *spot, *why),
        GraphError::NoMemory => line.add_all(b"no memory"),
    }
}

// Adds of which task the pipes are no pipeline, and why.
fn add_pipe_error(line: &mut Bytes, spot: Spot, why: PipeError) -> Result<(), NoMemory>
    ensures { OnOk result (line.new
        ≡ line.old ++ (codes "bad pipe in " ++ spot_text spot ++ codes ": " ++ pipe_error_text why)) }
{
    add_before_spot(line, b"bad pipe in ", spot)?;
    add_behind(line, b": ", pipe_error(why))
}

// Adds a text, and a place in a graph file behind it.
fn add_before_spot(line: &mut Bytes, before: &[u8], spot: Spot) -> Result<(), NoMemory>
    ensures { OnOk result (line.new ≡ line.old ++ (before.now ++ spot_text spot)) }
{
    line.add_all(before)?;
    add_spot(line, spot)
}

// Adds a text, and another behind it.
fn add_behind(line: &mut Bytes, before: &[u8], text: &[u8]) -> Result<(), NoMemory>
    ensures { OnOk result (line.new ≡ line.old ++ (before.now ++ text.now)) }
{
    line.add_all(before)?;
    line.add_all(text)
}

// Adds what is wrong with a field, and which field of the file it is.
fn add_field(
    line: &mut Bytes,
    what: &[u8],
    field: &Bytes,
    link: &[u8],
    spot: Spot,
) -> Result<(), NoMemory>
    ensures { OnOk result (line.new
        ≡ line.old ++ (what.now ++ field.now ++ link.now ++ spot_text spot)) }
{
    add_around(line, what, field, link)?;
    add_spot(line, spot)
}

// Adds a name as it is, between two texts.
fn add_around(line: &mut Bytes, before: &[u8], name: &Bytes, after: &[u8]) -> Result<(), NoMemory>
    ensures { OnOk result (line.new ≡ line.old ++ before.now ++ name.now ++ after.now) }
{
    line.add_all(before)?;
    line.add_all(name.as_slice())?;
    line.add_all(after)
}

fn add_spot(line: &mut Bytes, spot: Spot) -> Result<(), NoMemory>
    ensures { OnOk result (line.new ≡ line.old ++ spot_text spot) }
{
    match spot {
        Spot::File => line.add_all(b"file"),
        Spot::Sem(sem) => add_numbered(line, b"semaphore ", u64::from(sem)),
        Spot::Task(task) => add_numbered(line, b"task ", u64::from(task)),
        Spot::Module(module) => add_numbered(line, b"module ", u64::from(module)),
        Spot::ModuleSem(module, sem) => {
            add_numbered(line, b"module ", u64::from(module))?;
            add_numbered(line, b" semaphore ", u64::from(sem))
        }
        Spot::ModuleTask(module, task) => {
            add_numbered(line, b"module ", u64::from(module))?;
            add_numbered(line, b" task ", u64::from(task))
        }
    }
}

fn pipe_error(why: PipeError) -> &'static [u8]
    ensures { result.now ≡ pipe_error_text why }
{
    match why {
        PipeError::NoLines => b"no lines",
        PipeError::NoPipes => b"no pipes",
        PipeError::FirstParallel => b"first pipe is parallel",
        PipeError::TooManyLines => b"too many lines",
        PipeError::TooManyPipes => b"too many pipes",
        PipeError::NoMemory => b"no memory",
    }
}

fn plural_of(kind: Kind) -> &'static [u8]
    ensures { result.now ≡ kind_text kind }
{
    match kind {
        Kind::Tasks => b"tasks",
        Kind::Edges => b"edges",
        Kind::Semaphores => b"semaphores",
        Kind::Modules => b"modules",
        Kind::Depth => b"depth",
        Kind::Texts => b"texts",
    }
}
