// What becomes of a file, in words.
use graph_file::{GraphError, Kind, read_graph};
use graph_plans::Spot;
use graph_writer::write_graph;
use outside_io::{Bytes, NoMemory};
use pipe_lines::PipeError;
use std::alloc::{AllocError, Global};
use std::str;

/// The refusal of a file, or the text that is written for its plan, if that is asked for, or else `plan`.
pub(crate) fn answer(alloc: Global, file: &[u8], writes: bool) -> Result<String, AllocError> {
    let plan = match read_graph(alloc, file) {
        Ok(plan) => plan,
        Err(refusal) => return refusal_text(alloc, &refusal),
    };
    if !writes {
        return format!(in alloc; "plan");
    }
    match write_graph(alloc, &plan) {
        Ok(text) => String::from_str(alloc, text_of(&text)),
        Err(NoMemory) => format!(in alloc; "no memory"),
    }
}

fn refusal_text(alloc: Global, refusal: &GraphError) -> Result<String, AllocError> {
    let (what, at, spot, field) = match refusal {
        GraphError::NotJson => return format!(in alloc; "not JSON"),
        GraphError::BadField(spot, field) => ("bad field", "in", spot, field),
        GraphError::NoSuchName(spot, field) => ("no such name in", "of", spot, field),
        GraphError::Repeated(spot, field) => ("repeated name in", "of", spot, field),
        GraphError::ModuleCycle(name) => {
            return format!(in alloc; "module cycle at {}", text_of(name));
        }
        GraphError::TooMany(kind) => return format!(in alloc; "too many {}", kind_text(*kind)),
        GraphError::BadPipe(spot, error) => {
            let spot = spot_text(alloc, spot)?;
            return format!(in alloc; "bad pipe in {spot}: {}", pipe_text(*error));
        }
        GraphError::NoMemory => return format!(in alloc; "no memory"),
    };
    let field = text_of(field);
    let spot = spot_text(alloc, spot)?;
    format!(in alloc; "{what} {field} {at} {spot}")
}

fn spot_text(alloc: Global, spot: &Spot) -> Result<String, AllocError> {
    match spot {
        Spot::File => format!(in alloc; "file"),
        Spot::Sem(sem) => format!(in alloc; "semaphore {sem}"),
        Spot::Task(task) => format!(in alloc; "task {task}"),
        Spot::Module(module) => format!(in alloc; "module {module}"),
        Spot::ModuleSem(module, sem) => { format!(in alloc; "module {module} semaphore {sem}") }
        Spot::ModuleTask(module, task) => { format!(in alloc; "module {module} task {task}") }
    }
}

fn pipe_text(error: PipeError) -> &'static str {
    match error {
        PipeError::NoLines => "no lines",
        PipeError::NoPipes => "no pipes",
        PipeError::FirstParallel => "first pipe is parallel",
        PipeError::TooManyLines => "too many lines",
        PipeError::TooManyPipes => "too many pipes",
        PipeError::NoMemory => "no memory",
    }
}

fn text_of(bytes: &Bytes) -> &str {
    str::from_utf8(bytes.as_slice()).unwrap_or("?")
}

fn kind_text(kind: Kind) -> &'static str {
    match kind {
        Kind::Tasks => "tasks",
        Kind::Edges => "edges",
        Kind::Semaphores => "semaphores",
        Kind::Modules => "modules",
        Kind::Depth => "depth",
        Kind::Texts => "texts",
    }
}
