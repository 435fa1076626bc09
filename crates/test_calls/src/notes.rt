// The line of a status on a sink.
use call_status::{Noted, Status, put_note};
use graph_file::GraphError;
use graph_plans::Spot;
use outside_io::for_tests::MemorySink;
use outside_io::{List, NoMemory};
use std::alloc::Global;
use std::str;

/// What is put for a status of which nothing is to be said, and then for one that no call here ends with, and whether
/// either is whole.
pub fn puts_the_line_and_for_done_nothing(alloc: Global) -> Result<String, NoMemory> {
    let mut notes = MemorySink::new(alloc, List::new(alloc));
    let done = put_note(alloc, &mut notes, None, &Status::Done);
    let field = List::from_slice(alloc, b"sem")?;
    let error = GraphError::NoSuchName(Spot::ModuleTask(12, 4294967295), field);
    let refused = put_note(alloc, &mut notes, None, &Status::BadGraph(error));
    let are_whole = done == Noted::Whole && refused == Noted::Whole;
    let line = str::from_utf8(notes.bytes())
        .unwrap_or("?")
        .replace(alloc, "\n", "|")?;
    Ok(format!(in alloc;
        "puts_the_line_and_for_done_nothing: whole: {are_whole} [{}]",
        line.as_str()
    )?)
}
