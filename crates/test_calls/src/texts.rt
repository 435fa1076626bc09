// The texts of calls, and their graph files.
use crate::calls::COUNT;
use flow_run::{FILE_LIMIT, TEXT_LIMIT};
use nested_runs::MAX_PARTS;
use outside_io::{Bytes, List, NoMemory};
use std::alloc::Global;

// As many lines of two bytes as a text of a bit more than half the greatest length has.
const HALF: usize = 4_718_592;

// The text that a row names: one of the greatest length, one that is longer by a byte, one of a bit more than half the
// greatest length, one of as many lines as a spread may have parts, one of a line more; or what it is, where `|` ends a
// line.
pub fn text_of(alloc: Global, text: &str) -> Result<Bytes, NoMemory> {
    match text {
        "MOST" => padded(alloc, b"", TEXT_LIMIT),
        "LONG" => padded(alloc, b"", TEXT_LIMIT + 1),
        "HALF" => letters(alloc, HALF),
        "PARTS" => letters(alloc, MAX_PARTS as usize),
        "WIDE" => letters(alloc, MAX_PARTS as usize + 1),
        text => {
            let lines = text.replace(alloc, "|", "\n")?;
            List::from_slice(alloc, lines.as_bytes())
        }
    }
}

// The graph file that a table names: one of the greatest length, one that is longer by a byte, one of brackets, two
// with bytes that are no UTF-8, two of as many modules as there may be and of one more, one of 300 tasks without edges;
// or what it is.
pub fn graph_of(alloc: Global, graph: &str) -> Result<Bytes, NoMemory> {
    match graph {
        "MOST" => padded(alloc, COUNT.as_bytes(), FILE_LIMIT),
        "LONG" => padded(alloc, COUNT.as_bytes(), FILE_LIMIT + 1),
        "BRACKETS" => List::from_slice(alloc, &[b'['; 200]),
        "NO UTF-8" => List::from_slice(alloc, &[255]),
        "NO UTF-8 IN A WORD" => List::from_slice(alloc, &[b'"', 192, b'"']),
        "64 MODULES" => modules(alloc, 64),
        "65 MODULES" => modules(alloc, 65),
        "300 TASKS" => single_tasks(alloc, 300),
        graph => List::from_slice(alloc, graph.as_bytes()),
    }
}

// A graph file of so many modules without tasks.
fn modules(alloc: Global, count: usize) -> Result<Bytes, NoMemory> {
    let mut file = List::from_slice(alloc, b"{\"tasks\":[],\"modules\":[")?;
    for number in 0..count {
        let link = if number == 0 { "" } else { "," };
        let row = format!(in alloc; "{link}{{\"name\":\"m{number}\",\"tasks\":[]}}")?;
        file.add_all(row.as_bytes())?;
    }
    file.add_all(b"]}")?;
    Ok(file)
}

// A graph file of so many tasks without edges.
fn single_tasks(alloc: Global, count: usize) -> Result<Bytes, NoMemory> {
    let mut file = List::from_slice(alloc, b"{\"tasks\":[")?;
    for number in 0..count {
        let link = if number == 0 { "" } else { "," };
        let row = format!(in alloc; "{link}{{\"name\":\"t{number}\",\"op\":\"input\"}}")?;
        file.add_all(row.as_bytes())?;
    }
    file.add_all(b"]}")?;
    Ok(file)
}

// So many bytes: these, and spaces after them.
fn padded(alloc: Global, front: &[u8], len: u64) -> Result<Bytes, NoMemory> {
    let mut padded = List::from_slice(alloc, front)?;
    for _place in front.len()..len as usize {
        padded.push(b' ')?;
    }
    Ok(padded)
}

// So many lines of one letter.
fn letters(alloc: Global, lines: usize) -> Result<Bytes, NoMemory> {
    let mut text = List::new(alloc);
    for _line in 0..lines {
        text.add_all(b"x\n")?;
    }
    Ok(text)
}
