// The writing of a table.
ghost use Rattle.std.specs.Prelude.{◌≡◌, ◌<◌, ◌++◌, decimal, length, IfOk, OnOk};
ghost use Rattle.std.specs.List.{flat_map, zip};
ghost use Rattle.outside_io.specs.Sink.{Writes};
ghost use Rattle.profile_table.specs.ProfileText.{columns_line, number_column, padded_right, profile_text, row_line, spaces, spans_line};

use super::row::TableRow;
use super::table::Table;
use itoa::Buffer;
use outside_io::{Bytes, List, NoMemory, Sink, SinkFault, put_piece};
use std::alloc::Global;

// How many columns a name has.
const NAME_WIDTH: usize = 20;

// How many columns a number has.
const NUMBER_WIDTH: usize = 9;

// The line above the columns.
const COLUMNS: &[u8] = b"task                   starts     ends   faults    drops\n";

// Room for the line of a task whose name isn't longer than its column, nor a number than its own.
const LINE_ROOM: usize = 57;

/// Writes a table: a line above the columns, a line for each task with its name, and a last one with how many spans
/// there were, each in one put. After an `Err` the sink has a prefix of the text.
pub fn print_table<S: Sink>(
    alloc: Global,
    table: &Table,
    names: &[Bytes],
    spans: u64,
    out: &mut S,
) -> Result<(), SinkFault>
    requires { length names.now ≡ length table.now.rows }
    ensures { Writes (S.state out.old) (S.state out.new) (profile_text table.now.rows names.now spans)
        result }
{
    if let Err(fault) = put_piece(out, COLUMNS) {
        return Err(fault);
    }
    if let Err(fault) = put_rows(alloc, table.rows(), names, out) {
        return Err(fault);
    }
    put_spans(alloc, spans, out)
}

// Writes a line for each task.
fn put_rows<S: Sink>(
    alloc: Global,
    rows: &[TableRow],
    names: &[Bytes],
    out: &mut S,
) -> Result<(), SinkFault>
    requires { length names.now ≡ length rows.now }
    ensures { Writes (S.state out.old) (S.state out.new)
        (flat_map row_line (zip names.now rows.now)) result }
{
    for (task, name) in names.iter().enumerate() {
        if let Err(fault) = put_row(alloc, name.as_slice(), rows[task], out) {
            return Err(fault);
        }
    }
    Ok(())
}

// Writes the line of a task.
#[tactic(auto, using(outside_io::proofs::Pieces::writes_nothing))]
fn put_row<S: Sink>(alloc: Global, name: &[u8], row: TableRow, out: &mut S) -> Result<(), SinkFault>
    ensures { Writes (S.state out.old) (S.state out.new) (row_line (name.now, row)) result }
{
    let line = line_of_row(alloc, name, row)?;
    put_piece(out, line.as_slice())
}

// Writes the line with how many spans there were.
#[tactic(auto, using(outside_io::proofs::Pieces::writes_nothing))]
fn put_spans<S: Sink>(alloc: Global, spans: u64, out: &mut S) -> Result<(), SinkFault>
    ensures { Writes (S.state out.old) (S.state out.new) (spans_line spans) result }
{
    let line = line_of_spans(alloc, spans)?;
    put_piece(out, line.as_slice())
}

// The line of a task.
fn line_of_row(alloc: Global, name: &[u8], row: TableRow) -> Result<Bytes, NoMemory>
    ensures { IfOk result (λ line. line ≡ row_line (name.now, row)) }
{
    let mut line = List::with_room(alloc, LINE_ROOM)?;
    add_name(&mut line, name)?;
    add_number(&mut line, row.starts)?;
    add_number(&mut line, row.ends)?;
    add_number(&mut line, row.faults)?;
    add_number(&mut line, row.drops)?;
    line.push(b'\n')?;
    Ok(line)
}

// The line with how many spans there were.
fn line_of_spans(alloc: Global, spans: u64) -> Result<Bytes, NoMemory>
    ensures { IfOk result (λ line. line ≡ spans_line spans) }
{
    let mut line = List::with_room(alloc, LINE_ROOM)?;
    add_name(&mut line, b"spans")?;
    add_number(&mut line, spans)?;
    line.push(b'\n')?;
    Ok(line)
}

// Adds a name at the left of its column.
fn add_name(line: &mut Bytes, name: &[u8]) -> Result<(), NoMemory>
    ensures { OnOk result (line.new ≡ line.old ++ padded_right 20 name.now) }
{
    line.add_all(name)?;
    add_spaces(line, NAME_WIDTH.saturating_sub(name.len()))
}

// Adds a number at the right of its column.
fn add_number(line: &mut Bytes, number: u64) -> Result<(), NoMemory>
    ensures { OnOk result (line.new ≡ line.old ++ number_column number) }
{
    let mut digits = Buffer::new();
    let text = digits.format(number).as_bytes();
    add_spaces(line, NUMBER_WIDTH.saturating_sub(text.len()))?;
    line.add_all(text)
}

// Adds so many spaces.
fn add_spaces(line: &mut Bytes, count: usize) -> Result<(), NoMemory>
    ensures { OnOk result (line.new ≡ line.old ++ spaces count) }
{
    for _space in 0..count {
        line.push(b' ')?;
    }
    Ok(())
}
