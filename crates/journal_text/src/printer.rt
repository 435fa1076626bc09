// The writing of a journal's text.
ghost use Rattle.std.specs.Prelude.{◌≡◌, ◌++◌, ◌<◌, ◌^◌, codes, decimal, All, IfOk, OnOk};
ghost use Rattle.std.specs.List.{flat_map};
ghost use Rattle.outside_io.specs.Sink.{Writes};
ghost use Rattle.journal_text.specs.JournalText.{FitsCause, FitsDropWhy, FitsPart, FitsWhy, HasLine, IsJournalText, cause_field, drop_field, entry_line, fault_field, inner_field, journal_text, list_field, part_field};
ghost use Rattle.journal_rules.specs.declared.entry.Entry.TheVariants.{Start, End, Fault, Drop};
ghost use Rattle.journal_text.specs.declared.version.Version.TheVariants.{Two};

use journal_rules::{Cause, DropWhy, Entry, Journal, Part, Why};
use outside_io::{Bytes, List, NoMemory, Sink, SinkFault, add_numbered, put_piece};
use std::alloc::Global;

/// Room for a line with few inputs or edges, so that it needn't grow.
const LINE_ROOM: usize = 96;

/// Puts the text of version 2 on a sink, one put a line. After `NoMemory` the sink accepted a prefix of the text.
pub fn print_journal<S: Sink>(
    alloc: Global,
    journal: &[Entry],
    out: &mut S,
) -> Result<(), SinkFault>
    ensures writes { Writes (S.state out.old) (S.state out.new)
        (journal_text Two journal.now) result }
    ensures text { OnOk result (IsJournalText journal.now (journal_text Two journal.now)) }
{
    if let Err(fault) = put_piece(out, b"flow journal 2\n") {
        return Err(fault);
    }
    put_entries(alloc, journal, out)
}

// Puts the lines of these entries.
#[tactic(auto, using(outside_io::proofs::Pieces::accepts_nothing))]
fn put_entries<S: Sink>(alloc: Global, journal: &[Entry], out: &mut S) -> Result<(), SinkFault>
    ensures writes { Writes (S.state out.old) (S.state out.new)
        (flat_map entry_line journal.now) result }
    ensures fits { OnOk result (All (HasLine Two) journal.now) }
{
    for entry in journal {
        if let Err(fault) = put_entry(alloc, entry, out) {
            return Err(fault);
        }
    }
    Ok(())
}

// Puts the line of an entry.
#[tactic(auto, using(outside_io::proofs::Pieces::writes_nothing))]
fn put_entry<S: Sink>(alloc: Global, entry: &Entry, out: &mut S) -> Result<(), SinkFault>
    ensures writes { Writes (S.state out.old) (S.state out.new) (entry_line entry.now) result }
    ensures fits { OnOk result (HasLine Two entry.now) }
{
    let line = line_of(alloc, entry)?;
    put_piece(out, line.as_slice())
}

// The line of an entry.
fn line_of(alloc: Global, entry: &Entry) -> Result<Bytes, NoMemory>
    ensures line { IfOk result (λ line. line ≡ entry_line entry.now) }
    ensures fits { OnOk result (HasLine Two entry.now) }
{
    let mut line = List::with_room(alloc, LINE_ROOM)?;
    add_entry(&mut line, entry)?;
    Ok(line)
}

// Adds the line of an entry.
fn add_entry(line: &mut Bytes, entry: &Entry) -> Result<(), NoMemory>
    ensures adds { OnOk result (line.new ≡ line.old ++ entry_line entry.now) }
    ensures fits { OnOk result (HasLine Two entry.now) }
{
    match entry {
        Entry::Start { task, cause, ins } => add_start(line, *task, *cause, ins.as_slice()),
        Entry::End {
            start,
            gives,
            inner,
        } => add_end(line, *start, gives.as_slice(), *inner),
        Entry::Fault { start, why } => add_fault(line, *start, *why),
        Entry::Drop { task, cause, why } => add_drop(line, *task, *cause, *why),
    }
}

// Adds the line of a start.
fn add_start(line: &mut Bytes, task: u32, cause: Cause, ins: &[Part]) -> Result<(), NoMemory>
    ensures adds { OnOk result (line.new ≡ line.old ++ entry_line (Start task cause ins.now)) }
    ensures fits { OnOk result (HasLine Two (Start task cause ins.now)) }
{
    add_numbered(line, b"start ", u64::from(task))?;
    line.add_all(b" ")?;
    add_cause(line, cause)?;
    line.add_all(b" ")?;
    add_ins(line, ins)?;
    line.add_all(b"\n")
}

// Adds the line of an end.
fn add_end(line: &mut Bytes, start: u64, gives: &[u32], inner: bool) -> Result<(), NoMemory>
    ensures adds { OnOk result (line.new ≡ line.old ++ entry_line (End start gives.now inner)) }
    ensures fits { OnOk result (HasLine Two (End start gives.now inner)) }
{
    add_numbered(line, b"end ", start)?;
    line.add_all(b" ")?;
    add_gives(line, gives)?;
    line.add_all(if inner { b" inner\n" } else { b" plain\n" })
}

// Adds the line of a fault.
fn add_fault(line: &mut Bytes, start: u64, why: Why) -> Result<(), NoMemory>
    ensures adds { OnOk result (line.new ≡ line.old ++ entry_line (Fault start why)) }
    ensures fits { OnOk result (HasLine Two (Fault start why)) }
{
    add_numbered(line, b"fault ", start)?;
    line.add_all(b" ")?;
    add_fault_why(line, why)?;
    line.add_all(b"\n")
}

// Adds the line of a drop.
fn add_drop(line: &mut Bytes, task: u32, cause: Cause, why: DropWhy) -> Result<(), NoMemory>
    ensures adds { OnOk result (line.new ≡ line.old ++ entry_line (Drop task cause why)) }
    ensures fits { OnOk result (HasLine Two (Drop task cause why)) }
{
    add_numbered(line, b"drop ", u64::from(task))?;
    line.add_all(b" ")?;
    add_cause(line, cause)?;
    line.add_all(b" ")?;
    add_drop_why(line, why)?;
    line.add_all(b"\n")
}

// Adds what a release comes from.
fn add_cause(line: &mut Bytes, cause: Cause) -> Result<(), NoMemory>
    ensures adds { OnOk result (line.new ≡ line.old ++ cause_field cause) }
    ensures fits { FitsCause cause }
{
    match cause {
        Cause::Source => line.add_all(b"source"),
        Cause::Strong => line.add_all(b"strong"),
        Cause::Weak(edge) => add_numbered(line, b"weak:", u64::from(edge)),
    }
}

// Adds what a start finds at an edge.
fn add_part(line: &mut Bytes, part: Part) -> Result<(), NoMemory>
    ensures adds { OnOk result (line.new ≡ line.old ++ part_field part) }
    ensures fits { FitsPart part }
{
    match part {
        Part::From(place) => add_numbered(line, b"", place),
        Part::First => line.add_all(b"first"),
        Part::Nothing => line.add_all(b"nothing"),
    }
}

// Adds what a start finds at its edges.
fn add_ins(line: &mut Bytes, ins: &[Part]) -> Result<(), NoMemory>
    ensures adds { OnOk result (line.new ≡ line.old ++ list_field part_field ins.now) }
    ensures fit { OnOk result (All FitsPart ins.now) }
{
    match ins {
        [] => line.add_all(b"-"),
        [first, rest @ ..] => {
            add_part(line, *first)?;
            for part in rest {
                line.add_all(b",")?;
                add_part(line, *part)?;
            }
            Ok(())
        }
    }
}

// Adds the edges that an end signals.
fn add_gives(line: &mut Bytes, gives: &[u32]) -> Result<(), NoMemory>
    ensures { OnOk result (line.new ≡ line.old ++ list_field decimal gives.now) }
{
    match gives {
        [] => line.add_all(b"-"),
        [first, rest @ ..] => {
            add_numbered(line, b"", u64::from(*first))?;
            for edge in rest {
                add_numbered(line, b",", u64::from(*edge))?;
            }
            Ok(())
        }
    }
}

// Adds why a start faulted.
fn add_fault_why(line: &mut Bytes, why: Why) -> Result<(), NoMemory>
    ensures adds { OnOk result (line.new ≡ line.old ++ fault_field why) }
    ensures fits { FitsWhy Two why }
{
    match why {
        Why::Long(bytes) => add_numbered(line, b"long:", bytes),
        Why::Wide(parts) => add_numbered(line, b"wide:", parts),
        Why::Unmet(token) => add_numbered(line, b"unmet:", token),
        Why::Inner => line.add_all(b"inner"),
        Why::OverRelease(sem) => add_numbered(line, b"over:", u64::from(sem)),
    }
}

// Adds why a release was dropped.
fn add_drop_why(line: &mut Bytes, why: DropWhy) -> Result<(), NoMemory>
    ensures adds { OnOk result (line.new ≡ line.old ++ drop_field why) }
    ensures fits { FitsDropWhy Two why }
{
    match why {
        DropWhy::Halted => line.add_all(b"halted"),
        DropWhy::Limit => line.add_all(b"limit"),
        DropWhy::Stuck(sem) => add_numbered(line, b"stuck:", u64::from(sem)),
    }
}
