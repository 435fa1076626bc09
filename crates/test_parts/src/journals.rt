// `journal_text`: journals that are printed, and texts that are read.
use crate::fields::{are_bytes_of, bytes_of};
use journal_rules::{Cause, DropWhy, Entry, Journal, Part, Why};
use journal_text::{JournalError, print_journal, read_journal};
use outside_io::for_tests::{FailAt, MemorySink};
use outside_io::{List, NoMemory, Sink, SinkFault};
use std::alloc::Global;
use std::test::Fail;

const INS: [Part; 4] = [
    Part::From(u64::MAX),
    Part::First,
    Part::Nothing,
    Part::From(0),
];

const WHY: [Why; 5] = [
    Why::Long(u64::MAX),
    Why::Wide(0),
    Why::Unmet(7),
    Why::Inner,
    Why::OverRelease(u32::MAX),
];

const DROPPED: [DropWhy; 3] = [DropWhy::Halted, DropWhy::Limit, DropWhy::Stuck(u32::MAX)];

fn add_starts(alloc: Global, journal: &mut Journal) -> Result<(), NoMemory> {
    journal.push(Entry::Start {
        task: u32::MAX,
        cause: Cause::Weak(u32::MAX),
        ins: List::from_slice(alloc, &INS)?,
    })?;
    journal.push(Entry::Start {
        task: 0,
        cause: Cause::Source,
        ins: List::new(alloc),
    })?;
    Ok(())
}

fn add_ends(alloc: Global, journal: &mut Journal) -> Result<(), NoMemory> {
    journal.push(Entry::End {
        start: u64::MAX,
        gives: List::from_slice(alloc, &[u32::MAX, 0])?,
        inner: true,
    })?;
    journal.push(Entry::End {
        start: 10,
        gives: List::new(alloc),
        inner: false,
    })?;
    Ok(())
}

fn add_faults(journal: &mut Journal) -> Result<(), NoMemory> {
    for why in &WHY {
        journal.push(Entry::Fault {
            start: 3,
            why: *why,
        })?;
    }
    Ok(())
}

fn add_drops(journal: &mut Journal) -> Result<(), NoMemory> {
    for why in &DROPPED {
        journal.push(Entry::Drop {
            task: 5,
            cause: Cause::Strong,
            why: *why,
        })?;
    }
    Ok(())
}

// A journal with an entry of each kind and the greatest number of each field.
fn each_entry(alloc: Global) -> Result<Journal, NoMemory> {
    let mut journal = List::new(alloc);
    add_starts(alloc, &mut journal)?;
    add_ends(alloc, &mut journal)?;
    add_faults(&mut journal)?;
    add_drops(&mut journal)?;
    Ok(journal)
}

const EACH_LINE: &str = "flow journal 2~\
start 4294967295 weak:4294967295 18446744073709551615,first,nothing,0~\
start 0 source -~\
end 18446744073709551615 4294967295,0 inner~\
end 10 - plain~\
fault 3 long:18446744073709551615~\
fault 3 wide:0~\
fault 3 unmet:7~\
fault 3 inner~\
fault 3 over:4294967295~\
drop 5 strong halted~\
drop 5 strong limit~\
drop 5 strong stuck:4294967295~";

const FIRST_VERSION: &str = "flow journal 1~start 0 source -~end 0 1,2 plain~";

const SECOND_VERSION: &str = "flow journal 2~start 0 source -~end 0 1,2 plain~";

// Whether the text of a journal is this one.
fn is_printed(alloc: Global, journal: &Journal, text: &str) -> Result<bool, SinkFault> {
    let mut sink = MemorySink::new(alloc, List::new(alloc));
    print_journal(alloc, journal.as_slice(), &mut sink)?;
    Ok(are_bytes_of(sink.bytes(), text))
}

// Whether what is read of a text is printed as another one.
fn is_printed_again(alloc: Global, text: &str, again: &str) -> Result<bool, Fail> {
    let bytes = bytes_of(alloc, text)?;
    match read_journal(alloc, bytes.as_slice()) {
        Ok(journal) => Ok(is_printed(alloc, &journal, again)?),
        Err(_) => Ok(false),
    }
}

#[test]
fn prints_each_entry_and_reads_it_again(rt: HostRuntime) -> Result<(), Fail> {
    let journal = each_entry(rt.alloc())?;
    assert!(rt; is_printed(rt.alloc(), &journal, EACH_LINE)?);
    assert!(rt; is_printed_again(rt.alloc(), EACH_LINE, EACH_LINE)?);
    assert!(rt; is_printed_again(rt.alloc(), FIRST_VERSION, SECOND_VERSION)?);
    Ok(())
}

#[test]
fn stops_at_the_first_put_that_fails(rt: HostRuntime) -> Result<(), Fail> {
    let alloc = rt.alloc();
    let failing = [FailAt { call: 2, taken: 5 }];
    let mut sink = MemorySink::new(alloc, List::from_slice(alloc, &failing)?);
    let journal = each_entry(alloc)?;
    assert!(rt; print_journal(alloc, journal.as_slice(), &mut sink) == Err(SinkFault::Failed));
    assert!(rt; sink.bytes().len() == 15 + 70 + 5);
    Ok(())
}

// In each line bytes that are no text, and the number of the line that is refused.
const REFUSED: &str = "\
|1
~|1
flow journal 2|1
flow journal 3~|1
flow journal 2 ~|1
flow journal 2&~|1
start 0 source -~|1
flow journal 2~~|2
flow journal 2~start 0 source -|2
flow journal 2~start 0 source -~end 0 - plain|3
flow journal 2~start 0 source -~end 0 - plain~~|4
flow journal 2~start 0 source -~end 0 - plain~x|4
flow journal 2~start 0 source -&~|2
flow journal 2~start 00 source -~|2
flow journal 2~start 01 source -~|2
flow journal 2~start +1 source -~|2
flow journal 2~start  1 source -~|2
flow journal 2~start 1 source - ~|2
flow journal 2~ start 1 source -~|2
flow journal 2~start 4294967296 source -~|2
flow journal 2~start 1 weak:4294967296 -~|2
flow journal 2~start 1 strong 18446744073709551616~|2
flow journal 2~start 1 strong 99999999999999999999999999~|2
flow journal 2~start 1 strong 1,~|2
flow journal 2~start 1 strong ,1~|2
flow journal 2~start 1 cause -~|2
flow journal 2~end 18446744073709551616 - plain~|2
flow journal 2~end 0 4294967296 plain~|2
flow journal 2~end 0 - outer~|2
flow journal 2~fault 0 over:4294967296~|2
flow journal 2~fault 0 long:18446744073709551616~|2
flow journal 1~start 0 source -~fault 0 over:0~|3
flow journal 1~start 0 source -~drop 0 source stuck:0~|3
flow journal 2~start 0 source -~a,b,c 1 -~end 0 - plain~|3
";

// Which line is refused of bytes that are no text.
fn bad_line(alloc: Global, bytes: &[u8]) -> Option<u64> {
    match read_journal(alloc, bytes) {
        Err(JournalError::BadLine(line)) => Some(line),
        _ => None,
    }
}

#[test]
fn names_the_bad_line(rt: HostRuntime) -> Result<(), Fail> {
    for row in REFUSED.lines() {
        let (field, line) = row.split_once('|').unwrap_or((row, ""));
        let bytes = bytes_of(rt.alloc(), field)?;
        let refused = bad_line(rt.alloc(), bytes.as_slice());
        assert!(rt; refused == line.parse::<u64>().ok(), "{row}");
    }
    Ok(())
}
