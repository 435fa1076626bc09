// The reading and writing of a journal's text.
use crate::clock::micros_since;
use crate::files::{bytes_of, next_word};
use journal_rules::Entry;
use journal_text::{print_journal, read_journal};
use outside_io::{Sink, SinkFault, StdSink};
use std::env::Args;
use std::io;
use std::time::Instant;

// The most bytes of a file.
const MOST: u64 = 67_108_864;

/// Takes a word and the name of a file, and reads the bytes; with the word `read` it reads their journal besides, and
/// with `print` it prints that journal again on standard output, and flushes it. On standard error it prints the
/// microseconds of the last of these, and whether it could.
pub fn measure(rt: &HostRuntime, words: &mut Args) -> io::Result<()> {
    let word = next_word(rt, words);
    let file = next_word(rt, words);
    let bytes = bytes_of(rt, file.as_str(), MOST)?;
    match word.as_str() {
        "read" => measure_read(rt, bytes.as_slice()),
        "print" => match read_journal(rt.alloc(), bytes.as_slice()) {
            Ok(journal) => measure_print(rt, journal.as_slice()),
            Err(_) => Err(io::ErrorKind::InvalidData.into()),
        },
        _ => Ok(()),
    }
}

// Reads a journal.
fn measure_read(rt: &HostRuntime, bytes: &[u8]) -> io::Result<()> {
    let start = Instant::now(rt)?;
    let journal = read_journal(rt.alloc(), bytes);
    eprintln!(rt; "{} {}", micros_since(rt, start)?, journal.is_ok())
}

// Prints a journal.
fn measure_print(rt: &HostRuntime, journal: &[Entry]) -> io::Result<()> {
    let start = Instant::now(rt)?;
    let is_printed = printed(rt, journal).is_ok();
    eprintln!(rt; "{} {is_printed}", micros_since(rt, start)?)
}

fn printed(rt: &HostRuntime, journal: &[Entry]) -> Result<(), SinkFault> {
    let mut out = StdSink::out(rt.alloc(), rt);
    print_journal(rt.alloc(), journal, &mut out)?;
    out.flush()
}
