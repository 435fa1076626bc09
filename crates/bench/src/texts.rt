// The operations on texts, each alone.
use crate::clock::micros_since;
use crate::files::{next_word, text_of};
use outside_io::List;
use std::alloc::Global;
use std::env::Args;
use std::io;
use std::time::Instant;
use text_ops::{
    ApplyError, Text, count, head, keep, match_lines, pass, skip, sort, tail, tally, uniq, without,
};

// How often an operation is applied.
const TIMES: u8 = 8;

/// Takes the name of an operation, a file and an operand, reads the file once, applies the operation eight times and
/// prints the microseconds of one. With the name `copy` it copies as many bytes of the file as the operand says, each
/// time to memory that wasn't used before.
pub fn measure(rt: &HostRuntime, words: &mut Args) -> io::Result<()> {
    let name = next_word(rt, words);
    let text = text_of(rt, words)?;
    let operand = next_word(rt, words);
    if name.as_str() == "copy" {
        copies(rt, operand.as_str(), &text)
    } else {
        applies(rt, name.as_str(), operand.as_str(), &text)
    }
}

// The microseconds of an operation, and how many bytes it gives.
fn applies(rt: &HostRuntime, name: &str, operand: &str, text: &Text) -> io::Result<()> {
    let start = Instant::now(rt)?;
    let mut bytes = 0;
    for _ in 0..TIMES {
        let made = apply(rt.alloc(), name, operand, text);
        bytes = made.map_or(0, |made| made.len());
    }
    let micros = micros_since(rt, start)? / u64::from(TIMES);
    println!(rt; "{micros} {bytes}")
}

// The microseconds of a copy into fresh memory, and how many bytes it has.
fn copies(rt: &HostRuntime, operand: &str, text: &Text) -> io::Result<()> {
    let bytes = operand.parse::<usize>().unwrap_or(0);
    let part = text.as_slice().get(..bytes).unwrap_or(&[]);
    let mut kept = Vec::with_capacity(rt.alloc(), TIMES as usize)?;
    let start = Instant::now(rt)?;
    for _ in 0..TIMES {
        let copy = List::from_slice(rt.alloc(), part);
        kept.push(copy)?;
    }
    let micros = micros_since(rt, start)? / u64::from(TIMES);
    println!(rt; "{micros} {}", part.len())
}

// What the operation of this name makes of the text. The operand is its word; numbers are in decimal. No such
// operation passes the text on.
fn apply(alloc: Global, name: &str, operand: &str, text: &Text) -> Result<Text, ApplyError> {
    let number = operand.parse::<u64>().unwrap_or(0);
    match name {
        "keep" => keep(alloc, operand.as_bytes(), text),
        "without" => without(alloc, operand.as_bytes(), text),
        "head" => head(text, number),
        "tail" => tail(text, number),
        "skip" => skip(text, number),
        "sort" => sort(alloc, text),
        "uniq" => uniq(alloc, text),
        "count" => count(alloc, text),
        "tally" => tally(alloc, text),
        "match" => match_lines(alloc, text, text),
        _ => pass(text),
    }
}
