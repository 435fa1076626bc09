//! Graph files, and what becomes of them. Each line of the input is an answer, a bar and a file that has it: the
//! refusal of the file, or the text that is written for its plan. Lines that say otherwise are printed, and at the end
//! how many lines there were. Then come files that are too long for a line or no text, each by what it has, with the
//! answer. It is no part of the product.
#![tactic(auto)]

mod answers;
mod file_cases;

use answers::answer;
use file_cases::{FILES, made};
use std::alloc::AllocError;
use std::io;

fn main(rt: HostRuntime) -> io::Result<()> {
    let mut lines = 0u64;
    for line in rt.lines(rt.alloc()) {
        let line = line?;
        check(&rt, line.as_str())?;
        lines = lines.saturating_add(1);
    }
    println!(rt; "{lines} lines")?;
    tell_made(&rt)
}

// Whether a line says what becomes of its file.
fn check(rt: &HostRuntime, line: &str) -> io::Result<()> {
    let Some((said, file)) = line.split_once(" | ") else {
        return println!(rt; "no bar in {line}");
    };
    let found = answer(rt.alloc(), file.as_bytes(), true)?;
    if found.as_str() == said {
        return Ok(());
    }
    println!(rt; "{found} | {file}")
}

// Prints what becomes of each file that is made.
fn tell_made(rt: &HostRuntime) -> io::Result<()> {
    for file in &FILES {
        let bytes = made(rt.alloc(), file).map_err(|_| AllocError)?;
        let found = answer(rt.alloc(), bytes.as_slice(), false)?;
        println!(rt; "{}: {found}", file.has)?;
    }
    Ok(())
}
