// The reading and writing of graph files.
use crate::clock::micros_since;
use crate::files::{bytes_of, next_word};
use graph_file::read_graph;
use graph_writer::write_graph;
use json::Scratch;
use json_values::Value;
use std::alloc::Global;
use std::env::Args;
use std::io;
use std::time::Instant;

// The most bytes of a file.
const MOST: u64 = 16_777_216;

/// Takes a word and the name of a file, and reads the bytes; with the word `json` it reads them as JSON besides, with
/// `read` as a graph, and with `write` it writes that graph again. Prints the microseconds of what it did besides.
pub fn measure(rt: &HostRuntime, words: &mut Args) -> io::Result<()> {
    let word = next_word(rt, words);
    let file = next_word(rt, words);
    let bytes = bytes_of(rt, file.as_str(), MOST)?;
    let start = Instant::now(rt)?;
    let done = does(rt.alloc(), word.as_str(), bytes.as_slice());
    let micros = micros_since(rt, start)?;
    println!(rt; "{micros} {}", if done { "done" } else { "refused" })
}

// Whether what the word names could be done.
fn does(alloc: Global, word: &str, bytes: &[u8]) -> bool {
    match word {
        "json" => reads_json(alloc, bytes),
        "read" => read_graph(alloc, bytes).is_ok(),
        "write" => writes_again(alloc, bytes),
        _ => true,
    }
}

fn reads_json(alloc: Global, bytes: &[u8]) -> bool {
    let mut scratch = Scratch::new(alloc);
    Value::from_slice(alloc, bytes, &mut scratch).is_ok()
}

fn writes_again(alloc: Global, bytes: &[u8]) -> bool {
    match read_graph(alloc, bytes) {
        Ok(plan) => write_graph(alloc, &plan).is_ok(),
        Err(_) => false,
    }
}
