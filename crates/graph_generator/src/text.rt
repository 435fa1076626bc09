// The text that generated graphs read.
ghost use Rattle.std.specs.Prelude.{◌≡◌, ◌++◌, IfOk, OnOk};
ghost use Rattle.graph_generator.specs.GeneratedText.{text_line, text_lines};

use crate::draws::draws_from;
use outside_io::{Bytes, List, NoMemory, add_numbered};
use std::alloc::Global;

// How many different words there are.
const WORDS: u64 = 50;

/// So many lines, by draws from this seed.
pub(crate) fn text_of(alloc: Global, seed: u64, lines: usize) -> Result<Bytes, NoMemory>
    ensures { IfOk result (λ text. text ≡ text_lines seed lines) }
{
    let draws = draws_from(alloc, seed, lines)?;
    let mut text = List::new(alloc);
    for number in 0..lines {
        add_drawn_line(&mut text, number as u64, draws[number])?;
    }
    Ok(text)
}

fn add_drawn_line(text: &mut Bytes, number: u64, drawn: u64) -> Result<(), NoMemory>
    ensures { OnOk result (text.new ≡ text.old ++ text_line number drawn) }
{
    add_numbered(text, b"w", drawn % WORDS)?;
    add_numbered(text, b" ", number)?;
    text.push(b'\n')?;
    Ok(())
}
