// How often each line occurs in a text.
ghost use Rattle.std.specs.Prelude.{◌≡◌, ◌<◌, ◌++◌, ◌∷◌, ℕ, List, length, map, decimal, OnOk};
ghost use Rattle.text_ops.specs.Lines.{IsNormal, ended};
ghost use Rattle.text_ops.specs.MatchKeys.{space};
ghost use Rattle.text_ops.specs.TextMeaning.{tally_meaning};
ghost use Rattle.text_ops.specs.Values.{Makes};
ghost use Rattle.text_ops.specs.inside.Counting.{AreDifferentLines};
ghost use Rattle.text_ops.specs.inside.Gathering.{IsGathered};
ghost use Rattle.text_ops.specs.inside.SortKeys.{KeysFit, keyed_piece};
ghost use Rattle.text_ops.specs.inside.Tallying.{run_of};

use crate::counted_line::CountedLine;
use crate::counted_lines::counted_lines;
use crate::gathered::{ApplyError, Gathered};
use crate::short_keys::short_keys_fit;
use crate::sort_key::{KeyForm, LongKey, Piece, ShortKey, SortKey};
use crate::sort_keys::{keyed_piece, sorted_keys};
use crate::text::Text;
use itoa::write_digits;
use outside_io::NoMemory;
use std::alloc::Global;

/// For each different line, in the order of their bytes, a line with its count in decimal, a space and the line.
pub fn tally(alloc: Global, text: &Text) -> Result<Text, ApplyError>
    ensures { Makes (tally_meaning text.now) result }
{
    let bytes = text.as_slice();
    if let Some(rows) = counted_lines(alloc, bytes)? {
        return tally_of_rows(alloc, rows.as_slice());
    }
    if short_keys_fit(bytes) {
        return tally_by_sort_keys::<ShortKey>(alloc, bytes);
    }
    tally_by_sort_keys::<LongKey>(alloc, bytes)
}

// Each line behind its count.
fn tally_of_rows(alloc: Global, rows: &[CountedLine<'_>]) -> Result<Text, ApplyError>
    ensures { (text : List ℕ) → AreDifferentLines text rows.now → Makes (tally_meaning text) result }
{
    let mut made = Gathered::new(alloc);
    for row in rows {
        add_counted(&mut made, row.count, row.line)?;
    }
    made.finish(alloc)
}

fn tally_by_sort_keys<K: KeyForm>(alloc: Global, text: &[u8]) -> Result<Text, ApplyError>
    requires normal { IsNormal text.now }
    requires fit { KeysFit K.most_start K.most_len text.now }
    ensures { Makes (tally_meaning text.now) result }
{
    let sort_keys = sorted_keys::<K>(alloc, text, Piece::Whole)?;
    let sort_keys = sort_keys.as_slice();
    let mut made = Gathered::new(alloc);
    let mut at = 0;
    while at < sort_keys.len() {
        let count = run_length(text, &sort_keys[at..]);
        add_counted(&mut made, count as u64, keyed_piece(text, &sort_keys[at]))?;
        at += count;
    }
    made.finish(alloc)
}

// How many sort keys, from the first on, stand for the same line as the first.
fn run_length<K: KeyForm>(text: &[u8], sort_keys: &[SortKey<K>]) -> usize
    requires { 0 < length sort_keys.now }
    ensures { result ≡ run_of (map (keyed_piece text.now) sort_keys.now) }
{
    let first = keyed_piece(text, &sort_keys[0]);
    for (k, sort_key) in sort_keys.iter().enumerate() {
        if keyed_piece(text, sort_key) != first {
            return k;
        }
    }
    sort_keys.len()
}

// Adds a count, a space and a line.
fn add_counted(made: &mut Gathered, count: u64, line: &[u8]) -> Result<(), NoMemory>
    ensures { (all : List ℕ) → IsGathered all made.old
        → OnOk result (IsGathered (all ++ ended (decimal count ++ space ∷ line.now)) made.new) }
{
    let mut front = [b' '; 21];
    let start = write_digits(count, &mut front, 20);
    made.add_line(&front[start..], line)
}
