// The different lines of a text that has few of them, each with how often it occurs.
ghost use Rattle.std.specs.Prelude.{IfOk, IfSome, IsTrue, OnOk};
ghost use Rattle.text_ops.specs.Lines.{IsNormal};
ghost use Rattle.text_ops.specs.inside.Counting.{AreDifferentLines, AreRisingLines, CountsOneMore, IsFound};

use crate::counted_line::CountedLine;
use crate::line_ends::line_ends;
use crate::line_walk::Lines;
use crate::slots::{PROBES, Probed, first_slot};
use outside_io::NoMemory;
use std::alloc::Global;

// At most so large a part of the lines may be different.
const PART: usize = 8;

// So many slots there are for each row: with fewer, 16 that follow one another would often be taken.
const SLOTS: usize = 4;

/// The different lines of a text, in the order of their bytes, each with how often it occurs. `None`: perhaps more than
/// an eighth of the lines are different.
pub(crate) fn counted_lines<'t>(
    alloc: Global,
    text: &'t [u8],
) -> Result<Option<Vec<CountedLine<'t>>>, NoMemory>
    requires { IsNormal text.now }
    ensures { IfOk result (λ found. IfSome found (λ rows. AreDifferentLines text.now rows.items)) }
{
    let most = line_ends(text) / PART;
    let mut rows = Vec::new(alloc);
    let mut slots = vec![in alloc; u32::MAX; SLOTS * most + PROBES]?;
    for line in Lines::new(text) {
        if rows.len() > most {
            return Ok(None);
        }
        count_in_table(&mut rows, &mut slots, line)?;
    }
    rows.sort_unstable_by(|a, b| a.line.cmp(b.line));
    if !are_rising(rows.as_slice()) {
        return Ok(None);
    }
    Ok(Some(rows))
}

// Counts a line. The slots are only hints: a line that they don't lead to gets one more row.
fn count_in_table<'t>(
    rows: &mut Vec<CountedLine<'t>>,
    slots: &mut [u32],
    line: &'t [u8],
) -> Result<(), NoMemory>
    ensures { OnOk result (CountsOneMore line.entry.now rows.old.items rows.new.items) }
{
    match find(rows.as_slice(), slots, line) {
        Probed::Row(row) => {
            let count = rows[row].count.checked_add(1).ok_or(NoMemory)?;
            rows[row] = CountedLine { line, count };
            return Ok(());
        }
        Probed::Free(slot) => note(slots, slot, rows.len()),
        Probed::Crowded => {}
    }
    rows.push(CountedLine { line, count: 1 })?;
    Ok(())
}

// Notes a row in a slot, if its number fits there.
fn note(slots: &mut [u32], slot: usize, row: usize) {
    if let (Some(noted), Ok(row)) = (slots.get_mut(slot), u32::try_from(row)) {
        *noted = row;
    }
}

// Looks for a line by its hash.
fn find(rows: &[CountedLine<'_>], slots: &[u32], line: &[u8]) -> Probed
    ensures { IsFound rows.now line.now result }
{
    let first = first_slot(line, slots.len());
    for slot in first..first + PROBES {
        let Some(noted) = slots.get(slot) else {
            return Probed::Crowded;
        };
        let row = *noted as usize;
        let Some(counted) = rows.get(row) else {
            return Probed::Free(slot);
        };
        if counted.line == line {
            return Probed::Row(row);
        }
    }
    Probed::Crowded
}

// Whether each line is less than the next.
fn are_rising(rows: &[CountedLine<'_>]) -> bool
    ensures { IsTrue result → AreRisingLines rows.now }
{
    for k in 1..rows.len() {
        if !rows[k - 1].line.cmp(rows[k].line).is_lt() {
            return false;
        }
    }
    true
}
