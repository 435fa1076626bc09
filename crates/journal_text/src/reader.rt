// The reading of a journal's text.
ghost use Rattle.std.specs.Prelude.{◌≡◌, ◌⊎◌, List, ◌++◌, ◌∷◌, ◌<◌, ◌≤◌, [], IfErr, IfOk, IsErrOf, OnErr, length};
ghost use Rattle.std.specs.List.{AllByRecursion, flat_map};
ghost use Rattle.journal_rules.specs.declared.entry.Entry.{Entry};
ghost use Rattle.journal_text.specs.JournalText.{IsJournalText, RefusesJournal};
ghost use Rattle.journal_text.specs.inside.Reading.{HasRead, StopsReading, entry_at};
ghost use Rattle.journal_text.specs.declared.reader.JournalError.TheVariants.{NoMemory as NoRoom};

use super::line_fault::LineFault;
use super::lines::{entry_at, version_at};
use super::version::Version;
use journal_rules::Journal;
use memchr::memchr_iter;
use outside_io::{List, NoMemory};
use std::alloc::Global;

// The bytes of the shortest line of an entry, which is that of an end without edges or of a fault: `end 0 - plain`.
const SHORTEST_LINE: usize = 14;

/// Why bytes weren't read as the text of a journal.
#[derive(Clone, Copy)]
pub enum JournalError {
    /// The line of this number, from 1, is the first bad one (`IsBadLine`).
    BadLine(u64),
    /// An allocation failed.
    NoMemory,
}

impl From<NoMemory> for JournalError {
    ghost from_gives = { λ _ error. error ≡ NoRoom };

    fn from(_: NoMemory) -> Self {
        JournalError::NoMemory
    }
}

/// The journal whose text of version 1 or 2 these bytes are, all of them; or the number of the first bad line.
pub fn read_journal(alloc: Global, bytes: &[u8]) -> Result<Journal, JournalError>
    ensures journal { IfOk result (λ journal. IsJournalText journal bytes.now) }
    ensures refusal { IfErr result (λ error. RefusesJournal bytes.now error) }
    // A text is read, unless an allocation fails.
    ensures text { (journal : List Entry) → IsJournalText journal bytes.now
        → (result ≡ Ok journal) ⊎ (result ≡ Err JournalError.NoMemory) }
{
    read_whole(alloc, bytes)
}

// What `read_journal` does, without its last clause.
fn read_whole(alloc: Global, bytes: &[u8]) -> Result<Journal, JournalError>
    ensures journal { IfOk result (λ journal. IsJournalText journal bytes.now) }
    ensures refusal { IfErr result (λ error. RefusesJournal bytes.now error) }
{
    let Some((version, rest)) = version_at(bytes) else {
        return Err(JournalError::BadLine(1));
    };
    read_entries(alloc, version, rest)
}

// The entries of these lines, which follow the first line.
fn read_entries(alloc: Global, version: Version, bytes: &[u8]) -> Result<Journal, JournalError>
    ensures journal { IfOk result (λ journal. HasRead version bytes.now journal []) }
    ensures stops { IfErr result (λ error. StopsReading version bytes.now error) }
{
    let entries = line_ends(bytes).min(bytes.len() / SHORTEST_LINE);
    let mut journal = List::with_room(alloc, entries)?;
    let mut rest = bytes;
    let mut line = 2u64;
    while !rest.is_empty() {
        rest = match push_entry(alloc, &mut journal, version, rest) {
            Ok(behind) => behind,
            Err(LineFault::Bad) => return Err(JournalError::BadLine(line)),
            Err(LineFault::NoMemory) => return Err(JournalError::NoMemory),
        };
        line += 1;
    }
    Ok(journal)
}

// Puts the entry of the line at the front at the end of the journal, and gives what follows the line.
fn push_entry<'a>(
    alloc: Global,
    journal: &mut Journal,
    version: Version,
    bytes: &'a [u8],
) -> Result<&'a [u8], LineFault>
    ensures read { IfOk result
        (λ rest. (entry : Entry) × (journal.new ≡ journal.old ++ entry ∷ [])
        × (entry_at version bytes.now ≡ Some (entry, rest.now))) }
    ensures bad { IsErrOf result LineFault.Bad
        → (journal.new ≡ journal.old) × (entry_at version bytes.now ≡ None) }
{
    let (entry, rest) = entry_at(alloc, version, bytes)?;
    journal.push(entry)?;
    Ok(rest)
}

// How many line ends there are.
fn line_ends(bytes: &[u8]) -> usize {
    memchr_iter(b'\n', bytes).count()
}
