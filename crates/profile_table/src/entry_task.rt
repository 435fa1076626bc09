// Which task an entry is of.
ghost use Rattle.std.specs.Prelude.{◌≡◌};
ghost use Rattle.journal_rules.specs.Counts.{start_at};
ghost use Rattle.profile_table.specs.Profiles.{entry_task};

use journal_rules::Entry;

/// The task of a Start or a Drop, and of an End or a Fault that of the Start which it closes.
pub(crate) fn entry_task(journal: &[Entry], entry: &Entry) -> Option<u32>
    ensures { result ≡ entry_task journal.now entry.now }
{
    match entry {
        Entry::Start { task, .. } | Entry::Drop { task, .. } => Some(*task),
        Entry::End { start, .. } | Entry::Fault { start, .. } => started_task(journal, *start),
    }
}

// The task of the Start at an index of the journal, where there is one.
fn started_task(journal: &[Entry], place: u64) -> Option<u32>
    ensures { result ≡ start_at journal.now place }
{
    match journal.get(place as usize) {
        Some(Entry::Start { task, .. }) => Some(*task),
        _ => None,
    }
}
