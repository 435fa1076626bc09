// The first fault of a journal, and the first drop for want of a unit.
ghost use Rattle.std.specs.Prelude.{◌≡◌, ◌==◌, IsTrue, ◌↔◌, ◌≢◌, count_by};
ghost use Rattle.journal_rules.specs.Complete.{is_limited};
ghost use Rattle.nested_runs.specs.Reasons.{first_fault, first_stuck};

use journal_rules::{DropWhy, Entry, Why};

/// A Fault: its index in the journal, that of the start which it closes, and why.
#[derive(Clone, Copy)]
pub struct Faulted {
    pub place: u64,
    pub start: u64,
    pub why: Why,
}

/// The first Fault.
pub(crate) fn first_fault(journal: &[Entry]) -> Option<Faulted>
    ensures { result ≡ first_fault journal.now }
{
    for (place, entry) in journal.iter().enumerate() {
        if let Entry::Fault { start, why } = entry {
            return Some(Faulted {
                place: place as u64,
                start: *start,
                why: *why,
            });
        }
    }
    None
}

/// The task of the first Drop for want of a unit.
pub(crate) fn first_stuck(journal: &[Entry]) -> Option<u32>
    ensures { result ≡ first_stuck journal.now }
{
    for entry in journal {
        if let Entry::Drop {
            task,
            why: DropWhy::Stuck(_),
            ..
        } = entry
        {
            return Some(*task);
        }
    }
    None
}

/// Whether a release was dropped at the limit.
pub(crate) fn is_limited(journal: &[Entry]) -> bool
    ensures { IsTrue result ↔ (count_by is_limited journal.now ≢ 0) }
{
    journal
        .iter()
        .filter(|entry| is_drop_at_limit(entry))
        .count()
        != 0
}

// Whether an entry is a Drop at the limit.
fn is_drop_at_limit(entry: &Entry) -> bool
    ensures { result ≡ is_limited entry.now }
{
    matches!(
        entry,
        Entry::Drop {
            why: DropWhy::Limit,
            ..
        }
    )
}
