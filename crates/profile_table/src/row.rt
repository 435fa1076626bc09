// What a task did.
ghost use Rattle.std.specs.Prelude.{◌≡◌, ◌∷◌, []};

use journal_rules::Entry;

/// What a task did in some runs.
#[derive(Clone, Copy, Debug, PartialEq, Eq)]
pub struct TableRow {
    /// How often it started.
    pub starts: u64,
    /// How many of these starts ended.
    pub ends: u64,
    /// How many of them faulted.
    pub faults: u64,
    /// How many of its releases were used up without a start.
    pub drops: u64,
}

impl TableRow {
    ghost use Rattle.profile_table.specs.Profiles.{kind_counts, no_counts, row_plus};
    ghost use Rattle.profile_table.specs.inside.Counting.{CanRise};

    /// The row of a task that did nothing.
    pub(crate) fn new() -> TableRow
        ensures { result ≡ no_counts }
    {
        TableRow {
            starts: 0,
            ends: 0,
            faults: 0,
            drops: 0,
        }
    }

    /// Counts an entry of the task.
    pub(crate) fn count(&mut self, entry: &Entry)
        requires { CanRise 1 self.old }
        ensures { self.new ≡ row_plus self.old (kind_counts (entry.now ∷ [])) }
    {
        match entry {
            Entry::Start { .. } => self.starts += 1,
            Entry::End { .. } => self.ends += 1,
            Entry::Fault { .. } => self.faults += 1,
            Entry::Drop { .. } => self.drops += 1,
        }
    }
}
