// The rows of all tasks, and the adding of journals.
ghost use Rattle.std.specs.Prelude.{◌≡◌, ◌<◌, ◌↔◌, [], All, Some, IfOk, IsTrue, length, slice_get};
ghost use Rattle.profile_table.specs.Profiles.{CanAdd, after_journal, profile_of};
ghost use Rattle.profile_table.specs.inside.Counting.{CanRise, Counts, CountsOne};

use super::entry_task::entry_task;
use super::row::TableRow;
use journal_rules::Entry;
use outside_io::NoMemory;
use std::alloc::Global;
use std::marker::Model;

/// What each task of a graph did in some runs of it.
#[derive(Drop)]
pub struct Table {
    rows: Vec<TableRow>,
    entries: u64,
}

impl Model for Table {
    ghost use Rattle.std.specs.Prelude.{All};
    ghost use Rattle.profile_table.specs.Profiles.{Profile};
    ghost use Rattle.profile_table.specs.inside.Counting.{IsAtMost};

    ghost Value = { Profile };

    ghost view = { λ table. record { rows = table.rows.items; entries = table.entries } };

    ghost invariant = { λ table. All (IsAtMost table.entries) table.rows.items };
}

impl Table {
    /// The table of so many tasks, to which no journal was added.
    pub fn new(alloc: Global, tasks: usize) -> Result<Table, NoMemory>
        ensures { IfOk result (λ table. table ≡ profile_of tasks []) }
    {
        let mut rows = Vec::with_capacity(alloc, tasks)?;
        for _task in 0..tasks {
            rows.push_reserved(TableRow::new());
        }
        Ok(Table { rows, entries: 0 })
    }

    /// Whether a journal can be added: with those that were added before it must have fewer than 2^64 entries.
    pub fn can_add(&self, journal: &[Entry]) -> bool
        ensures { IsTrue result ↔ CanAdd self.now journal.now }
    {
        journal.len() as u64 <= u64::MAX - self.entries
    }

    /// Adds the journal of a run. A Start or a Drop is counted in the row of its task, an End or a Fault in that of
    /// the task whose Start it closes, and an entry of a task without a row in none. It takes no memory.
    pub fn add(&mut self, journal: &[Entry])
        requires { CanAdd self.old journal.now }
        ensures { self.new ≡ after_journal self.old journal.now }
    {
        count_entries(&mut self.rows, journal);
        self.entries += journal.len() as u64;
    }

    /// The row of a task.
    pub fn row(&self, task: u32) -> TableRow
        requires { task < length self.now.rows }
        ensures { slice_get self.now.rows task ≡ Some result }
    {
        self.rows[task as usize]
    }

    /// The rows of all tasks, in the order of their numbers.
    pub(crate) fn rows(&self) -> &[TableRow]
        ensures { result.now ≡ self.now.rows }
    {
        self.rows.as_slice()
    }
}

// Counts the entries of a journal, each in the row of its task.
fn count_entries(rows: &mut Vec<TableRow>, journal: &[Entry])
    requires { All (CanRise (length journal.now)) rows.old.items }
    ensures { Counts journal.now journal.now rows.old.items rows.new.items }
{
    for entry in journal {
        if let Some(task) = entry_task(journal, entry) {
            count_entry(rows, task, entry);
        }
    }
}

// Counts an entry in the row of its task.
fn count_entry(rows: &mut Vec<TableRow>, task: u32, entry: &Entry)
    requires { All (CanRise 1) rows.old.items }
    ensures { CountsOne task entry.now rows.old.items rows.new.items }
{
    if let Some(row) = rows.get_mut(task as usize) {
        row.count(entry);
    }
}
