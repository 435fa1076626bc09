// What the tasks of a run ended with.
ghost use Rattle.std.specs.Prelude.{◌≡◌, IfOk};
ghost use Rattle.std.specs.Option.{option_copied};

use journal_rules::Journal;
use outside_io::NoMemory;
use run_frame::{ValueRow, last_ends, values_by_place};
use std::alloc::Global;
use std::sync::Arc;

// Where the last End of each task of a run is, and the value of the End at each place of its journal.
#[derive(Drop)]
pub(crate) struct ChunkValues<V> {
    pub(crate) ends: Vec<Option<u64>>,
    pub(crate) values: Vec<Option<Arc<V>>>,
}

impl<V: Drop> ChunkValues<V> {
    ghost use Rattle.grain_tasks.specs.inside.Gathering.{AreLastValues, value_held};

    // Those of so many tasks of a run. It walks over the journal once and over the values once.
    #[tactic(auto, using(crate::proofs::GatherLemmas::values_held))]
    pub(crate) fn of(
        alloc: Global,
        journal: &Journal,
        rows: &[ValueRow<V>],
        tasks: usize,
    ) -> Result<ChunkValues<V>, NoMemory>
        ensures { IfOk result (AreLastValues journal.now rows.now tasks) }
    {
        let ends = last_ends(alloc, journal, tasks)?;
        let values = values_by_place(alloc, rows, journal.len())?;
        Ok(ChunkValues { ends, values })
    }

    // The value of a task's last End.
    pub(crate) fn get(&self, task: usize) -> Option<&V>
        ensures { option_copied result ≡ value_held self.now task }
    {
        let place = (*self.ends.get(task)?)?;
        match self.values.get(place as usize)? {
            Some(value) => Some(value),
            None => None,
        }
    }
}
