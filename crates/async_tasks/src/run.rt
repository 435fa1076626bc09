// Finished runs.
ghost use Rattle.std.specs.Prelude.{◌≡◌};
ghost use Rattle.std.specs.Option.{option_map};
ghost use Rattle.std.specs.Arc.{arc_value};
ghost use Rattle.async_tasks.specs.Books.{value_at};

use crate::history::{AddRow, TaskEvent};
use crate::inputs::value;
use crate::stage::Stage;
use crate::work::AsyncWork;
use outside_io::List;
use std::sync::Arc;

/// What a book came to: its adds, what happened, and of each task its work and its value, both by its number.
#[derive(Drop)]
pub struct AsyncRun<W: AsyncWork> {
    pub adds: List<AddRow>,
    pub events: List<TaskEvent>,
    pub works: List<Arc<W>>,
    pub stages: List<Stage<W::V>>,
}

impl<W: AsyncWork> AsyncRun<W> {
    /// The value of a task, or `None` past the last one.
    pub fn value(&self, task: u32) -> Option<&Arc<W::V>>
        ensures { option_map (λ value. arc_value value.now) result
            ≡ value_at self.now.stages task }
    {
        value(self.stages.as_slice(), task)
    }
}
