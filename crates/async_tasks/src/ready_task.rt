// Tasks on the list of ready tasks.
ghost use Rattle.std.specs.Prelude.{[]};

use ready_deques::Tagged;

/// A task that may be ready. A number that isn't that of a ready task does no harm: no start comes of it.
#[derive(Drop)]
pub struct ReadyTask {
    pub task: u32,
}

impl Tagged for ReadyTask {
    ghost tag = { λ _. [] };
}
