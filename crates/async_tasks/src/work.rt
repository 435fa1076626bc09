// Work.
ghost use Rattle.std.specs.Prelude.{List, map, IfOk};
ghost use Rattle.std.specs.Arc.{arc_value};

use outside_io::{List, NoMemory};
use std::alloc::Global;
use std::sync::Arc;

/// A piece of work, which is done once.
pub trait AsyncWork: Send + Sync + Drop {
    ghost use Rattle.std.specs.Prelude as std;

    /// What it comes to.
    type V: Send + Sync + Drop;

    /// The values to which it may come on these inputs.
    ghost answers: { Self → std.List Self.V → Self.V → Type 0 };

    /// Does the work on the values of the tasks after which it runs, in the order in which they were named.
    fn run(&self, alloc: Global, ins: &List<Arc<Self::V>>) -> Result<Self::V, NoMemory>
        ensures { IfOk result (answers self.now (map arc_value ins.now)) };
}
