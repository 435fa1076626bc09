// Whether the edges out of a task are weak.
ghost use Rattle.std.specs.Prelude.{◌≡◌, ◌<◌, length};
ghost use Rattle.task_graph.specs.Net.{task_chooses};

use task_graph::{Net, Shape};

/// Whether a task chooses among its successors, so that each edge out of it is weak.
pub fn task_chooses(net: &Net, task: u32) -> bool
    requires { task < length net.now.tasks }
    ensures { result ≡ task_chooses net.now task }
{
    match net.tasks()[task as usize].shape {
        Shape::Plain | Shape::Nested => false,
        Shape::Choice | Shape::Many => true,
    }
}
