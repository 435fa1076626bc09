// Whether a task is ready, and the values of the tasks that it names.
ghost use Rattle.std.specs.Prelude.{◌≡◌, ◌↔◌, ◌<◌, ◌^◌, ◌++◌, ◌∷◌, [], ℕ, true, false, length, IfNone, IfSome, List, map, IfOk, IsTrue, is_some};
ghost use Rattle.std.specs.Option.{option_map};
ghost use Rattle.std.specs.Arc.{arc_value};
ghost use Rattle.std.specs.List.{list_all};
ghost use Rattle.async_tasks.specs.Books.{value_at};
ghost use Rattle.async_tasks.specs.Histories.{found};
ghost use Rattle.async_tasks.specs.inside.Ready.{IsReady, is_over};

use crate::history::AddRow;
use crate::stage::Stage;
use outside_io::{List, NoMemory};
use std::alloc::Global;
use std::sync::Arc;

/// Whether a task has a row, isn't started, and each task that it names is over.
pub fn is_ready<V>(rows: &[AddRow], stages: &[Stage<V>], task: u32) -> bool
    ensures { IsTrue result ↔ IsReady rows.now stages.now task }
{
    let Some(Stage::Waiting) = stages.get(task as usize) else {
        return false;
    };
    match rows.get(task as usize) {
        Some(row) => are_over(stages, row.after.as_slice()),
        None => false,
    }
}

// Whether each of these tasks is over.
fn are_over<V>(stages: &[Stage<V>], tasks: &[u32]) -> bool
    ensures { result ≡ list_all (is_over stages.now) tasks.now }
{
    tasks.iter().all(|task| is_over(stages, *task))
}

fn is_over<V>(stages: &[Stage<V>], task: u32) -> bool
    ensures { result ≡ is_over stages.now task }
{
    value(stages, task).is_some()
}

/// The value of a task that is over.
pub fn value<V>(stages: &[Stage<V>], task: u32) -> Option<&Arc<V>>
    ensures { option_map (λ value. arc_value value.now) result ≡ value_at stages.now task }
{
    match stages.get(task as usize) {
        Some(Stage::Over(value)) => Some(value),
        Some(Stage::Waiting) => None,
        Some(Stage::Open) => None,
        None => None,
    }
}

/// The first task that is not over, or `None` where each is.
pub fn first_open<V>(stages: &[Stage<V>]) -> Option<u32>
    requires few { length stages.now < 2 ^ 32 }
    ensures none { IfNone result ((t : ℕ) → t < length stages.now
        → is_over stages.now t ≡ true) }
    ensures some { IfSome result (λ t. (t < length stages.now)
        × (is_over stages.now t ≡ false)) }
{
    for task in 0..stages.len() as u32 {
        if !is_over(stages, task) {
            return Some(task);
        }
    }
    None
}

/// The values of these tasks, in the order in which they are named.
pub fn inputs<V: Drop>(
    alloc: Global,
    stages: &[Stage<V>],
    tasks: &[u32],
) -> Result<List<Arc<V>>, NoMemory>
    ensures { IfOk result (λ ins. map arc_value ins ≡ found (value_at stages.now) tasks.now) }
{
    let mut ins = List::with_room(alloc, tasks.len())?;
    for task in tasks {
        add_input(&mut ins, stages, *task)?;
    }
    Ok(ins)
}

// Adds the value of a task, if it is over.
fn add_input<V: Drop>(
    ins: &mut List<Arc<V>>,
    stages: &[Stage<V>],
    task: u32,
) -> Result<(), NoMemory>
    ensures { IfOk result (λ _. map arc_value ins.new ≡ map arc_value ins.old ++ found (value_at stages.now) (task ∷ [])) }
{
    if let Some(value) = value(stages, task) {
        ins.push(Arc::try_clone(value)?)?;
    }
    Ok(())
}
