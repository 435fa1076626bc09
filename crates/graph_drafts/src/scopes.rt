// The graphs of a file, and the places in them.
ghost use Rattle.std.specs.Prelude.{◌≡◌};
ghost use Rattle.graph_drafts.specs.Fields.{graph_spot, sem_spot, task_spot, u32_of};

use graph_plans::Spot;

/// A graph of a file.
#[derive(Clone, Copy, Drop)]
pub enum Scope {
    /// The graph of the file's own tasks.
    Top,
    /// The graph of the module of this number.
    Module(usize),
}

/// A graph's place.
pub fn graph_spot(scope: Scope) -> Spot
    ensures { result ≡ graph_spot scope }
{
    match scope {
        Scope::Top => Spot::File,
        Scope::Module(module) => Spot::Module(u32_of(module)),
    }
}

/// A semaphore's place.
pub fn sem_spot(scope: Scope, sem: usize) -> Spot
    ensures { result ≡ sem_spot scope sem }
{
    match scope {
        Scope::Top => Spot::Sem(u32_of(sem)),
        Scope::Module(module) => Spot::ModuleSem(u32_of(module), u32_of(sem)),
    }
}

/// A task's place.
pub fn task_spot(scope: Scope, task: usize) -> Spot
    ensures { result ≡ task_spot scope task }
{
    match scope {
        Scope::Top => Spot::Task(u32_of(task)),
        Scope::Module(module) => Spot::ModuleTask(u32_of(module), u32_of(task)),
    }
}

/// A number as a `u32`. One past the greatest `u32` is reported as that one.
pub fn u32_of(number: usize) -> u32
    ensures { result ≡ u32_of number }
{
    u32::try_from(number).unwrap_or(u32::MAX)
}
