// Places in a graph file.

/// A place in a graph file. Tasks, semaphores and modules are numbered from 0 in their lists.
#[derive(Clone, Copy, Debug, PartialEq, Eq)]
pub enum Spot {
    /// The file as a whole.
    File,
    /// The semaphore of this number.
    Sem(u32),
    /// The task of this number.
    Task(u32),
    /// The module of this number.
    Module(u32),
    /// The module, and the semaphore in it.
    ModuleSem(u32, u32),
    /// The module, and the task in it.
    ModuleTask(u32, u32),
}
