// The graphs of a file as it has them, before their names are looked up.
use crate::file_op::FileOp;
use crate::scopes::Scope;
use outside_io::List;

/// A task's name, and the names that it has of others: of the tasks to which its edges lead, and of the semaphores that
/// it takes and puts.
#[derive(Drop)]
pub struct NamedTask<'v> {
    pub name: &'v str,
    pub to: List<&'v str>,
    pub takes: List<&'v str>,
    pub puts: List<&'v str>,
}

/// A task as a file has it.
#[derive(Drop)]
pub struct FileTask<'v> {
    pub names: NamedTask<'v>,
    pub op: FileOp<'v>,
}

/// A graph of a file of this version: its name, which the top graph doesn't have, its semaphores' names and maxima, and
/// its tasks in file order.
#[derive(Drop)]
pub struct Draft<'v> {
    pub scope: Scope,
    pub version: u64,
    pub name: &'v str,
    pub sem_names: List<&'v str>,
    pub sems: List<u32>,
    pub tasks: Vec<FileTask<'v>>,
}

/// The graphs of a file.
#[derive(Drop)]
pub struct FileDraft<'v> {
    pub top: Draft<'v>,
    pub modules: Vec<Draft<'v>>,
}
