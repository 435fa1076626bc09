// The modules that tasks run, and how deep they nest.
ghost use Rattle.std.specs.Prelude.{◌≡◌, ◌<◌, ◌+◌, ◌++◌, [], false, All, IfOk, OnOk, length, map, slice_index_or};
ghost use Rattle.std.specs.List.{list_any};
ghost use Rattle.graph_plans.specs.ModuleUses.{has_chain};
ghost use Rattle.graph_file.specs.PlanText.{file_uses, names_of_modules, used_before, used_by_tasks};
ghost use Rattle.graph_file.specs.inside.Lookups.{IsIndex};
ghost use Rattle.graph_drafts.specs.inside.Reading.{file_op_row, file_rows, strings, task_text};
ghost use Rattle.graph_file.specs.inside.UseNets.{AreUses};

use crate::lookups::{Index, number_among};
use graph_drafts::{FileDraft, FileOp, FileTask};
use outside_io::{List, NoMemory};
use std::alloc::Global;

/// The modules that the tasks of each module of a file run.
pub(crate) fn uses_of(
    alloc: Global,
    file: &FileDraft<'_>,
    modules: &Index<'_>,
) -> Result<List<List<usize>>, NoMemory>
    requires index { IsIndex modules.now }
    requires modules { strings modules.now.names ≡ names_of_modules (file_rows file.now) }
    ensures { IfOk result (λ uses. uses ≡ file_uses (file_rows file.now)) }
{
    let drafts = file.modules.as_slice();
    let mut uses = List::with_room(alloc, drafts.len())?;
    for draft in drafts {
        uses.push(used_by_tasks(alloc, draft.tasks.as_slice(), modules)?)?;
    }
    Ok(uses)
}

/// The modules that tasks run.
pub(crate) fn used_by_tasks(
    alloc: Global,
    tasks: &[FileTask<'_>],
    modules: &Index<'_>,
) -> Result<List<usize>, NoMemory>
    requires { IsIndex modules.now }
    ensures { IfOk result (λ used. used
        ≡ used_by_tasks (strings modules.now.names) (map task_text tasks.now)) }
{
    let mut used = List::new(alloc);
    for task in tasks {
        add_used(&task.op, modules, &mut used)?;
    }
    Ok(used)
}

// Puts the module that an operation runs at the end.
fn add_used(op: &FileOp<'_>, modules: &Index<'_>, used: &mut List<usize>) -> Result<(), NoMemory>
    requires { IsIndex modules.now }
    ensures { OnOk result (used.new ≡ used.old
        ++ used_before (strings modules.now.names) [] (file_op_row op.now)) }
{
    match op {
        FileOp::Runs(name) => {
            used.push(number_among(modules, name))?;
            Ok(())
        }
        FileOp::Reads(_) | FileOp::Does(_) => Ok(()),
    }
}

/// Whether a chain of so many modules and one more begins with one of these.
pub(crate) fn has_chain(
    alloc: Global,
    more: usize,
    uses: &[List<usize>],
    used: &[usize],
) -> Result<bool, NoMemory>
    requires uses { AreUses uses.now }
    requires used { All (λ m. m < length uses.now) used.now }
    ensures { IfOk result (λ has. has ≡ has_chain (more + 1) uses.now used.now) }
{
    let mut begins = begin_chains(alloc, uses)?;
    for _ in 0..more {
        begins = longer_chains(alloc, uses, begins.as_slice())?;
    }
    Ok(any_begins(begins.as_slice(), used))
}

// With each module a chain of one begins.
fn begin_chains(alloc: Global, uses: &[List<usize>]) -> Result<List<bool>, NoMemory>
    ensures { IfOk result (λ begins. begins ≡ map (has_chain 0 uses.now) uses.now) }
{
    let mut begins = List::with_room(alloc, uses.len())?;
    for _ in uses {
        begins.push(true)?;
    }
    Ok(begins)
}

// Whether a chain of one module more begins with each module.
fn longer_chains(
    alloc: Global,
    uses: &[List<usize>],
    begins: &[bool],
) -> Result<List<bool>, NoMemory>
    requires uses { AreUses uses.now }
    requires begins { length begins.now ≡ length uses.now }
    ensures { IfOk result (λ longer. longer ≡ map (list_any (λ m. slice_index_or begins.now m false)) uses.now) }
{
    let mut longer = List::with_room(alloc, uses.len())?;
    for used in uses {
        longer.push(any_begins(begins, used.as_slice()))?;
    }
    Ok(longer)
}

// Whether one of these modules is marked.
fn any_begins(begins: &[bool], used: &[usize]) -> bool
    requires { All (λ m. m < length begins.now) used.now }
    ensures { result ≡ list_any (λ m. slice_index_or begins.now m false) used.now }
{
    used.iter().any(|module| begins[*module])
}
