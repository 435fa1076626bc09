// How much a file may have.
ghost use Rattle.std.specs.Prelude.{◌≡◌, ◌<◌, ◌+◌, [], not, nat_le, All, IfOk, Ok, length, slice_index_or};
ghost use Rattle.graph_plans.specs.ModuleUses.{first_on_cycle};
ghost use Rattle.graph_plans.specs.PlanRows.{text_count_limit};
ghost use Rattle.graph_file.specs.PlanText.{edge_total, file_counts, file_numbers, file_texts, file_uses, names_of_modules, nests_too_deep, used_by_tasks, within_counts, within_limits};
ghost use Rattle.graph_drafts.specs.Steps.{passed, unless};
ghost use Rattle.graph_file.specs.inside.Counting.{AreCounted, capped};
ghost use Rattle.graph_file.specs.inside.Lookups.{IsIndex};
ghost use Rattle.graph_drafts.specs.inside.Reading.{Reads, file_rows, strings};
ghost use Rattle.graph_file.specs.inside.Reader.{numbers_rows};
ghost use Rattle.graph_file.specs.inside.UseNets.{AreUses};

use crate::cycles::first_on_cycle;
use crate::lookups::Index;
use crate::numbers::{Numbers, TaskNumbers};
use crate::uses::{has_chain, used_by_tasks, uses_of};
use graph_drafts::{Draft, FileDraft, GraphError, Kind};
use outside_io::{Bytes, List, NoMemory};
use std::alloc::Global;

const MAX_FILE_TASKS: usize = 10_000;

const MAX_FILE_EDGES: usize = 100_000;

const MAX_FILE_SEMAPHORES: usize = 256;

const MAX_MODULES: usize = 64;

const MAX_DEPTH: usize = 8;

const MAX_TEXTS: usize = 1_024;

/// The tasks, edges and semaphores of some graphs, counted up to the greatest `usize`.
#[derive(Clone, Copy, Drop)]
struct Counts {
    tasks: usize,
    edges: usize,
    sems: usize,
}

/// That no module is on a cycle of uses, that there isn't too much in the graphs of a file, that modules don't nest too
/// deep, and that there aren't too many texts.
pub(crate) fn check_limits(
    alloc: Global,
    file: &FileDraft<'_>,
    numbers: &Numbers,
    modules: &Index<'_>,
    texts: usize,
) -> Result<(), GraphError>
    requires index { IsIndex modules.now }
    requires modules { strings modules.now.names ≡ names_of_modules (file_rows file.now) }
    requires numbers { file_numbers (file_rows file.now) ≡ Ok (numbers_rows numbers.now) }
    requires texts { texts ≡ length (file_texts (file_rows file.now)) }
    ensures { Reads result (within_limits (file_rows file.now) (numbers_rows numbers.now)) }
{
    check_cycles(alloc, file, modules)?;
    check_counts(file, numbers)?;
    check_depth(alloc, file, modules)?;
    check_texts(texts)
}

// That no module is on a cycle of uses.
fn check_cycles(alloc: Global, file: &FileDraft<'_>, modules: &Index<'_>) -> Result<(), GraphError>
    requires index { IsIndex modules.now }
    requires modules { strings modules.now.names ≡ names_of_modules (file_rows file.now) }
    requires uses { AreUses (file_uses (file_rows file.now)) }
    ensures { Reads result (unless (first_on_cycle (file_uses (file_rows file.now)))
        (λ m. GraphError.ModuleCycle
        (slice_index_or (names_of_modules (file_rows file.now)) m []))) }
{
    let uses = uses_of(alloc, file, modules)?;
    match first_on_cycle(alloc, uses.as_slice())? {
        Some(module) => Err(GraphError::ModuleCycle(module_name(alloc, file, module)?)),
        None => Ok(()),
    }
}

// The name of the module of a number.
fn module_name(alloc: Global, file: &FileDraft<'_>, number: u32) -> Result<Bytes, NoMemory>
    ensures { IfOk result
        (λ name. name ≡ slice_index_or (names_of_modules (file_rows file.now)) number []) }
{
    match file.modules.get(number as usize) {
        Some(draft) => List::from_slice(alloc, draft.name.as_bytes()),
        None => Ok(List::new(alloc)),
    }
}

// That no chain of uses that begins in the top graph is too long.
fn check_depth(alloc: Global, file: &FileDraft<'_>, modules: &Index<'_>) -> Result<(), GraphError>
    requires index { IsIndex modules.now }
    requires modules { strings modules.now.names ≡ names_of_modules (file_rows file.now) }
    requires uses { AreUses (file_uses (file_rows file.now)) }
    requires used { All (λ m. m < length (file_uses (file_rows file.now)))
        (used_by_tasks (names_of_modules (file_rows file.now)) (file_rows file.now).top.tasks) }
    ensures { Reads result (passed (not (nests_too_deep (file_rows file.now)))
        (GraphError.TooMany Kind.Depth)) }
{
    let uses = uses_of(alloc, file, modules)?;
    let used = used_by_tasks(alloc, file.top.tasks.as_slice(), modules)?;
    if has_chain(alloc, MAX_DEPTH, uses.as_slice(), used.as_slice())? {
        return Err(GraphError::TooMany(Kind::Depth));
    }
    Ok(())
}

fn check_texts(texts: usize) -> Result<(), GraphError>
    ensures { Reads result
        (passed (nat_le texts text_count_limit) (GraphError.TooMany Kind.Texts)) }
{
    if texts > MAX_TEXTS {
        return Err(GraphError::TooMany(Kind::Texts));
    }
    Ok(())
}

// That the graphs of a file don't have too many tasks, edges and semaphores, and that there aren't too many modules.
fn check_counts(file: &FileDraft<'_>, numbers: &Numbers) -> Result<(), GraphError>
    requires { length numbers.now.modules.items ≡ length file.now.modules.items }
    ensures { Reads result (within_counts (file_rows file.now) (numbers_rows numbers.now)) }
{
    let counts = counts_of(file, numbers);
    if counts.tasks > MAX_FILE_TASKS {
        return Err(GraphError::TooMany(Kind::Tasks));
    }
    if counts.edges > MAX_FILE_EDGES {
        return Err(GraphError::TooMany(Kind::Edges));
    }
    if counts.sems > MAX_FILE_SEMAPHORES {
        return Err(GraphError::TooMany(Kind::Semaphores));
    }
    if file.modules.len() > MAX_MODULES {
        return Err(GraphError::TooMany(Kind::Modules));
    }
    Ok(())
}

fn counts_of(file: &FileDraft<'_>, numbers: &Numbers) -> Counts
    requires { length numbers.now.modules.items ≡ length file.now.modules.items }
    ensures { AreCounted (file_counts (file_rows file.now) (numbers_rows numbers.now)) result }
{
    let mut counts = Counts {
        tasks: 0,
        edges: 0,
        sems: 0,
    };
    count_graph(&file.top, numbers.top.as_slice(), &mut counts);
    for (place, draft) in file.modules.iter().enumerate() {
        count_graph(draft, numbers.modules[place].as_slice(), &mut counts);
    }
    counts
}

// Counts a graph more.
fn count_graph(draft: &Draft<'_>, numbers: &[TaskNumbers], counts: &mut Counts)
    ensures tasks { counts.new.tasks ≡ capped (counts.old.tasks + length draft.now.tasks.items) }
    ensures edges { counts.new.edges ≡ capped (counts.old.edges + edge_total numbers.now) }
    ensures sems { counts.new.sems ≡ capped (counts.old.sems + length draft.now.sems) }
{
    counts.tasks = counts.tasks.saturating_add(draft.tasks.len());
    counts.edges = counts.edges.saturating_add(edges_of(numbers));
    counts.sems = counts.sems.saturating_add(draft.sems.len());
}

// How many edges leave these tasks.
fn edges_of(numbers: &[TaskNumbers]) -> usize
    ensures { result ≡ capped (edge_total numbers.now) }
{
    let mut edges = 0usize;
    for task in numbers {
        edges = edges.saturating_add(task.to.len());
    }
    edges
}
