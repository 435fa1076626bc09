// The edges that the answer of a choosing task signals.
ghost use Rattle.std.specs.Prelude.{◌≡◌, ◌<◌, ◌∷◌, [], ◌++◌, length, slice_index, IfOk, List, MatchOption, None, OnOk, Some, ℤ};
ghost use Rattle.std.specs.List.Sorted.{IsStrictlyIncreasing};
ghost use Rattle.task_graph.specs.Chosen.{chosen_edges, edge_at};
ghost use Rattle.task_graph.specs.inside.Choices.{HasChosen};

use outside_io::{List, NoMemory};
use std::alloc::Global;

/// The edges of `out` at the indices that are in range, each where it is first named. It takes time in
/// proportion to both lists.
pub(crate) fn choose(alloc: Global, out: &[u32], answer: &[i64]) -> Result<List<u32>, NoMemory>
    requires rising { IsStrictlyIncreasing out.now }
    ensures { IfOk result (λ edges. edges ≡ chosen_edges out.now answer.now) }
{
    let mut marks = vec![in alloc; false; out.len()]?;
    let seen = marks.as_mut_slice();
    let mut chosen = List::new(alloc);
    for index in answer {
        choose_at(out, index, seen, &mut chosen)?;
    }
    Ok(chosen)
}

// Adds the edge at an index, where there is one and it wasn't chosen before.
fn choose_at(
    out: &[u32],
    index: &i64,
    seen: &mut [bool],
    chosen: &mut List<u32>,
) -> Result<(), NoMemory>
    requires rising { IsStrictlyIncreasing out.now }
    requires seen { length seen.old ≡ length out.now }
    ensures { OnOk result ((answer : List ℤ) → HasChosen out.now answer seen.old chosen.old
        → HasChosen out.now (answer ++ index.now ∷ []) seen.new chosen.new) }
{
    match place_in_range(out, index) {
        None => Ok(()),
        Some(place) => choose_edge(out, place, seen, chosen),
    }
}

// The place in `out` that an index names, if it names one.
fn place_in_range(out: &[u32], index: &i64) -> Option<usize>
    ensures { MatchOption result (edge_at out.now index.now ≡ None)
        (λ place. (place < length out.now)
        × (edge_at out.now index.now ≡ Some (slice_index out.now place))) }
{
    match usize::try_from(*index) {
        Ok(place) if place < out.len() => Some(place),
        _ => None,
    }
}

// Adds the edge at a place, unless it was chosen before.
fn choose_edge(
    out: &[u32],
    place: usize,
    seen: &mut [bool],
    chosen: &mut List<u32>,
) -> Result<(), NoMemory>
    requires rising { IsStrictlyIncreasing out.now }
    requires seen { length seen.old ≡ length out.now }
    requires place { place < length out.now }
    ensures { OnOk result
        ((answer : List ℤ) (index : ℤ) → edge_at out.now index ≡ Some (slice_index out.now place)
        → HasChosen out.now answer seen.old chosen.old
        → HasChosen out.now (answer ++ index ∷ []) seen.new chosen.new) }
{
    if seen[place] {
        return Ok(());
    }
    chosen.push(out[place])?;
    seen[place] = true;
    Ok(())
}
