// The edges of generated graphs.
ghost use Rattle.std.specs.Prelude.{◌≡◌, ◌≤◌, ◌<◌, ◌+◌, ◌*◌, ◌/◌, ◌++◌, [], ◌∷◌, IfOk, OnOk, map};
ghost use Rattle.graph_plans.specs.PlanEdges.{edge_row};
ghost use Rattle.graph_generator.specs.GeneratedPlan.{edge, generated_edges, last_edges, layer_edges, leads_to, max_layers, second_before, tasks_behind};
ghost use Rattle.graph_generator.specs.inside.Drawn.{drawn};

use crate::generated::LAYER_WIDTH;
use graph_plans::Edge;
use outside_io::{List, NoMemory};
use std::alloc::Global;

/// The edges of so many layers, by their draws.
pub(crate) fn edges_of(alloc: Global, layers: usize, draws: &[u64]) -> Result<List<Edge>, NoMemory>
    requires few { layers ≤ max_layers }
    requires draws { draws.now ≡ drawn layers }
    ensures { IfOk result (λ edges. map edge_row edges ≡ generated_edges layers) }
{
    let mut edges = List::new(alloc);
    for task in 0..LAYER_WIDTH * layers {
        add_layer_edges(&mut edges, task, layers, draws)?;
    }
    add_last_edges(&mut edges, LAYER_WIDTH * layers)?;
    Ok(edges)
}

// The edges out of a task of a layer: into the next one, or, out of the last, into the tally.
fn add_layer_edges(
    edges: &mut List<Edge>,
    task: usize,
    layers: usize,
    draws: &[u64],
) -> Result<(), NoMemory>
    requires few { layers ≤ max_layers }
    requires task { task < 10 * layers }
    requires draws { draws.now ≡ drawn layers }
    ensures { OnOk result (map edge_row edges.new ≡ map edge_row edges.old ++ layer_edges layers task) }
{
    if task / LAYER_WIDTH + 1 == layers {
        push_edge(edges, task, LAYER_WIDTH * layers)
    } else {
        add_edges_behind(edges, task, layers, draws)
    }
}

// The edges out of a task into the next layer. By draw 181 + 2 * t task t has its second predecessor.
fn add_edges_behind(
    edges: &mut List<Edge>,
    task: usize,
    layers: usize,
    draws: &[u64],
) -> Result<(), NoMemory>
    requires few { layers ≤ max_layers }
    requires behind { task / 10 + 1 < layers }
    requires draws { draws.now ≡ drawn layers }
    ensures { OnOk result (map edge_row edges.new
        ≡ map edge_row edges.old ++ map (edge task) (tasks_behind layers task)) }
{
    let next = LAYER_WIDTH * (task / LAYER_WIDTH + 1);
    for to in next..next + LAYER_WIDTH {
        if leads_to(task, to, draws[181 + 2 * to]) {
            push_edge(edges, task, to)?;
        }
    }
    Ok(())
}

// An edge at the end.
fn push_edge(edges: &mut List<Edge>, from: usize, to: usize) -> Result<(), NoMemory>
    ensures { OnOk result (map edge_row edges.new ≡ map edge_row edges.old ++ edge from to ∷ []) }
{
    edges.push(Edge { from, to })?;
    Ok(())
}

// Whether a task hands something to this one of the next layer.
fn leads_to(task: usize, next: usize, drawn: u64) -> bool
    requires few { task < 10 * max_layers }
    requires later { 10 ≤ next }
    ensures { result ≡ leads_to task next drawn }
{
    next == task + LAYER_WIDTH || second_before(next, drawn) == task
}

// Of the layer before a task, the second one that hands it something.
fn second_before(task: usize, drawn: u64) -> usize
    requires later { 10 ≤ task }
    ensures { result ≡ second_before task drawn }
{
    let shift = (drawn % 9) as usize + 1;
    LAYER_WIDTH * (task / LAYER_WIDTH - 1) + (task % LAYER_WIDTH + shift) % LAYER_WIDTH
}

// The edges of the loop and of the pipeline, where the tally has this number.
fn add_last_edges(edges: &mut List<Edge>, sum: usize) -> Result<(), NoMemory>
    requires { sum ≤ 10 * max_layers }
    ensures { OnOk result (map edge_row edges.new ≡ map edge_row edges.old ++ last_edges sum) }
{
    push_edge(edges, sum + 1, sum + 2)?;
    push_edge(edges, sum + 2, sum + 3)?;
    push_edge(edges, sum + 3, sum + 2)?;
    push_edge(edges, sum + 3, sum + 4)?;
    push_edge(edges, sum + 5, sum + 6)
}
