// Generated graphs.
ghost use Rattle.std.specs.Prelude.{◌≡◌, ◌≤◌, IfOk};
ghost use Rattle.graph_plans.specs.PlanRows.{IsPlan, graph_rows, plan_rows};
ghost use Rattle.graph_generator.specs.inside.Drawn.{drawn};
ghost use Rattle.graph_generator.specs.GeneratedPlan.{generated_graph, generated_plan, max_layers};
ghost use Rattle.graph_generator.specs.GeneratedText.{generated_text};

use crate::draws::draws_from;
use crate::edges::edges_of;
use crate::names::names_of;
use crate::nets::net_of;
use crate::ops::ops_of;
use crate::text::text_of;
use graph_plans::{Graph, Plan};
use outside_io::{Bytes, List, NoMemory};
use std::alloc::Global;
use std::sync::Arc;

/// How many layers a generated graph may have.
pub const MAX_LAYERS: u64 = 900;

// How many lines the text has.
const LINES: usize = 200;

// How many tasks a layer has.
pub(crate) const LAYER_WIDTH: usize = 10;

/// A plan, and the text that it names.
#[derive(Drop)]
pub struct Generated {
    pub plan: Plan,
    pub text: Bytes,
}

/// The plan of so many layers, with its text. The same number gives the same plan and text.
pub fn generate(alloc: Global, layers: u64) -> Result<Generated, NoMemory>
    requires some { 1 ≤ layers }
    requires few { layers ≤ max_layers }
    ensures plan { IfOk result (λ generated. plan_rows generated.plan ≡ generated_plan layers) }
    ensures rules { IfOk result (λ generated. IsPlan (plan_rows generated.plan)) }
    ensures text { IfOk result (λ generated. generated.text ≡ generated_text layers) }
{
    let draws = draws_from(alloc, layers, 180 + 20 * layers as usize)?;
    let top = top_graph(alloc, layers as usize, draws.as_slice())?;
    let mut texts = List::new(alloc);
    texts.push(List::from_slice(alloc, b"gen.txt")?)?;
    Ok(Generated {
        plan: Plan {
            top,
            modules: List::new(alloc),
            texts,
        },
        text: text_of(alloc, layers, LINES)?,
    })
}

// The graph of so many layers, by their draws.
fn top_graph(alloc: Global, layers: usize, draws: &[u64]) -> Result<Graph, NoMemory>
    requires few { layers ≤ max_layers }
    requires draws { draws.now ≡ drawn layers }
    ensures { IfOk result (λ graph. graph_rows graph ≡ generated_graph layers) }
{
    let ops = ops_of(alloc, layers, draws)?;
    let edges = edges_of(alloc, layers, draws)?;
    let net = net_of(alloc, ops.as_slice(), edges.as_slice())?;
    Ok(Graph {
        name: List::new(alloc),
        names: names_of(alloc, layers)?,
        ops,
        sem_names: List::new(alloc),
        net: Arc::new(alloc, net)?,
    })
}
