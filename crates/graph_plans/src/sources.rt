// Graphs in which nothing can begin.
ghost use Rattle.std.specs.Prelude.{◌<◌, ◌^◌, length};
ghost use Rattle.graph_plans.specs.PlanRows.{plan_rows};
ghost use Rattle.graph_plans.specs.Sources.{NoSourceAnswer};

use crate::plans::Plan;
use crate::spots::Spot;
use task_graph::has_no_source;

/// The first graph, the top one first, that has tasks each with an in-edge: `File` for the top graph, or its
/// `Module`.
pub fn no_source(plan: &Plan) -> Option<Spot>
    requires { length plan.now.modules < 2 ^ 32 }
    ensures { NoSourceAnswer (plan_rows plan.now) result }
{
    if has_no_source(&plan.top.net) {
        return Some(Spot::File);
    }
    for (module, graph) in plan.modules.as_slice().iter().enumerate() {
        if has_no_source(&graph.net) {
            return Some(Spot::Module(module as u32));
        }
    }
    None
}
