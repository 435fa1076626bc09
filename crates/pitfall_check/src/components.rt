// The strongly connected components of the strong edges, and the tasks on cycles of them.
ghost use Rattle.std.specs.Prelude.{◌≡◌, ℕ, List, ◌+◌, ◌∷◌, ◌++◌, [], ◌<◌, ◌≤◌, ◌↔◌, IfOk, IsTrue, OnOk, All, Contains, Some, length, reverse};
ghost use Rattle.pitfall_check.specs.inside.Components.{AreComponents, AreComponentsUpTo, StaysInComponent};
ghost use Rattle.pitfall_check.specs.inside.SearchRules.{IsFinishOrder};
ghost use Rattle.pitfall_check.specs.inside.EndLists.{AreListed};
ghost use Rattle.pitfall_check.specs.inside.Steps.{edge_to};
ghost use Rattle.pitfall_check.specs.Walks.{IsOnStrongCycle};
ghost use Rattle.task_graph.specs.Net.{out_edges};

use crate::chooses::task_chooses;
use crate::ends_by_task::EndsByTask;
use crate::search::finish_order;
use crate::spread::spread;
use crate::way::Way;
use outside_io::NoMemory;
use std::alloc::Global;
use task_graph::Net;

/// A component for each task, the same for those that reach each other along strong edges. No strong edge leads to a
/// lower component.
pub fn number_components(alloc: Global, net: &Net, heads: &EndsByTask) -> Result<Vec<u32>, NoMemory>
    requires { AreListed Way.Ahead net.now heads.now }
    ensures { IfOk result (λ components. AreComponents net.now components.items) }
{
    let mut left = finish_order(alloc, net, heads)?;
    let tails = EndsByTask::new(alloc, net, Way::StrongBack)?;
    let mut components = vec![in alloc; 0u32; net.tasks().len()]?;
    let mut queue = Vec::new(alloc);
    let mut component = 0;
    while let Some(root) = left.pop() {
        component += 1;
        number_component(net, &tails, root, component, &mut components, &mut queue)?;
    }
    Ok(components)
}

// Numbers the tasks without a component that reach the root along strong edges.
fn number_component(
    net: &Net,
    tails: &EndsByTask,
    root: u32,
    component: u32,
    components: &mut [u32],
    queue: &mut Vec<u32>,
) -> Result<(), NoMemory>
    requires tails { AreListed Way.StrongBack net.now tails.now }
    requires root { root < length net.now.tasks }
    requires size { length components.old ≡ length net.now.tasks }
    requires component { 0 < component }
    ensures { OnOk result ((before : ℕ) (left : List ℕ) → component ≡ before + 1
        → IsFinishOrder net.now (reverse (left ++ root ∷ []))
        → AreComponentsUpTo net.now components.old before (left ++ root ∷ [])
        → AreComponentsUpTo net.now components.new component left) }
{
    if components[root as usize] != 0 {
        return Ok(());
    }
    spread(
        net,
        Way::StrongBack,
        tails,
        root,
        component,
        components,
        queue,
    )?;
    Ok(())
}

/// Whether a task is on a cycle of strong edges, by the components.
pub fn is_on_cycle(net: &Net, heads: &EndsByTask, components: &[u32], task: u32) -> bool
    requires heads { AreListed Way.Ahead net.now heads.now }
    requires task { task < length net.now.tasks }
    requires components { AreComponents net.now components.now }
    ensures { IsTrue result ↔ IsOnStrongCycle net.now task }
{
    for head in heads.of(task) {
        if stays_in_component(net, components, task, *head) {
            return true;
        }
    }
    false
}

// Whether the edges from a task to another are strong, and the other task is of its component.
fn stays_in_component(net: &Net, components: &[u32], task: u32, head: u32) -> bool
    requires task { task < length net.now.tasks }
    requires head { head < length net.now.tasks }
    requires size { length components.now ≡ length net.now.tasks }
    ensures { (e : ℕ) → Contains (out_edges net.now task) e → edge_to net.now e ≡ Some head
        → IsTrue result ↔ StaysInComponent net.now components.now task e }
{
    components[head as usize] == components[task as usize] && !task_chooses(net, task)
}
