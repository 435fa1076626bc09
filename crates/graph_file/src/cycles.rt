// Modules that run themselves.
ghost use Rattle.std.specs.Prelude.{◌≡◌, ◌<◌, ◌≤◌, ◌++◌, All, IfOk, OnOk, length, map};
ghost use Rattle.graph_plans.specs.ModuleUses.{first_on_cycle};
ghost use Rattle.pitfall_check.specs.Pitfalls.{BeginsWithoutTokens};
ghost use Rattle.task_graph.specs.NetBuilder.{task_limit, with_edge, with_task};
ghost use Rattle.graph_file.specs.inside.UseNets.{AreUses, IsFirstOnCycle, module_row, use_edge, use_net};

use outside_io::{List, NoMemory};
use pitfall_check::{Finding, check};
use std::alloc::Global;
use task_graph::{Net, NetBuilder, Shape};

/// The least module that is on a cycle of uses, where each of the modules runs these. More than 4,000,000 modules or
/// 8,000,000 uses are too many to look at.
pub(crate) fn first_on_cycle(alloc: Global, uses: &[List<usize>]) -> Result<Option<u32>, NoMemory>
    requires { AreUses uses.now }
    ensures { IfOk result (λ found. found ≡ first_on_cycle uses.now) }
{
    let net = use_net(alloc, uses)?;
    first_cycle(alloc, &net)
}

// The first task on a cycle of strong edges.
fn first_cycle(alloc: Global, net: &Net) -> Result<Option<u32>, NoMemory>
    requires { BeginsWithoutTokens net.now }
    ensures { IfOk result (IsFirstOnCycle net.now) }
{
    let findings = check(alloc, net)?;
    let listed = findings.as_slice();
    for finding in listed {
        if let Finding::StrongCycle(task) = finding {
            return Ok(Some(*task));
        }
    }
    Ok(None)
}

// A net with a task for each module and an edge for each use.
fn use_net(alloc: Global, uses: &[List<usize>]) -> Result<Net, NoMemory>
    requires { AreUses uses.now }
    ensures { IfOk result (λ net. net ≡ use_net uses.now) }
{
    let mut builder = NetBuilder::new(alloc);
    for _ in uses {
        add_module(alloc, &mut builder)?;
    }
    for (user, used) in uses.iter().enumerate() {
        add_uses(&mut builder, user, used.as_slice())?;
    }
    Ok(builder.finish())
}

fn add_module(alloc: Global, builder: &mut NetBuilder) -> Result<(), NoMemory>
    ensures net { OnOk result (builder.new ≡ with_task builder.old module_row) }
    ensures room { OnOk result (length builder.old.tasks < task_limit) }
{
    match builder.task(Shape::Plain, List::new(alloc), List::new(alloc)) {
        Ok(_) => Ok(()),
        Err(_) => Err(NoMemory),
    }
}

// Adds an edge for each use by a module.
fn add_uses(builder: &mut NetBuilder, user: usize, used: &[usize]) -> Result<(), NoMemory>
    requires few { length builder.old.tasks ≤ task_limit }
    requires user { user < length builder.old.tasks }
    requires used { All (λ m. m < length builder.old.tasks) used.now }
    ensures { OnOk result (builder.new ≡ record builder.old
        { edges = builder.old.edges ++ map (use_edge user) used.now }) }
{
    for other in used {
        add_use(builder, user, *other)?;
    }
    Ok(())
}

fn add_use(builder: &mut NetBuilder, user: usize, used: usize) -> Result<(), NoMemory>
    requires few { length builder.old.tasks ≤ task_limit }
    requires user { user < length builder.old.tasks }
    requires used { used < length builder.old.tasks }
    ensures { OnOk result (builder.new ≡ with_edge builder.old (use_edge user used)) }
{
    match builder.edge(user as u32, used as u32, false) {
        Ok(_) => Ok(()),
        Err(_) => Err(NoMemory),
    }
}
