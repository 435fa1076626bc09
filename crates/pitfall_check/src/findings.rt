// The check: the findings of a net, kind by kind.
ghost use Rattle.std.specs.Prelude.{◌≡◌, ◌*◌, ◌^◌, ◌++◌, ◌∷◌, [], if◌then◌else◌, IfOk, OnOk};
ghost use Rattle.pitfall_check.specs.Pitfalls.{BeginsWithoutTokens};
ghost use Rattle.pitfall_check.specs.Findings.{AreFindings};
ghost use Rattle.pitfall_check.specs.inside.PartialFindings.{AreFindingsBelow};
ghost use Rattle.pitfall_check.specs.inside.EndLists.{AreListed};

use crate::components::{is_on_cycle, number_components};
use crate::conditions::{has_many_conditions, is_mixed};
use crate::ends_by_task::EndsByTask;
use crate::finding::Finding;
use crate::reach::mark_reached;
use crate::way::Way;
use outside_io::{List, NoMemory};
use std::alloc::Global;
use task_graph::{Net, has_no_source};

/// The findings of a net, by kinds in the order of `Finding`, and those of a kind by rising task.
pub fn check(alloc: Global, net: &Net) -> Result<List<Finding>, NoMemory>
    requires { BeginsWithoutTokens net.now }
    ensures { IfOk result (AreFindings net.now) }
{
    let mut findings = List::new(alloc);
    add_no_source(net, &mut findings)?;
    add_mixed(net, &mut findings)?;
    add_many_conditions(net, &mut findings)?;
    let heads = EndsByTask::new(alloc, net, Way::Ahead)?;
    add_strong_cycles(alloc, net, &heads, &mut findings)?;
    add_never_reached(alloc, net, &heads, &mut findings)?;
    Ok(findings)
}

// Puts a finding at the end where it is one.
fn add_where(holds: bool, finding: Finding, findings: &mut List<Finding>) -> Result<(), NoMemory>
    ensures { OnOk result
        (findings.new ≡ (if holds then findings.old ++ finding ∷ [] else findings.old)) }
{
    if holds {
        findings.push(finding)?;
    }
    Ok(())
}

// Adds what there is about a source.
fn add_no_source(net: &Net, findings: &mut List<Finding>) -> Result<(), NoMemory>
    requires { AreFindingsBelow net.now 0 findings.old }
    ensures { OnOk result (AreFindingsBelow net.now (2 ^ 32) findings.new) }
{
    add_where(has_no_source(net), Finding::NoSource, findings)
}

// Adds the tasks with strong and weak in-edges.
fn add_mixed(net: &Net, findings: &mut List<Finding>) -> Result<(), NoMemory>
    requires { AreFindingsBelow net.now (2 ^ 32) findings.old }
    ensures { OnOk result (AreFindingsBelow net.now (2 * 2 ^ 32) findings.new) }
{
    for task in 0..net.tasks().len() as u32 {
        add_where(is_mixed(net, task), Finding::Mixed(task), findings)?;
    }
    Ok(())
}

// Adds the tasks with weak in-edges from different tasks.
fn add_many_conditions(net: &Net, findings: &mut List<Finding>) -> Result<(), NoMemory>
    requires { AreFindingsBelow net.now (2 * 2 ^ 32) findings.old }
    ensures { OnOk result (AreFindingsBelow net.now (3 * 2 ^ 32) findings.new) }
{
    for task in 0..net.tasks().len() as u32 {
        add_where(
            has_many_conditions(net, task),
            Finding::ManyConditions(task),
            findings,
        )?;
    }
    Ok(())
}

// Adds the tasks on cycles of strong edges.
fn add_strong_cycles(
    alloc: Global,
    net: &Net,
    heads: &EndsByTask,
    findings: &mut List<Finding>,
) -> Result<(), NoMemory>
    requires heads { AreListed Way.Ahead net.now heads.now }
    requires findings { AreFindingsBelow net.now (3 * 2 ^ 32) findings.old }
    ensures { OnOk result (AreFindingsBelow net.now (4 * 2 ^ 32) findings.new) }
{
    let components = number_components(alloc, net, heads)?;
    for task in 0..net.tasks().len() as u32 {
        let holds = is_on_cycle(net, heads, components.as_slice(), task);
        add_where(holds, Finding::StrongCycle(task), findings)?;
    }
    Ok(())
}

// Adds the tasks that no walk from a source reaches, which are the last findings.
fn add_never_reached(
    alloc: Global,
    net: &Net,
    heads: &EndsByTask,
    findings: &mut List<Finding>,
) -> Result<(), NoMemory>
    requires heads { AreListed Way.Ahead net.now heads.now }
    requires findings { AreFindingsBelow net.now (4 * 2 ^ 32) findings.old }
    ensures { OnOk result (AreFindings net.now findings.new) }
{
    let marks = mark_reached(alloc, net, heads)?;
    for task in 0..net.tasks().len() as u32 {
        let holds = marks[task as usize] == 0;
        add_where(holds, Finding::NeverReached(task), findings)?;
    }
    Ok(())
}
