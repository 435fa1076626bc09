// The releases that are left.
ghost use Rattle.std.specs.Prelude.{◌≡◌, ◌<◌, ◌++◌, [], ℕ, List, length, map, IfOk, OnOk, All};
ghost use Rattle.task_graph.specs.Net.{weak_in};
ghost use Rattle.journal_rules.specs.declared.entry.Entry.{Entry};
ghost use Rattle.journal_rules.specs.declared.entry.Cause.TheVariants.{Source, Strong, Weak};
ghost use Rattle.net_machine.specs.Ready.{ready_row, ready_weak, ready_of, ready_list};
ghost use Rattle.journal_rules.specs.TimesLeft.{times_left};
ghost use Rattle.journal_rules.specs.inside.Releases.{CountsReleases, AreFew};

use journal_rules::{Cause, Releases};
use outside_io::{List, NoMemory};
use std::alloc::Global;
use task_graph::Net;

/// A release that isn't used, and how often it can be used.
#[derive(Clone, Copy, Debug, PartialEq, Eq)]
pub struct ReadyRelease {
    pub task: u32,
    pub cause: Cause,
    pub times: u64,
}

/// The releases that are left, by rising task, and of a task as a source, by its strong in-edges, and by its weak
/// in-edges in order.
pub fn ready_list(
    alloc: Global,
    net: &Net,
    releases: &Releases,
) -> Result<List<ReadyRelease>, NoMemory>
    requires few { AreFew net.now releases.now }
    ensures { (journal : List Entry) → CountsReleases net.now journal releases.now
        → IfOk result (λ list. list ≡ ready_list net.now journal) }
{
    let mut list = List::new(alloc);
    for task in 0..net.tasks().len() as u32 {
        add_task(&mut list, net, releases, task)?;
    }
    Ok(list)
}

// Adds what is left of a task.
fn add_task(
    list: &mut List<ReadyRelease>,
    net: &Net,
    releases: &Releases,
    task: u32,
) -> Result<(), NoMemory>
    requires task { task < length net.now.tasks }
    requires few { AreFew net.now releases.now }
    ensures { (journal : List Entry) → CountsReleases net.now journal releases.now
        → OnOk result (list.new ≡ list.old ++ ready_of net.now journal task) }
{
    add_row(list, task, Cause::Source, releases.source_left(net, task))?;
    add_row(list, task, Cause::Strong, releases.rounds_left(net, task))?;
    add_weak(list, net, releases, task, net.weak_in(task))
}

// Adds what is left by these weak edges into a task.
fn add_weak(
    list: &mut List<ReadyRelease>,
    net: &Net,
    releases: &Releases,
    task: u32,
    edges: &[u32],
) -> Result<(), NoMemory>
    requires edges { All (λ e. e < length net.now.edges) edges.now }
    requires few { AreFew net.now releases.now }
    ensures { (journal : List Entry) → CountsReleases net.now journal releases.now
        → OnOk result (list.new ≡ list.old ++ ready_weak net.now journal task edges.now) }
{
    for edge in edges {
        add_row(
            list,
            task,
            Cause::Weak(*edge),
            releases.tokens_left(net, *edge),
        )?;
    }
    Ok(())
}

// Adds a release, unless it can't be used any more.
fn add_row(
    list: &mut List<ReadyRelease>,
    task: u32,
    cause: Cause,
    times: u64,
) -> Result<(), NoMemory>
    ensures { OnOk result (list.new ≡ list.old ++ ready_row task cause times) }
{
    if times > 0 {
        list.push(ReadyRelease { task, cause, times })?;
    }
    Ok(())
}
