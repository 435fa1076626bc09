// A depth-first search along strong edges. Its path is a list, so that a long chain of tasks takes no stack.
ghost use Rattle.std.specs.Prelude.{◌≡◌, ℕ, ◌+◌, ◌*◌, ◌<◌, ◌^◌, ◌++◌, ◌∷◌, [], true, false, IfOk, IfNone, IfSome, OnOk, Contains, Some, length, count_by, slice_index, slice_set};
ghost use Rattle.task_graph.specs.Net.{out_edges};
ghost use Rattle.pitfall_check.specs.inside.EndLists.{AreEndsOf, AreListed};
ghost use Rattle.pitfall_check.specs.inside.Steps.{edge_to};
ghost use Rattle.pitfall_check.specs.inside.SearchRules.{IsSearch, IsFullOrder, FindsNext, NoneLeadsToUnseen, OnlySeesMore, is_unseen, leads_to_unseen, progress_of};

use crate::chooses::task_chooses;
use crate::ends_by_task::EndsByTask;
use crate::progress::Progress;
use crate::way::Way;
use outside_io::NoMemory;
use std::alloc::Global;
use task_graph::Net;

/// The tasks in the order in which a depth-first search along strong edges finishes them.
pub fn finish_order(alloc: Global, net: &Net, heads: &EndsByTask) -> Result<Vec<u32>, NoMemory>
    requires { AreListed Way.Ahead net.now heads.now }
    ensures { IfOk result (λ order. IsFullOrder net.now order.items) }
{
    let mut search = Search::new(alloc, net)?;
    for task in 0..net.tasks().len() as u32 {
        search.visit(net, heads, task)?;
    }
    Ok(search.order)
}

// A search under way.
#[derive(Drop)]
struct Search {
    // How far it is with each task.
    states: Vec<Progress>,
    // Of each task how many of its edges were followed.
    cursors: Vec<u32>,
    // The tasks that it went along from a first one and hasn't finished.
    path: Vec<u32>,
    // The tasks that it finished, the first one first.
    order: Vec<u32>,
}

impl Search {
    ghost use Rattle.pitfall_check.specs.inside.SearchState.{HoldsSearch, Opens};

    // A search that has seen no task.
    fn new(alloc: Global, net: &Net) -> Result<Search, NoMemory>
        ensures search { IfOk result (HoldsSearch net.now) }
        ensures path { IfOk result (λ search. search.path.items ≡ []) }
    {
        let count = net.tasks().len();
        let states = vec![in alloc; Progress::Unseen; count]?;
        let cursors = vec![in alloc; 0u32; count]?;
        Ok(Search {
            states,
            cursors,
            path: Vec::new(alloc),
            order: Vec::new(alloc),
        })
    }

    // Goes on from a task until all that was found from it is finished.
    fn visit(&mut self, net: &Net, heads: &EndsByTask, root: u32) -> Result<(), NoMemory>
        requires heads { AreListed Way.Ahead net.now heads.now }
        requires root { root < length net.now.tasks }
        requires search { HoldsSearch net.now self.old }
        requires path { self.old.path.items ≡ [] }
        ensures search { OnOk result (HoldsSearch net.now self.new) }
        ensures path { OnOk result (self.new.path.items ≡ []) }
        ensures seen { OnOk result (is_unseen (progress_of self.new.states.items root) ≡ false) }
        ensures more { OnOk result (OnlySeesMore self.old.states.items self.new.states.items) }
    {
        if !self.states[root as usize].is_unseen() {
            return Ok(());
        }
        self.open(root)?;
        while let Some(task) = self.path.pop() {
            self.step(net, heads, task)?;
        }
        Ok(())
    }

    // Goes on from the last task of the path, which was taken off: to a task that wasn't seen, or back.
    fn step(&mut self, net: &Net, heads: &EndsByTask, task: u32) -> Result<(), NoMemory>
        requires heads { AreListed Way.Ahead net.now heads.now }
        requires search { IsSearch net.now self.old.states.items self.old.cursors.items
            (self.old.path.items ++ task ∷ []) self.old.order.items }
        ensures search { OnOk result (HoldsSearch net.now self.new) }
        ensures more { OnOk result (OnlySeesMore self.old.states.items self.new.states.items) }
        ensures less { OnOk result
            (2 * count_by is_unseen self.new.states.items + length self.new.path.items
            < 2 * count_by is_unseen self.old.states.items + length self.old.path.items + 1) }
    {
        let cursor = self.cursors[task as usize];
        let ends = heads.of(task);
        match next_unseen(net, ends, self.states.as_slice(), task, cursor as usize) {
            Some(place) => {
                self.cursors[task as usize] = place as u32;
                self.path.push(task)?;
                self.open(ends[place])?;
            }
            None => {
                self.states[task as usize] = Progress::Done;
                self.order.push(task)?;
            }
        }
        Ok(())
    }

    // Puts a task at the end of the path.
    fn open(&mut self, task: u32) -> Result<(), NoMemory>
        requires { task < length self.old.states.items }
        ensures { OnOk result (Opens task self.old self.new) }
    {
        self.states[task as usize] = Progress::Open;
        self.path.push(task)?;
        Ok(())
    }
}

// The place of the first edge out of a task, from a place on, that is strong and leads to a task that wasn't seen.
fn next_unseen(
    net: &Net,
    heads: &[u32],
    states: &[Progress],
    task: u32,
    from: usize,
) -> Option<usize>
    requires heads { AreEndsOf Way.Ahead net.now task heads.now }
    requires task { task < length net.now.tasks }
    requires states { length states.now ≡ length net.now.tasks }
    requires passed { NoneLeadsToUnseen net.now states.now task from }
    ensures some { IfSome result (FindsNext net.now states.now task) }
    ensures none { IfNone result
        (NoneLeadsToUnseen net.now states.now task (length (out_edges net.now task))) }
{
    for place in from..heads.len() {
        if leads_to_unseen(net, states, task, heads[place]) {
            return Some(place);
        }
    }
    None
}

// Whether the edges from a task to another are strong, and the other task wasn't seen.
#[tactic(auto, using(crate::proofs::SearchLemmas::leads_to_unseen_by))]
fn leads_to_unseen(net: &Net, states: &[Progress], task: u32, head: u32) -> bool
    requires task { task < length net.now.tasks }
    requires head { head < length net.now.tasks }
    requires states { length states.now ≡ length net.now.tasks }
    ensures { (e : ℕ) → Contains (out_edges net.now task) e → edge_to net.now e ≡ Some head
        → result ≡ leads_to_unseen net.now states.now e }
{
    states[head as usize].is_unseen() && !task_chooses(net, task)
}
