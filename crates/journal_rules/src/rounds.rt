// How many tokens each edge was given, and how many rounds of them the strong in-edges of a task.
ghost use Rattle.std.specs.Prelude.{◌≡◌, ◌==◌, ◌+◌, ◌<◌, ◌≤◌, ◌^◌, ℕ, List, length, IfOk, All, count_by, slice_index, slice_index_or, slice_set};
ghost use Rattle.task_graph.specs.Net.{strong_in};
ghost use Rattle.journal_rules.specs.Counts.{first_tokens};
ghost use Rattle.journal_rules.specs.inside.Tells.{Tells};
ghost use Rattle.journal_rules.specs.inside.Rounds.{IsRound, GivenOnce, AreRounds};

use super::slots;
use outside_io::NoMemory;
use std::alloc::Global;
use task_graph::Net;

/// What the strong in-edges of a task were given.
#[derive(Clone, Copy)]
pub struct Round {
    /// The least number of tokens that one of them was given, and 0 where there is none.
    pub least: u64,
    /// How many of them were given no more.
    pub at_least: u64,
}

impl Round {
    // The round of these edges, by the tokens that each edge was given.
    fn of(given: &[u64], edges: &[u32]) -> Round
        requires { All (λ e. e < length given.now) edges.now }
        ensures { IsRound given.now edges.now result }
    {
        let least = slots::least_at(given, edges);
        let at_least = slots::count_at(given, edges, least);
        Round { least, at_least }
    }

    // Counts a token of one of these edges, which was given `before` tokens before.
    fn add_token(&mut self, given: &[u64], edges: &[u32], before: u64)
        requires edges { All (λ e. e < length given.now) edges.now }
        requires reached { 1 ≤ self.old.at_least }
        requires room { self.old.least < 2 ^ 63 }
        ensures { (old : List ℕ) (e : ℕ) → IsRound old edges.now self.old
            → GivenOnce old given.now edges.now e before → IsRound given.now edges.now self.new }
    {
        if before == self.least {
            self.at_least -= 1;
            if self.at_least == 0 {
                self.least += 1;
                self.at_least = slots::count_at(given, edges, self.least);
            }
        }
    }
}

/// The tokens given to each edge, and the round of each task's strong in-edges. A token costs constant time;
/// where it completes a round, the task's in-edges are walked once.
#[derive(Drop)]
pub struct Rounds {
    /// By edge, the token with which it begins included.
    pub given: Vec<u64>,
    /// By task.
    pub by_task: Vec<Round>,
}

impl Rounds {
    /// Those of a run that hasn't begun.
    pub fn new(alloc: Global, net: &Net) -> Result<Rounds, NoMemory>
        ensures rounds { IfOk result (AreRounds net.now) }
        ensures given { IfOk result
            (λ rounds. Tells (first_tokens net.now) rounds.given.items (length net.now.edges)) }
    {
        let given = first_given(alloc, net)?;
        let by_task = first_rounds(alloc, net, given.as_slice())?;
        Ok(Rounds { given, by_task })
    }

    /// Counts a token of each of these edges.
    pub fn give(&mut self, net: &Net, edges: &[u32])
        requires edges { All (λ e. e < length net.now.edges) edges.now }
        requires rounds { AreRounds net.now self.old }
        requires room { All (λ n. n + length edges.now < 2 ^ 63) self.old.given.items }
        ensures rounds { AreRounds net.now self.new }
        ensures each { (k d : ℕ) → k < length self.old.given.items
            → slice_index_or self.new.given.items k d
            ≡ slice_index_or self.old.given.items k d + count_by (λ e. e == k) edges.now }
    {
        for edge in edges {
            self.give_one(net, *edge);
        }
    }

    // Counts a token of an edge.
    fn give_one(&mut self, net: &Net, edge: u32)
        requires edge { edge < length net.now.edges }
        requires rounds { AreRounds net.now self.old }
        requires room { All (λ n. n < 2 ^ 63) self.old.given.items }
        ensures rounds { AreRounds net.now self.new }
        ensures given { self.new.given.items
            ≡ slice_set self.old.given.items edge (slice_index self.old.given.items edge + 1) }
    {
        let before = self.given[edge as usize];
        self.given[edge as usize] = before + 1;
        if !net.is_weak(edge) {
            let task = net.edges()[edge as usize].to;
            let edges = net.strong_in(task);
            self.by_task[task as usize].add_token(self.given.as_slice(), edges, before);
        }
    }
}

// The tokens with which the edges begin.
fn first_given(alloc: Global, net: &Net) -> Result<Vec<u64>, NoMemory>
    ensures { IfOk result
        (λ given. Tells (first_tokens net.now) given.items (length net.now.edges)) }
{
    let mut given = Vec::with_capacity(alloc, net.edges().len())?;
    for row in net.edges() {
        given.push(u64::from(row.start))?;
    }
    Ok(given)
}

// The round of each task's strong in-edges.
fn first_rounds(alloc: Global, net: &Net, given: &[u64]) -> Result<Vec<Round>, NoMemory>
    requires { length given.now ≡ length net.now.edges }
    ensures len { IfOk result (λ rounds. length rounds.items ≡ length net.now.tasks) }
    ensures each { IfOk result
        (λ rounds. (t : ℕ) (d : Round) → t < length net.now.tasks
        → IsRound given.now (strong_in net.now t) (slice_index_or rounds.items t d)) }
{
    let tasks = net.tasks().len();
    let mut rounds = Vec::with_capacity(alloc, tasks)?;
    for task in 0..tasks as u32 {
        rounds.push(Round::of(given, net.strong_in(task)))?;
    }
    Ok(rounds)
}
