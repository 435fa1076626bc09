// The releases with which a run begins, and the words of its table.
ghost use Rattle.std.specs.Prelude.{◌≡◌, ◌<◌, ◌≤◌, ◌+◌, ◌==◌, ℕ, IfOk, OnOk, All, length, map, flat_map, slice_index, [], ◌++◌, if◌then◌else◌};
ghost use Rattle.task_graph.specs.Net.{strong_in};
ghost use Rattle.journal_rules.specs.Counts.{first_tokens};
ghost use Rattle.table_steps.specs.inside.Opening.{count_without_token, first_duties, first_queue};
ghost use Rattle.join_tables.specs.inside.FirstReleases.{is_full, duties_of, duty_if, opening_word, AreOpeningWords, AreFirstParcels};
ghost use Rattle.table_steps.specs.Giving.{one_if};
ghost use Rattle.table_steps.specs.Values.{given_parts, values_in};
ghost use Rattle.table_steps.specs.inside.Accounts.{tokens_from, marks_from};

use join_words::Given;
use journal_rules::Cause;
use outside_io::NoMemory;
use std::alloc::Global;
use table_steps::{FIRST_CREDIT, FIRST_UNIT, LIVE, Parcels};
use task_graph::Net;

/// A release of a task, by its cause.
#[derive(Clone, Copy)]
pub struct FirstRelease {
    pub task: u32,
    pub cause: Cause,
}

/// The first releases: of each source task, and of each task whose strong in-edges all begin with a token.
pub fn first_releases(alloc: Global, net: &Net) -> Result<Vec<FirstRelease>, NoMemory>
    ensures { IfOk result (λ releases. duties_of releases.items
        ≡ first_duties net.now 0 (length net.now.tasks)) }
{
    let mut releases = Vec::new(alloc);
    for task in 0..net.tasks().len() as u32 {
        add(&mut releases, task, Cause::Source, net.is_source(task))?;
        add(&mut releases, task, Cause::Strong, is_full(net, task))?;
    }
    Ok(releases)
}

// Adds a release if there is one.
fn add(
    releases: &mut Vec<FirstRelease>,
    task: u32,
    cause: Cause,
    is_there: bool,
) -> Result<(), NoMemory>
    ensures { OnOk result (duties_of releases.new.items
        ≡ duties_of releases.old.items ++ duty_if is_there task cause) }
{
    if is_there {
        releases.push(FirstRelease { task, cause })?;
    }
    Ok(())
}

// Whether a task has strong in-edges, and all of them begin with a token.
fn is_full(net: &Net, task: u32) -> bool
    requires { task < length net.now.tasks }
    ensures { result ≡ is_full (strong_in net.now task)
        (count_without_token net.now (strong_in net.now task)) }
{
    !net.strong_in(task).is_empty() && bare_count(net, task) == 0
}

// How many strong in-edges of a task begin without a token.
fn bare_count(net: &Net, task: u32) -> u64
    requires { task < length net.now.tasks }
    ensures { result ≡ count_without_token net.now (strong_in net.now task) }
{
    bare_among(net, net.strong_in(task))
}

// How many of these edges begin without a token.
fn bare_among(net: &Net, edges: &[u32]) -> u64
    requires { All (λ e. e < length net.now.edges) edges.now }
    ensures { result ≡ count_without_token net.now edges.now }
{
    let mut found = 0;
    for edge in edges {
        found += u64::from(!starts_with_token(net, *edge));
    }
    found
}

// Whether an edge begins with a token.
fn starts_with_token(net: &Net, edge: u32) -> bool
    requires { edge < length net.now.edges }
    ensures { first_tokens net.now edge ≡ one_if result }
{
    net.edges()[edge as usize].start
}

// How many semaphores there are, each of which has no more units than its type allows.
fn semaphore_count(sems: &[u32]) -> usize
    ensures count { result ≡ length sems.now }
    ensures fit { (s : ℕ) → slice_index sems.now s ≤ 4294967295 }
{
    sems.len()
}

// Where the marks of slots begin.
fn first_mark(net: &Net) -> usize
    ensures place { result ≡ marks_from net.now }
    ensures few { length net.now.sems < 4294967296 }
{
    FIRST_UNIT + net.sems().len() + net.sems().len()
}

// Where the words of tokens begin.
fn first_edge(net: &Net) -> usize
    ensures { result ≡ tokens_from net.now }
{
    first_mark(net) + net.edges().len()
}

/// The words of a table at first, where this many turns are live.
pub fn opening_words(alloc: Global, net: &Net, live: u64) -> Result<Vec<u64>, NoMemory>
    ensures { IfOk result (λ words. AreOpeningWords net.now live words.items) }
{
    let sems = semaphore_count(net.sems());
    let count = FIRST_UNIT
        + sems
        + sems
        + net.edges().len()
        + net.edges().len()
        + net.tasks().len();
    let mut words = Vec::with_capacity(alloc, count)?;
    for word in 0..count {
        words.push_reserved(first_word(net, live, word));
    }
    Ok(words)
}

// A word at first.
fn first_word(net: &Net, live: u64, word: usize) -> u64
    requires { word < tokens_from net.now + length net.now.edges + length net.now.tasks }
    ensures { result ≡ opening_word net.now live word }
{
    if word < FIRST_UNIT {
        return if word == LIVE { live } else { 0 };
    }
    if word < FIRST_UNIT + net.sems().len() {
        return 0;
    }
    if word < first_mark(net) {
        return FIRST_CREDIT;
    }
    if word < first_edge(net) {
        return 0;
    }
    let place = word - first_edge(net);
    if place < net.edges().len() {
        u64::from(starts_with_token(net, place as u32))
    } else {
        bare_count(net, (place - net.edges().len()) as u32)
    }
}

/// The parcels in the slot of each edge at first: the token with which the edge begins, or none.
pub fn first_parcels<V: Drop>(alloc: Global, net: &Net) -> Result<Vec<Parcels<V>>, NoMemory>
    ensures parts { IfOk result
        (λ parcels. AreFirstParcels net.now (map given_parts parcels.items)) }
    ensures no_values { IfOk result (λ parcels. flat_map values_in parcels.items ≡ []) }
{
    let count = net.edges().len();
    let mut parcels = Vec::with_capacity(alloc, count)?;
    for edge in 0..count {
        parcels.push_reserved(first_parcel(alloc, net, edge as u32));
    }
    Ok(parcels)
}

// The parcels in the slot of an edge at first.
fn first_parcel<V: Drop>(alloc: Global, net: &Net, edge: u32) -> Parcels<V>
    requires { edge < length net.now.edges }
    ensures parts { given_parts result ≡ first_queue net.now edge }
    ensures no_value { values_in result ≡ [] }
{
    if starts_with_token(net, edge) {
        Parcels::one(alloc, Given::First)
    } else {
        Parcels::new(alloc)
    }
}
