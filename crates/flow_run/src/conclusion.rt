// What a command comes to besides runs.

use legal_run::Verdict;
use outside_io::{Bytes, List};
use pitfall_check::Finding;
use profile_table::Table;

/// What a command comes to besides runs.
#[derive(Drop)]
pub enum Conclusion {
    /// What the tasks of a graph did in the rounds that are kept.
    Profile(GraphProfile),
    /// The judge's verdict on a journal.
    Verdict(Verdict),
    /// What the check of a graph file found: on its top graph, and then on each module.
    Findings(List<GraphFindings>),
    /// A graph file of the newest version, with the same plan as the one that was read.
    GraphFile(Bytes),
    /// In how many lines of a text a word occurs.
    WordLines(u64),
}

/// How a graph can go wrong.
#[derive(Drop)]
pub struct GraphFindings {
    /// The name of the module, and empty for the top graph.
    pub name: Bytes,
    /// The names of the graph's tasks, by their numbers.
    pub names: List<Bytes>,
    /// What was found, by kinds and within a kind by rising task.
    pub findings: List<Finding>,
}

/// What the tasks of a graph did in some rounds.
#[derive(Drop)]
pub struct GraphProfile {
    /// The names of the graph's tasks, by their numbers.
    pub names: List<Bytes>,
    /// What each of them did, by their numbers.
    pub table: Table,
    /// How many spans the runs have, with those of the runs inside them, or the greatest `u64` where they are more.
    pub spans: u64,
    /// The line that says why the last round was cut short. It is empty where that ended fine, or where there is none.
    pub last_line: Bytes,
}
