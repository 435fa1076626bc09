// The operations of tasks.
ghost use Rattle.std.specs.Prelude.{◌≡◌};
ghost use Rattle.graph_plans.specs.Operations.{shape_of};

use crate::pipes::PipePlan;
use outside_io::{Bytes, List};
use task_graph::Shape;

/// An operation on one text. A number of lines is at most 1,000,000,000, a word has at most 4,096 bytes.
#[derive(Drop)]
pub enum TextOp {
    /// The text as it is.
    Pass,
    /// The lines in which this word occurs.
    Keep(Bytes),
    /// The other lines.
    Without(Bytes),
    /// So many of the first lines.
    Head(u64),
    /// So many of the last lines.
    Tail(u64),
    /// All lines but so many of the first ones.
    Skip(u64),
    /// The lines in the order of their bytes.
    Sort,
    /// The lines that differ from the line just before them.
    Uniq,
    /// One line, the number of lines in decimal.
    Count,
    /// Each different line, in the order of their bytes, behind its count.
    Tally,
}

/// What a task does. The text of a task is what its predecessors hand it, one after another.
#[derive(Drop)]
pub enum Op {
    /// The text with which the graph was started.
    Input,
    /// The text of this number in the plan's list of names.
    Read(u32),
    /// An operation on the task's text.
    Text(TextOp),
    /// The lines of the first text that a predecessor hands it whose key is that of a line of the others.
    Match,
    /// The task's text, for its first successor alone.
    Back,
    /// The task's text, for its first successor where it has more lines than this number, else for the second one.
    IfMore(u64),
    /// The task's text, for its first successor where this word occurs in it, else for the second one.
    IfHas(Bytes),
    /// The task's text, for each successor whose word in this list of at most 256 occurs in it.
    Route(List<Bytes>),
    /// The task's text in parts of so many lines, one at least and at most 1,000,000,000, each put through the
    /// operation by a task of an inner run, and then one after another.
    Spread(u64, TextOp),
    /// What a run of the module of this number makes of the task's text.
    Module(u32),
    /// The task's text in parts of so many lines, each put through the pipes, and then one after another.
    Pipe(PipePlan),
}

impl Op {
    /// The shape of the operation's task in a net.
    pub fn shape(&self) -> Shape
        ensures { result ≡ shape_of self.now }
    {
        match self {
            Op::Input | Op::Read(_) | Op::Text(_) | Op::Match => Shape::Plain,
            Op::Back | Op::IfMore(_) | Op::IfHas(_) => Shape::Choice,
            Op::Route(_) => Shape::Many,
            Op::Spread(_, _) | Op::Module(_) | Op::Pipe(_) => Shape::Nested,
        }
    }
}
