// How a call of the program ends.
ghost use Rattle.std.specs.Prelude.{◌≡◌};
ghost use Rattle.call_status.specs.Codes.{code_of};
ghost use Rattle.call_status.specs.Statuses.{status_after, status_by, status_of};

use super::stop::Stop;
use graph_file::GraphError;
use graph_plans::Spot;
use journal_rules::Why;
use legal_run::{Break, Verdict};
use nested_runs::Reason;
use outside_io::{Bytes, List};

/// How a call ends. Each status has its exit code and its line on standard error.
#[derive(Drop)]
pub enum Status {
    /// The command did all that it was to do.
    Done,
    /// The command line is none of the commands.
    BadWords,
    /// The bytes that were read as the graph file are none.
    BadGraph(GraphError),
    /// The graph has tasks, and each has an edge into it, so none could ever start.
    NoSource(Spot),
    /// There is no text of this name.
    NoText(Bytes),
    /// The text of this name is longer than is read.
    LongText(Bytes),
    /// Reading the text of this name failed.
    ReadFault(Bytes),
    /// Writing the output failed.
    WriteFault,
    /// Releases were dropped at the limit of starts: the tasks that lead to the run that met it, none for the graph's
    /// own, and that limit.
    Limit(List<u32>, u64),
    /// A task faulted: the tasks that lead to it, and why.
    TaskFault(List<u32>, Why),
    /// A task waited for a unit of a semaphore that never came: the tasks that lead to it.
    Stuck(List<u32>),
    /// The entry at this index of a journal breaks a rule, and which.
    NotLegal(u64, Break),
    /// The bytes that were read as a journal are none: the number of the first bad line, from 1.
    BadJournal(u64),
    /// An allocation failed.
    NoMemory,
}

impl Status {
    /// The exit code of the program.
    pub fn code(&self) -> u8
        ensures { result ≡ code_of self.now }
    {
        match self {
            Status::Done => 0,
            Status::BadWords => 2,
            Status::BadGraph(_) => 3,
            Status::NoSource(_) => 4,
            Status::NoText(_) => 5,
            Status::LongText(_) => 5,
            Status::ReadFault(_) => 6,
            Status::WriteFault => 7,
            Status::Limit(_, _) => 8,
            Status::TaskFault(_, _) => 9,
            Status::Stuck(_) => 10,
            Status::NotLegal(_, _) => 11,
            Status::BadJournal(_) => 12,
            Status::NoMemory => 13,
        }
    }
}

/// Whether the line of a status was written.
#[derive(Clone, Copy, Debug, PartialEq, Eq)]
pub enum Noted {
    /// The whole line was written.
    Whole,
    /// Writing failed, after a prefix of the line.
    Fault,
    /// An allocation failed, and nothing was written.
    NoMemory,
}

impl Status {
    /// The status of a call that stopped before what it was to do.
    pub fn of(stop: Stop) -> Status
        ensures { result ≡ status_of stop }
    {
        match stop {
            Stop::BadGraph(error) => Status::BadGraph(error),
            Stop::NoSource(spot) => Status::NoSource(spot),
            Stop::NoText(name) => Status::NoText(name),
            Stop::LongText(name) => Status::LongText(name),
            Stop::ReadFault(name) => Status::ReadFault(name),
            Stop::BadJournal(line) => Status::BadJournal(line),
            Stop::NoMemory => Status::NoMemory,
        }
    }

    /// The status of a run that came to its end for a reason, where nothing else went wrong.
    pub fn after(reason: Reason) -> Status
        ensures { result ≡ status_after reason }
    {
        match reason {
            Reason::Fine => Status::Done,
            Reason::Fault(path, why) => Status::TaskFault(path, why),
            Reason::Limit(path, limit) => Status::Limit(path, limit),
            Reason::Stuck(path) => Status::Stuck(path),
        }
    }

    /// The status of a verdict, where nothing else went wrong.
    pub fn by(verdict: Verdict) -> Status
        ensures { result ≡ status_by verdict }
    {
        match verdict {
            Verdict::Complete => Status::Done,
            Verdict::Legal => Status::Done,
            Verdict::Breaks(place, why) => Status::NotLegal(place, why),
        }
    }
}
