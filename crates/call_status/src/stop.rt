// Why a call ends before its run.
ghost use Rattle.std.specs.Prelude.{◌≡◌, ◌≢◌};
ghost use Rattle.graph_drafts.specs.declared.refusals.GraphError.TheVariants.{NoMemory as NoMemoryToRead};

use graph_file::GraphError;
use graph_plans::Spot;
use outside_io::{Bytes, NoMemory};
use std::alloc::AllocFailed;

/// Why a call ends before its run. Each reason is the status of the same name.
#[derive(Drop)]
pub enum Stop {
    /// The bytes of the graph file are refused.
    BadGraph(GraphError),
    /// Nothing can begin in the graph of this spot.
    NoSource(Spot),
    /// There is no file of this name.
    NoText(Bytes),
    /// The file of this name is longer than it may be.
    LongText(Bytes),
    /// Reading the file of this name failed.
    ReadFault(Bytes),
    /// The line of this number, from 1, is none of a journal's.
    BadJournal(u64),
    /// An allocation failed.
    NoMemory,
}

impl From<NoMemory> for Stop {
    ghost use Rattle.std.specs.Prelude.{◌≡◌};
    ghost use Rattle.call_status.specs.declared.stop.Stop.TheVariants.{NoMemory as NoMemoryStop};

    ghost from_gives = { λ _ stop. stop ≡ NoMemoryStop };

    fn from(_: NoMemory) -> Self {
        Stop::NoMemory
    }
}

impl<T: Drop> From<AllocFailed<T>> for Stop {
    ghost use Rattle.std.specs.Prelude.{◌≡◌};
    ghost use Rattle.call_status.specs.declared.stop.Stop.TheVariants.{NoMemory as NoMemoryStop};

    ghost from_gives = { λ _ stop. stop ≡ NoMemoryStop };

    fn from(_: AllocFailed<T>) -> Self {
        Stop::NoMemory
    }
}

/// Why bytes that were read as a graph file stop the call.
pub fn graph_refusal(error: GraphError) -> Stop
    ensures memory { error ≡ NoMemoryToRead → result ≡ Stop.NoMemory }
    ensures refused { error ≢ NoMemoryToRead → result ≡ Stop.BadGraph error }
{
    match error {
        GraphError::NoMemory => Stop::NoMemory,
        error => Stop::BadGraph(error),
    }
}
