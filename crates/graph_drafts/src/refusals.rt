// Why bytes are no graph file.
ghost use Rattle.graph_drafts.specs.declared.refusals.GraphError.TheVariants.{NoMemory as NoMemoryOf};

use graph_plans::Spot;
use outside_io::{Back, Bytes, NoMemory};
use pipe_lines::PipeError;

/// What there may be too many of.
#[derive(Clone, Copy, Debug, PartialEq, Eq)]
pub enum Kind {
    /// Tasks of the file and its modules.
    Tasks,
    /// Edges of the file and its modules.
    Edges,
    /// Semaphores of the file and its modules.
    Semaphores,
    /// Modules.
    Modules,
    /// Modules in a chain of uses that begins in the top graph.
    Depth,
    /// Different names of texts.
    Texts,
}

/// Why bytes are no graph file.
#[derive(Drop)]
pub enum GraphError {
    /// They are no JSON text in UTF-8, or one that nests too deep.
    NotJson,
    /// A field is missing, unknown, or has a content that it may not have.
    BadField(Spot, Bytes),
    /// A field has a name that nothing has.
    NoSuchName(Spot, Bytes),
    /// A field has a name that an earlier one has.
    Repeated(Spot, Bytes),
    /// The module of this name runs itself, directly or through others.
    ModuleCycle(Bytes),
    /// There are more of these than a graph file may have.
    TooMany(Kind),
    /// The pipes of a task are no pipeline.
    BadPipe(Spot, PipeError),
    /// Memory was refused. It says nothing of the bytes.
    NoMemory,
}

impl From<NoMemory> for GraphError {
    ghost use Rattle.std.specs.Prelude.{◌≡◌};

    ghost from_gives = { λ _ error. error ≡ NoMemoryOf };

    fn from(_: NoMemory) -> Self {
        GraphError::NoMemory
    }
}

impl<T: Drop> From<Back<T>> for GraphError {
    ghost use Rattle.std.specs.Prelude.{◌≡◌};

    ghost from_gives = { λ _ error. error ≡ NoMemoryOf };

    fn from(_: Back<T>) -> Self {
        GraphError::NoMemory
    }
}
