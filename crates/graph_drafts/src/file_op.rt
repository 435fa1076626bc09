// The operations of a graph file.
ghost use Rattle.std.specs.Prelude.{◌≡◌};

use graph_plans::Op;

/// An operation as a file has it: the text that it reads and the module that it runs have names and no numbers yet, and
/// any other is as in a plan.
#[derive(Drop)]
pub enum FileOp<'v> {
    Reads(&'v str),
    Runs(&'v str),
    Does(Op),
}

/// An operation, and the names of its own fields.
#[derive(Drop)]
pub(crate) struct FoundOp<T> {
    pub op: T,
    pub fields: &'static [&'static str],
}

/// An operation with these fields of its own.
pub(crate) fn with<T>(fields: &'static [&'static str], op: T) -> FoundOp<T>
    ensures { result ≡ record { op = op; fields = fields.entry } }
{
    FoundOp { op, fields }
}

/// One that is in a file as in a plan, with these fields of its own.
pub(crate) fn does<'v>(fields: &'static [&'static str], op: Op) -> FoundOp<FileOp<'v>>
    ensures { result ≡ record { op = FileOp.Does op; fields = fields.entry } }
{
    with(fields, FileOp::Does(op))
}
