// An operation on each line of a text.
ghost use Rattle.std.specs.Prelude.{◌≡◌, ◌≤◌, IfOk, length};
ghost use Rattle.line_maps.specs.LineMaps.{line_map, line_map_limit};

use grain_tasks::Fold;
use graph_plans::TextOp;
use line_folds::LineIndex;
use outside_io::{Bytes, List, NoMemory};
use std::alloc::Global;
use std::marker::Model;
use text_ops::{ApplyError, Text, end_of_first};
use text_tasks::apply;

/// The fold of an operation over the lines of a text: its value at a line is what the operation makes of that line, and
/// values are joined one behind the other. Contracts see it as the operation and the text.
#[derive(Drop)]
pub struct LineFold<'t> {
    op: TextOp,
    index: LineIndex<'t>,
}

impl<'t> Model for LineFold<'t> {
    ghost use Rattle.std.specs.Prelude.{◌≤◌, length};
    ghost use Rattle.line_maps.specs.LineMaps.{LineMap, line_map, line_map_limit};

    ghost Value = { LineMap };

    ghost view = { λ fold. line_map fold.op fold.index };

    ghost invariant = { λ fold. length fold.index ≤ line_map_limit };
}

impl<'t> LineFold<'t> {
    /// The fold of an operation over the lines of a text, which is short enough that no value of a line is too long.
    pub fn new(alloc: Global, op: TextOp, text: &'t Text) -> Result<LineFold<'t>, NoMemory>
        requires { length text.now ≤ line_map_limit }
        ensures { IfOk result (λ fold. fold ≡ line_map op text.entry.now) }
    {
        let index = LineIndex::new(alloc, text)?;
        Ok(LineFold { op, index })
    }
}

impl<'t> Fold for LineFold<'t> {
    ghost use Rattle.line_maps.specs.LineMaps.{mapping, mapping_lawful};

    type V = Bytes;

    ghost folding = { mapping };

    fn count(&self) -> u64 {
        self.index.line_count()
    }

    fn unit(&self, alloc: Global) -> Result<Bytes, NoMemory> {
        Ok(List::new(alloc))
    }

    fn at(&self, alloc: Global, index: u64) -> Result<Bytes, NoMemory> {
        let rest = self.index.from_line(index);
        let line = List::from_slice(alloc, &rest[..end_of_first(rest, 1)])?;
        let line = Text::from_lines(alloc, line)?;
        match apply(alloc, &self.op, &line) {
            Ok(value) => List::from_slice(alloc, value.as_slice()),
            Err(ApplyError::Long(_)) => unreachable!(),
            Err(ApplyError::NoMemory) => Err(NoMemory),
        }
    }

    fn join(&self, _alloc: Global, mut left: Bytes, right: &Bytes) -> Result<Bytes, NoMemory> {
        left.add_all(right.as_slice())?;
        Ok(left)
    }

    ghost lawful = { mapping_lawful };
}
