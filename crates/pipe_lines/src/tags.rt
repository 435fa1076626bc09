// Which edges of a pipeline's net lead along a pipe.
ghost use Rattle.std.specs.Prelude.{◌≡◌, ◌++◌, OnOk, IfOk};
ghost use Rattle.pipe_lines.specs.PipeNet.{along_pipes};
ghost use Rattle.pipe_lines.specs.inside.Building.{cell_tags, line_tags};

use crate::pipeline::PipeSpec;
use outside_io::{List, NoMemory};
use std::alloc::Global;

/// Of each edge of a pipeline's net whether it leads along a pipe, from line to line, and not along a line, from pipe
/// to pipe.
pub fn along_pipes(alloc: Global, spec: &PipeSpec) -> Result<List<bool>, NoMemory>
    ensures { IfOk result (λ tags. tags ≡ along_pipes spec.now.lines spec.now.serial) }
{
    let mut tags = List::new(alloc);
    for _line in 0..spec.lines {
        tag_line(&mut tags, spec.serial.as_slice())?;
    }
    Ok(tags)
}

// Adds the tags of the edges out of a line's cells.
fn tag_line(tags: &mut List<bool>, serial: &[bool]) -> Result<(), NoMemory>
    ensures { OnOk result (tags.new ≡ tags.old ++ line_tags serial.now) }
{
    for is_serial in serial {
        tag_cell(tags, *is_serial)?;
    }
    Ok(())
}

// Adds the tags of the edges out of a cell.
fn tag_cell(tags: &mut List<bool>, is_serial: bool) -> Result<(), NoMemory>
    ensures { OnOk result (tags.new ≡ tags.old ++ cell_tags is_serial) }
{
    tags.push(false)?;
    if is_serial {
        tags.push(true)?;
    }
    Ok(())
}
