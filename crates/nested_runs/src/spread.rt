// Nets of parts that are worked on side by side.
ghost use Rattle.std.specs.Prelude.{◌≡◌, [], IfErr, IfOk, OnOk};
ghost use Rattle.task_graph.specs.NetBuilder.{with_task};
ghost use Rattle.nested_runs.specs.Spreads.{IsSpreadNet, RefusesSpread, part_row, spread_net};

use outside_io::{List, NoMemory};
use std::alloc::Global;
use task_graph::{Net, NetBuilder, Shape};

/// How many parts a spread may have.
pub const MAX_PARTS: u64 = 65_536;

/// Why a spread was refused.
#[derive(Clone, Copy, Debug, PartialEq, Eq)]
pub enum SpreadError {
    /// It would have so many parts, more than `MAX_PARTS`.
    TooWide(u64),
    /// An allocation failed.
    NoMemory,
}

/// A net of so many plain tasks, at most `MAX_PARTS`, without edges.
pub fn spread_net(alloc: Global, parts: u64) -> Result<Net, SpreadError>
    ensures net { IfOk result (IsSpreadNet parts) }
    ensures err { IfErr result (RefusesSpread parts) }
{
    if parts > MAX_PARTS {
        return Err(SpreadError::TooWide(parts));
    }
    let mut builder = NetBuilder::new(alloc);
    for _part in 0..parts {
        if add_part(alloc, &mut builder).is_err() {
            return Err(SpreadError::NoMemory);
        }
    }
    Ok(builder.finish())
}

// Adds a plain task to a net without semaphores.
fn add_part(alloc: Global, builder: &mut NetBuilder) -> Result<(), NoMemory>
    requires { builder.old.sems ≡ [] }
    ensures { OnOk result (builder.new ≡ with_task builder.old part_row) }
{
    match builder.task(Shape::Plain, List::new(alloc), List::new(alloc)) {
        Ok(_) => Ok(()),
        Err(_) => Err(NoMemory),
    }
}
