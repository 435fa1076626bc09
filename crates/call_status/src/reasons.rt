// The reason of a run, as text.
ghost use Rattle.std.specs.Prelude.{◌≡◌, ◌++◌, [], codes, decimal, OnOk};
ghost use Rattle.std.specs.Option.{option_copied, option_map};
ghost use Rattle.graph_plans.specs.PlanRows.{plan_rows};
ghost use Rattle.call_status.specs.Reasons.{fault_text, limit_text, reason_line, stuck_text, why_text, within_path};

use super::paths::add_path;
use graph_plans::Plan;
use journal_rules::Why;
use nested_runs::Reason;
use outside_io::{Bytes, NoMemory, add_numbered};

/// Adds the last line of the report of a run that came to its end for this reason: none where it ended fine. The tasks
/// that it names are those of the plan whose top graph was run; without a plan they go by their numbers.
pub fn add_reason_line(
    line: &mut Bytes,
    plan: Option<&Plan>,
    reason: &Reason,
) -> Result<(), NoMemory>
    ensures { OnOk result (line.new ≡ line.old ++ reason_line (option_map plan_rows (option_copied plan.entry)) reason.now) }
{
    match reason {
        Reason::Fine => return Ok(()),
        Reason::Fault(path, why) => {
            line.add_all(b"!! ")?;
            add_fault(line, plan, path.as_slice(), *why)?;
        }
        Reason::Limit(path, limit) => {
            line.add_all(b"!! ")?;
            add_limit(line, plan, path.as_slice(), *limit)?;
        }
        Reason::Stuck(path) => {
            line.add_all(b"!! ")?;
            add_stuck(line, plan, path.as_slice())?;
        }
    }
    line.add_all(b"\n")
}

/// Adds which task faulted, and why.
pub fn add_fault(
    line: &mut Bytes,
    plan: Option<&Plan>,
    path: &[u32],
    why: Why,
) -> Result<(), NoMemory>
    ensures { OnOk result (line.new ≡ line.old ++ fault_text (option_map plan_rows (option_copied plan.entry)) path.now why) }
{
    line.add_all(b"fault ")?;
    add_path(line, plan, path)?;
    line.add_all(b": ")?;
    add_why(line, why)
}

/// Adds which limit was met, and in which run, where that isn't the graph's own.
pub fn add_limit(
    line: &mut Bytes,
    plan: Option<&Plan>,
    path: &[u32],
    limit: u64,
) -> Result<(), NoMemory>
    ensures { OnOk result (line.new ≡ line.old ++ limit_text (option_map plan_rows (option_copied plan.entry)) path.now limit) }
{
    add_numbered(line, b"limit ", limit)?;
    add_within(line, plan, path)
}

/// Adds which task waited for a unit that never came.
pub fn add_stuck(line: &mut Bytes, plan: Option<&Plan>, path: &[u32]) -> Result<(), NoMemory>
    ensures { OnOk result (line.new ≡ line.old ++ stuck_text (option_map plan_rows (option_copied plan.entry)) path.now) }
{
    line.add_all(b"stuck ")?;
    add_path(line, plan, path)
}

// Adds in which run, where the path leads to one.
fn add_within(line: &mut Bytes, plan: Option<&Plan>, path: &[u32]) -> Result<(), NoMemory>
    ensures { OnOk result (line.new ≡ line.old ++ within_path (option_map plan_rows (option_copied plan.entry)) path.now) }
{
    match path {
        [] => Ok(()),
        [..] => {
            line.add_all(b" in ")?;
            add_path(line, plan, path)
        }
    }
}

// Adds why a task faulted.
fn add_why(line: &mut Bytes, why: Why) -> Result<(), NoMemory>
    ensures { OnOk result (line.new ≡ line.old ++ why_text why) }
{
    match why {
        Why::Long(bytes) => add_numbered(line, b"long ", bytes),
        Why::Wide(parts) => add_numbered(line, b"wide ", parts),
        Why::Unmet(token) => add_numbered(line, b"unmet ", token),
        Why::Inner => line.add_all(b"inner"),
        Why::OverRelease(sem) => add_numbered(line, b"over ", u64::from(sem)),
    }
}
