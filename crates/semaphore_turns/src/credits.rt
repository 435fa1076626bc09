// The units that a start credits.
ghost use Rattle.std.specs.Prelude.{◌≡◌};
ghost use Rattle.join_tables.specs.Claims.{BeginsUnits, with_units};
ghost use Rattle.semaphore_turns.specs.UnitClaims.{HasToClaim};

use crate::rows::{puts_of, takes_of};
use join_tables::{NetTable, Running};
use journal_rules::is_listed;
use task_graph::Net;

/// Credits each unit that a start took and its task doesn't put.
pub fn credit_units<V: Drop>(table: &NetTable<V>, net: &Net, running: Running<V>) -> Running<V>
    requires net { net.now ≡ table.now.net }
    requires table { running.table ≡ table.now.table }
    requires begins { BeginsUnits net.now running.task running.units }
    ensures state { result ≡ with_units running result.units result }
    ensures claims { HasToClaim net.now running.task result.units }
{
    let takes = takes_of(net, running.task());
    let puts = puts_of(net, running.task());
    let mut running = running;
    for sem in takes {
        if !is_listed(puts, *sem) {
            running = table.credit(running, *sem);
        }
    }
    running
}
