// The units that a start claims.
ghost use Rattle.std.specs.Prelude.{◌≡◌};
ghost use Rattle.semaphore_turns.specs.UnitClaims.{ClaimsUnits, HasToClaim};

use crate::rows::{puts_of, takes_of};
use join_tables::{Claim, NetTable, Running};
use journal_rules::is_listed;
use task_graph::Net;

/// What claiming the units of a start led to.
#[derive(Drop)]
pub enum ClaimedUnits<V> {
    /// It gives back at its end a unit of each semaphore that its task puts.
    All(Running<V>),
    /// No unit of this semaphore is out that it could give back.
    Refused(Running<V>, u32),
}

/// Claims a unit of each semaphore that the task of a start puts and doesn't take, the least first, until a claim is
/// refused.
pub fn claim_units<V: Drop>(table: &NetTable<V>, net: &Net, running: Running<V>) -> ClaimedUnits<V>
    requires net { net.now ≡ table.now.net }
    requires table { running.table ≡ table.now.table }
    requires claims { HasToClaim net.now running.task running.units }
    ensures { ClaimsUnits table.now running result }
{
    let takes = takes_of(net, running.task());
    let puts = puts_of(net, running.task());
    let mut running = running;
    for sem in puts {
        if !is_listed(takes, *sem) {
            match table.claim(running, *sem) {
                Claim::Granted(more) => running = more,
                Claim::Refused(running) => return ClaimedUnits::Refused(running, *sem),
            }
        }
    }
    ClaimedUnits::All(running)
}
