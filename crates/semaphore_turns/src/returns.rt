// The units that an End gives back.
ghost use Rattle.std.specs.Prelude.{◌≡◌, []};
ghost use Rattle.table_steps.specs.Holding.{PutsEach};
ghost use Rattle.join_tables.specs.States.{owing_state};

use crate::rows::puts_of;
use join_tables::{NetTable, Owing};
use task_graph::Net;

/// Gives back all units that an end of a task owes.
pub fn return_units<V: Drop>(table: &NetTable<V>, net: &Net, owing: Owing<V>, task: u32) -> Owing<V>
    requires net { net.now ≡ table.now.net }
    requires table { owing.table ≡ table.now.table }
    requires units { PutsEach net.now task owing.units }
    ensures { result ≡ owing_state owing.table owing.ended owing.left [] owing.found owing.bare }
{
    let mut owing = owing;
    for sem in puts_of(net, task) {
        owing = table.return_unit(owing, *sem);
    }
    owing
}
