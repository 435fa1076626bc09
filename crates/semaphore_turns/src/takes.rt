// The units that a turn takes before its start.
ghost use Rattle.std.specs.Prelude.{◌≡◌, ◌≤◌, [], None, length};
ghost use Rattle.task_graph.specs.Net.{AreSemaphoresOf};
ghost use Rattle.join_tables.specs.States.{turn_with};
ghost use Rattle.semaphore_turns.specs.Semaphores.{taken_by};
ghost use Rattle.semaphore_turns.specs.HeldUnits.{HoldsAll, HoldsFirst, TakesUnits};

use crate::rows::takes_of;
use join_tables::{NetTable, Turn, UnitTake};
use task_graph::Net;

/// What taking the units of a turn led to.
#[derive(Drop)]
pub enum TakenUnits<V> {
    /// It has a unit of each semaphore that its task takes.
    All(Turn<V>),
    /// The semaphore at this place among those that the task takes had no unit. The turn has one of each before.
    Lacks(Turn<V>, usize),
}

/// Takes a unit of each semaphore that the task of a turn takes, the least first, until one has none. The turn has
/// those of the first `from` already.
pub fn take_units<V: Drop>(
    table: &NetTable<V>,
    net: &Net,
    turn: Turn<V>,
    from: usize,
) -> TakenUnits<V>
    requires net { net.now ≡ table.now.net }
    requires turn { (turn.table ≡ table.now.table) × (turn.refused ≡ None) }
    requires holds { HoldsFirst net.now from turn }
    requires from { from ≤ length (taken_by net.now turn.task) }
    ensures { TakesUnits net.now turn result }
{
    let takes = takes_of(net, turn.task());
    let mut turn = turn;
    for place in from..takes.len() {
        match table.take_unit(turn, takes[place]) {
            UnitTake::Got(more) => turn = more,
            UnitTake::NoUnit(turn) => return TakenUnits::Lacks(turn, place),
        }
    }
    TakenUnits::All(turn)
}

/// Puts back the units that a turn has taken.
pub fn put_back_units<V: Drop>(table: &NetTable<V>, net: &Net, turn: Turn<V>) -> Turn<V>
    requires net { net.now ≡ table.now.net }
    requires table { turn.table ≡ table.now.table }
    requires holds { HoldsAll net.now turn }
    ensures { result ≡ turn_with turn.table turn.task turn.cause turn.refused [] turn.found }
{
    let takes = takes_of(net, turn.task());
    put_back_first(table, takes, turn, takes.len())
}

/// Puts back a unit of each of the first semaphores that the task of a turn takes, which are all that it has.
pub(crate) fn put_back_first<V: Drop>(
    table: &NetTable<V>,
    takes: &[u32],
    turn: Turn<V>,
    count: usize,
) -> Turn<V>
    requires takes { takes.now ≡ taken_by table.now.net turn.task }
    requires sems { AreSemaphoresOf table.now.net takes.now }
    requires table { turn.table ≡ table.now.table }
    requires holds { HoldsFirst table.now.net count turn }
    requires count { count ≤ length takes.now }
    ensures { result ≡ turn_with turn.table turn.task turn.cause turn.refused [] turn.found }
{
    let mut turn = turn;
    let mut left = count;
    while left > 0 {
        left -= 1;
        turn = table.put_unit(turn, takes[left]);
    }
    turn
}
