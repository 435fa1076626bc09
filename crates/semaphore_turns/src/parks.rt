// The parking of turns.
ghost use Rattle.std.specs.Prelude.{◌≡◌, ◌<◌, ◌≤◌, ◌+◌, None, IfOk, OnErr, length};
ghost use Rattle.std.specs.List.{AllByRecursion};
ghost use Rattle.std.specs.Vec.{vec_capacity, vec_len};
ghost use Rattle.semaphore_park.specs.Parking.{yard_key};
ghost use Rattle.semaphore_turns.specs.Semaphores.{taken_by};
ghost use Rattle.semaphore_turns.specs.HeldUnits.{HoldsFirst, LacksUnit};
ghost use Rattle.semaphore_turns.specs.WaitingTurns.{yard_of};
ghost use Rattle.semaphore_turns.specs.WokenTurns.{ParkedFor, ParksTurn, Wakes};
ghost use Rattle.semaphore_turns.specs.YardTurns.{LeavesParked, ParksLast, WakesFirst, passed_over};

use crate::parked_turn::{ParkedTurn, TurnYard};
use crate::ready_turn::ReadyTurn;
use crate::rows::takes_of;
use crate::takes::{TakenUnits, put_back_first, take_units};
use crate::wakes::wake_turns;
use join_tables::{NetTable, Turn};
use outside_io::NoMemory;
use std::snapshot::Snapshot;
use task_graph::Net;

/// What parking a turn led to.
#[derive(Drop)]
pub enum Parking<V> {
    /// It isn't parked: by now it has a unit of each semaphore that its task takes.
    Taken(Turn<V>),
    /// It is parked. The turn is for clauses alone.
    Parked(Snapshot<Turn<V>>),
}

/// Parks a turn that found no unit of the semaphore at a place among those that its task takes, unless it finds one
/// now. It is parked behind all that wait for the same unit, and the units that it has are put back. For each of them
/// the turn is woken that was parked for one first. If the turn itself was woken for a unit that it has not come to,
/// the next that is parked for that one is woken in its place. If an allocation fails the turn is given up, and nothing
/// is woken.
pub fn park_turn<V: Drop>(
    table: &NetTable<V>,
    net: &Net,
    yard: &mut TurnYard<V>,
    turn: Turn<V>,
    place: usize,
    woken_for: Option<u32>,
    ready: &mut Vec<ReadyTurn<V>>,
) -> Result<Parking<V>, NoMemory>
    requires net { net.now ≡ table.now.net }
    requires yard { yard_key yard.old ≡ yard_of table.now }
    requires turn { (turn.table ≡ table.now.table) × (turn.refused ≡ None) }
    requires holds { HoldsFirst net.now place turn }
    requires place { place ≤ length (taken_by net.now turn.task) }
    requires room { vec_len ready.old + length (taken_by net.now turn.task)
        ≤ vec_capacity ready.old }
    ensures yard { yard_key yard.new ≡ yard_of table.now }
    ensures parks { IfOk result
        (λ parking. ParksTurn table.now turn parking ready.old.items ready.new.items) }
    ensures leaves { IfOk result (λ parking. LeavesParked net.now turn.task woken_for parking yard.old
        yard.new ready.old.items ready.new.items) }
    ensures err { OnErr result (ready.new.items ≡ ready.old.items) }
    ensures capacity { vec_capacity ready.new ≡ vec_capacity ready.old }
    ensures few { vec_len ready.new ≤ vec_len ready.old + length (taken_by net.now turn.task) }
{
    match take_units(table, net, turn, place) {
        TakenUnits::All(turn) => Ok(Parking::Taken(turn)),
        TakenUnits::Lacks(turn, place) => {
            let parked = park(table, net, yard, turn, place, woken_for, ready)?;
            Ok(Parking::Parked(parked))
        }
    }
}

// Parks a turn that lacks a unit, puts back those that it has, and wakes what waits for them.
fn park<V: Drop>(
    table: &NetTable<V>,
    net: &Net,
    yard: &mut TurnYard<V>,
    turn: Turn<V>,
    place: usize,
    woken_for: Option<u32>,
    ready: &mut Vec<ReadyTurn<V>>,
) -> Result<Snapshot<Turn<V>>, NoMemory>
    requires net { net.now ≡ table.now.net }
    requires yard { yard_key yard.old ≡ yard_of table.now }
    requires turn { (turn.table ≡ table.now.table) × (turn.refused ≡ None) }
    requires lacks { LacksUnit net.now place turn }
    requires room { vec_len ready.old + length (taken_by net.now turn.task)
        ≤ vec_capacity ready.old }
    ensures yard { yard_key yard.new ≡ yard_of table.now }
    ensures parks { IfOk result (λ parked. ParkedFor table.now turn parked.value) }
    ensures wakes { IfOk result (λ _. Wakes table.now (taken_by net.now turn.task) ready.old.items
        ready.new.items) }
    ensures last { IfOk result (λ parked. ParksLast net.now turn.task woken_for parked.value yard.old
        yard.new ready.old.items ready.new.items) }
    ensures err { OnErr result (ready.new.items ≡ ready.old.items) }
    ensures capacity { vec_capacity ready.new ≡ vec_capacity ready.old }
    ensures few { vec_len ready.new ≤ vec_len ready.old + length (taken_by net.now turn.task) }
{
    let takes = takes_of(net, turn.task());
    let turn = put_back_first(table, takes, turn, place);
    let parked = Snapshot::of(&turn);
    yard.park_in(takes[place], ParkedTurn::new(turn))?;
    wake_turns(yard, &takes[..place], ready);
    pass_on(yard, &takes[place + 1..], woken_for, ready);
    Ok(parked)
}

// Wakes the next turn for a unit, where one that was woken for it has not come to it: it is one of these semaphores.
fn pass_on<V: Drop>(
    yard: &mut TurnYard<V>,
    sems: &[u32],
    woken_for: Option<u32>,
    ready: &mut Vec<ReadyTurn<V>>,
)
    requires in_range { AllByRecursion (λ sem. sem < length yard.old.lists) sems.now }
    requires room { vec_len ready.old + length (passed_over sems.now woken_for)
        ≤ vec_capacity ready.old }
    ensures yard { yard_key yard.new ≡ yard_key yard.old }
    ensures wakes { Wakes yard.old.home (passed_over sems.now woken_for) ready.old.items
        ready.new.items }
    ensures first { WakesFirst (passed_over sems.now woken_for) yard.old yard.new ready.old.items
        ready.new.items }
    ensures capacity { vec_capacity ready.new ≡ vec_capacity ready.old }
    ensures few { vec_len ready.new
        ≤ vec_len ready.old + length (passed_over sems.now woken_for) }
{
    if let Some(sem) = woken_for {
        if sems.contains(&sem) {
            wake_turns(yard, &[sem], ready);
        }
    }
}
