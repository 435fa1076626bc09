// What becomes of parked turns when nothing else is left.
ghost use Rattle.std.specs.Prelude.{◌≡◌, ◌≢◌, ◌<◌, ◌≤◌, [], None, Some, All, IfOk, IsTrue, length};
ghost use Rattle.std.specs.Vec.{vec_len};
ghost use Rattle.semaphore_park.specs.Parking.{yard_key};
ghost use Rattle.semaphore_turns.specs.Settlements.{Settles, AreDrops, LeavesSettled};
ghost use Rattle.semaphore_turns.specs.WaitingTurns.{yard_of};
ghost use Rattle.semaphore_turns.specs.YardTurns.{releases_in};
ghost use Rattle.semaphore_turns.specs.inside.RestTurns.{IsQuiet, MayDropAll, DropsTurns, RestsOn, IsLookAt, LeavesLook, IsUnitLook, put_back};

use crate::parked_turn::TurnYard;
use crate::ready_turn::ReadyTurn;
use crate::rest_turns::{RestTurns, park_again, take_parked};
use join_tables::{Checked, NetTable, RestDrop, Spent, UnitLook};
use journal_rules::DropWhy;
use outside_io::NoMemory;
use std::alloc::Global;
use task_graph::Net;

/// What becomes of the parked turns of a table.
#[derive(Drop)]
pub enum Settled<V> {
    /// They wait: other turns are live, or none is parked.
    Waits,
    /// Nothing else was left, and this one, which was parked, goes on.
    Goes(ReadyTurn<V>),
    /// Nothing else was left, and all that were parked are dropped.
    Over(Spent<V>),
}

// What a look at parked turns found.
#[derive(Drop)]
pub(crate) enum Look<V> {
    // So many turns are live: more than were looked at, or just those while others are parked; or none is parked.
    Busy(u64),
    // These are all the live turns, and whether a start of the run has faulted.
    Alone(RestTurns<V>, bool),
}

// What a search for a unit found.
#[derive(Drop)]
pub(crate) enum UnitSearch<V> {
    // This semaphore has one.
    Free(RestTurns<V>, u32),
    // No semaphore of these turns has one.
    Full(RestTurns<V>),
}

/// Decides what becomes of parked turns. If all live turns of the table are parked, and a start of the run has faulted,
/// it drops them for that. If none has, the first that is parked on a semaphore with a unit goes on, and the others
/// stay parked in their order; where there is none it drops all, each for want of a unit of the semaphore on which it
/// is parked. If an allocation fails what is parked may be given up.
pub fn settle<V: Drop>(
    table: &NetTable<V>,
    net: &Net,
    alloc: Global,
    yard: &mut TurnYard<V>,
) -> Result<Settled<V>, NoMemory>
    requires net { net.now ≡ table.now.net }
    requires yard { yard_key yard.old ≡ yard_of table.now }
    ensures yard { yard_key yard.new ≡ yard_of table.now }
    ensures settles { IfOk result (Settles table.now) }
    ensures leaves { IfOk result (λ settled. LeavesSettled table.now settled (releases_in yard.old)
        (releases_in yard.new)) }
{
    let sem_count = net.sems().len() as u32;
    let parked = count_parked(yard, sem_count);
    if parked == 0 {
        return Ok(Settled::Waits);
    }
    match look_twice(table, alloc, yard, sem_count, parked)? {
        Look::Busy(_) => Ok(Settled::Waits),
        Look::Alone(turns, true) => Ok(Settled::Over(drop_all(table, turns, true))),
        Look::Alone(turns, false) => go_on(table, yard, turns),
    }
}

// How many turns are parked.
fn count_parked<V: Drop>(yard: &TurnYard<V>, sem_count: u32) -> usize
    requires { sem_count ≤ length yard.now.lists }
{
    let mut parked: usize = 0;
    for sem in 0..sem_count {
        parked = parked.saturating_add(yard.count(sem));
    }
    parked
}

// Looks at one of so many parked turns, and at all where they may be all the live turns.
fn look_twice<V: Drop>(
    table: &NetTable<V>,
    alloc: Global,
    yard: &mut TurnYard<V>,
    sem_count: u32,
    parked: usize,
) -> Result<Look<V>, NoMemory>
    requires yard { yard_key yard.old ≡ yard_of table.now }
    requires sems { sem_count ≡ length table.now.net.sems }
    ensures yard { yard_key yard.new ≡ yard_of table.now }
    ensures look { IfOk result (IsLookAt table.now) }
    ensures leaves { IfOk result (λ look. LeavesLook table.now look (releases_in yard.old)
        (releases_in yard.new)) }
{
    match look_at(table, alloc, yard, sem_count, 1)? {
        Look::Busy(live) if live == parked as u64 => look_at(table, alloc, yard, sem_count, parked),
        one => Ok(one),
    }
}

// Looks whether so many parked turns are all the live turns. Where they aren't they are parked again.
fn look_at<V: Drop>(
    table: &NetTable<V>,
    alloc: Global,
    yard: &mut TurnYard<V>,
    sem_count: u32,
    room: usize,
) -> Result<Look<V>, NoMemory>
    requires yard { yard_key yard.old ≡ yard_of table.now }
    requires sems { sem_count ≡ length table.now.net.sems }
    ensures yard { yard_key yard.new ≡ yard_of table.now }
    ensures look { IfOk result (IsLookAt table.now) }
    ensures leaves { IfOk result (λ look. LeavesLook table.now look (releases_in yard.old)
        (releases_in yard.new)) }
{
    let RestTurns { rest, sems } = take_parked(table, alloc, yard, sem_count, room)?;
    if rest.len() == 0 {
        return Ok(Look::Busy(0));
    }
    match table.rest_check(rest) {
        Checked::Alone(rest, faulted) if is_empty(yard, sem_count) => {
            Ok(Look::Alone(RestTurns { rest, sems }, faulted))
        }
        Checked::Alone(rest, _faulted) => {
            let live = rest.len() as u64;
            park_again(table, yard, RestTurns { rest, sems })?;
            Ok(Look::Busy(live))
        }
        Checked::Busy(rest, live) => {
            park_again(table, yard, RestTurns { rest, sems })?;
            Ok(Look::Busy(live))
        }
    }
}

// Whether nothing is parked.
fn is_empty<V: Drop>(yard: &TurnYard<V>, sem_count: u32) -> bool
    requires { sem_count ≡ length yard.now.lists }
    ensures { IsTrue result → All (λ list. list ≡ []) (releases_in yard.now).lists }
{
    for sem in 0..sem_count {
        if yard.count(sem) > 0 {
            return false;
        }
    }
    true
}

// Goes on with the first turn that is parked on a semaphore with a unit, or drops all.
fn go_on<V: Drop>(
    table: &NetTable<V>,
    yard: &mut TurnYard<V>,
    turns: RestTurns<V>,
) -> Result<Settled<V>, NoMemory>
    requires yard { yard_key yard.old ≡ yard_of table.now }
    requires rests { RestsOn table.now turns.rest turns.sems.items }
    requires quiet { IsQuiet turns.rest × (turns.rest.turns ≢ []) }
    requires all { All (λ list. list ≡ []) (releases_in yard.old).lists }
    ensures yard { yard_key yard.new ≡ yard_of table.now }
    ensures settles { IfOk result (Settles table.now) }
    ensures leaves { IfOk result (λ settled. LeavesSettled table.now settled
        (put_back table.now.table turns.rest.turns turns.sems.items (releases_in yard.old))
        (releases_in yard.new)) }
{
    match find_unit(table, turns) {
        UnitSearch::Free(turns, sem) => {
            park_again(table, yard, turns)?;
            let Some(parked) = yard.wake_in(sem) else {
                unreachable!()
            };
            Ok(Settled::Goes(ReadyTurn::woken(parked.into_turn(), sem)))
        }
        UnitSearch::Full(turns) => Ok(Settled::Over(drop_all(table, turns, false))),
    }
}

// Looks for a semaphore with a unit among those of a rest that is alone.
fn find_unit<V: Drop>(table: &NetTable<V>, turns: RestTurns<V>) -> UnitSearch<V>
    requires rests { RestsOn table.now turns.rest turns.sems.items }
    requires quiet { IsQuiet turns.rest × (turns.rest.turns ≢ []) }
    ensures { IsUnitLook table.now turns.rest.turns turns.sems.items result }
{
    let RestTurns { mut rest, sems } = turns;
    for place in 0..sems.len() {
        match table.rest_full(rest, sems[place]) {
            UnitLook::Available(rest) => {
                let sem = sems[place];
                return UnitSearch::Free(RestTurns { rest, sems }, sem);
            }
            UnitLook::Exhausted(more) => rest = more,
        }
    }
    UnitSearch::Full(RestTurns { rest, sems })
}

// Drops all turns of a rest that is alone: after a Fault, or each for want of a unit of its semaphore.
fn drop_all<V: Drop>(table: &NetTable<V>, turns: RestTurns<V>, faulted: bool) -> Spent<V>
    requires rests { RestsOn table.now turns.rest turns.sems.items }
    requires may { MayDropAll turns.rest turns.sems.items faulted }
    requires undropped { turns.rest.dropped ≡ [] }
    ensures table { result.table ≡ table.now.table }
    ensures drops { AreDrops result.fate }
    ensures turns { DropsTurns table.now.table turns.rest.turns result.fate }
{
    let RestTurns { mut rest, mut sems } = turns;
    loop {
        let Some(sem) = sems.pop() else {
            unreachable!()
        };
        let why = if faulted {
            DropWhy::Halted
        } else {
            DropWhy::Stuck(sem)
        };
        match table.rest_drop(rest, why) {
            RestDrop::More(left) => rest = left,
            RestDrop::Last(spent) => return spent,
        }
    }
}
