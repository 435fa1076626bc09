// Parked turns that are taken into a rest.
ghost use Rattle.std.specs.Prelude.{◌≡◌, ◌<◌, ◌≤◌, ◌+◌, ◌++◌, ◌∷◌, [], IfOk, OnOk, length};
ghost use Rattle.std.specs.Vec.{vec_capacity, vec_len};
ghost use Rattle.join_tables.specs.RestStates.{parked_as};
ghost use Rattle.semaphore_park.specs.Parking.{yard_key};
ghost use Rattle.semaphore_turns.specs.WaitingTurns.{WaitsAt, yard_of};
ghost use Rattle.semaphore_turns.specs.YardTurns.{releases_in};
ghost use Rattle.semaphore_turns.specs.inside.RestTurns.{RestsOn, IsUntouched, put_back};

use crate::parked_turn::{ParkedTurn, TurnYard};
use join_tables::{NetTable, Rest, Turn};
use outside_io::NoMemory;
use std::alloc::Global;

/// A rest, and for each of its turns the semaphore on which it was parked.
#[derive(Drop)]
pub(crate) struct RestTurns<V> {
    pub(crate) rest: Rest<V>,
    pub(crate) sems: Vec<u32>,
}

/// Takes turns out of a yard into a rest, those of the least semaphore first and of one semaphore those first that were
/// parked first, until there are so many or none is left.
pub(crate) fn take_parked<V: Drop>(
    table: &NetTable<V>,
    alloc: Global,
    yard: &mut TurnYard<V>,
    sem_count: u32,
    room: usize,
) -> Result<RestTurns<V>, NoMemory>
    requires yard { yard_key yard.old ≡ yard_of table.now }
    requires sems { sem_count ≡ length table.now.net.sems }
    ensures yard { yard_key yard.new ≡ yard_of table.now }
    ensures rests { IfOk result (λ turns. RestsOn table.now turns.rest turns.sems.items) }
    ensures untouched { IfOk result (λ turns. IsUntouched turns.rest) }
    ensures back { IfOk result (λ turns. put_back table.now.table turns.rest.turns turns.sems.items
        (releases_in yard.new) ≡ releases_in yard.old) }
{
    let mut turns = RestTurns {
        rest: Rest::with_room(alloc, room)?,
        sems: Vec::with_capacity(alloc, room)?,
    };
    for sem in 0..sem_count {
        turns = take_from(table, yard, sem, turns);
    }
    Ok(turns)
}

// Takes the turns that are parked on a semaphore into a rest, while it has room.
fn take_from<V: Drop>(
    table: &NetTable<V>,
    yard: &mut TurnYard<V>,
    sem: u32,
    turns: RestTurns<V>,
) -> RestTurns<V>
    requires yard { yard_key yard.old ≡ yard_of table.now }
    requires sem { sem < length table.now.net.sems }
    requires rests { RestsOn table.now turns.rest turns.sems.items }
    requires untouched { IsUntouched turns.rest }
    requires room { turns.rest.room ≤ vec_capacity turns.sems }
    ensures yard { yard_key yard.new ≡ yard_of table.now }
    ensures rests { RestsOn table.now result.rest result.sems.items }
    ensures untouched { IsUntouched result.rest }
    ensures back { put_back table.now.table result.rest.turns result.sems.items (releases_in yard.new)
        ≡ put_back table.now.table turns.rest.turns turns.sems.items (releases_in yard.old) }
    ensures room { (result.rest.room ≡ turns.rest.room)
        × (vec_capacity result.sems ≡ vec_capacity turns.sems) }
{
    let RestTurns { mut rest, mut sems } = turns;
    while rest.len() < rest.room() {
        let Some(parked) = yard.wake_in(sem) else {
            break;
        };
        rest = table.rest_add(rest, parked.into_turn());
        sems.push_reserved(sem);
    }
    RestTurns { rest, sems }
}

/// Parks the turns of a rest again, the last first, each before what is parked on its semaphore. If an allocation fails
/// they are given up.
pub(crate) fn park_again<V: Drop>(
    table: &NetTable<V>,
    yard: &mut TurnYard<V>,
    turns: RestTurns<V>,
) -> Result<(), NoMemory>
    requires yard { yard_key yard.old ≡ yard_of table.now }
    requires rests { RestsOn table.now turns.rest turns.sems.items }
    requires undropped { turns.rest.dropped ≡ [] }
    ensures yard { yard_key yard.new ≡ yard_of table.now }
    ensures back { OnOk result (releases_in yard.new
        ≡ put_back table.now.table turns.rest.turns turns.sems.items (releases_in yard.old)) }
{
    let mut turns = turns;
    while turns.sems.len() > 0 {
        let (others, sem, turn) = pop(table, turns);
        yard.park_first(sem, ParkedTurn::new(turn))?;
        turns = others;
    }
    Ok(())
}

// Takes out the last turn of a rest, with its semaphore.
fn pop<V: Drop>(table: &NetTable<V>, turns: RestTurns<V>) -> (RestTurns<V>, u32, Turn<V>)
    requires rests { RestsOn table.now turns.rest turns.sems.items }
    requires undropped { turns.rest.dropped ≡ [] }
    requires some { 1 ≤ vec_len turns.sems }
    ensures rests { RestsOn table.now result.0.rest result.0.sems.items }
    ensures undropped { result.0.rest.dropped ≡ [] }
    ensures fewer { vec_len result.0.sems + 1 ≡ vec_len turns.sems }
    ensures sem { result.1 < length table.now.net.sems }
    ensures waits { WaitsAt result.2 table.now result.1 }
    ensures turns { turns.rest.turns
        ≡ result.0.rest.turns ++ parked_as result.2.task result.2.cause ∷ [] }
    ensures sems { turns.sems.items ≡ result.0.sems.items ++ result.1 ∷ [] }
{
    let RestTurns { rest, mut sems } = turns;
    let Some(sem) = sems.pop() else {
        unreachable!()
    };
    let (rest, turn) = table.rest_pop(rest);
    (RestTurns { rest, sems }, sem, turn)
}
