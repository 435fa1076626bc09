// The waking of turns.
ghost use Rattle.std.specs.Prelude.{◌≡◌, ◌<◌, ◌≤◌, ◌+◌, length};
ghost use Rattle.std.specs.List.{AllByRecursion};
ghost use Rattle.std.specs.Vec.{vec_capacity, vec_len};
ghost use Rattle.semaphore_park.specs.Parking.{yard_key};
ghost use Rattle.semaphore_turns.specs.WokenTurns.{Wakes};
ghost use Rattle.semaphore_turns.specs.YardTurns.{WakesFirst};

use crate::parked_turn::TurnYard;
use crate::ready_turn::ReadyTurn;

/// For each of these semaphores, of which a unit is back, wakes the turn that was parked there first, where one is
/// parked. It takes no memory.
pub fn wake_turns<V: Drop>(yard: &mut TurnYard<V>, sems: &[u32], ready: &mut Vec<ReadyTurn<V>>)
    requires in_range { AllByRecursion (λ sem. sem < length yard.old.lists) sems.now }
    requires room { vec_len ready.old + length sems.now ≤ vec_capacity ready.old }
    ensures yard { yard_key yard.new ≡ yard_key yard.old }
    ensures wakes { Wakes yard.old.home sems.now ready.old.items ready.new.items }
    ensures first { WakesFirst sems.now yard.old yard.new ready.old.items ready.new.items }
    ensures capacity { vec_capacity ready.new ≡ vec_capacity ready.old }
    ensures few { vec_len ready.new ≤ vec_len ready.old + length sems.now }
{
    for sem in sems {
        if let Some(parked) = yard.wake_in(*sem) {
            ready.push_reserved(ReadyTurn::woken(parked.into_turn(), *sem));
        }
    }
}
