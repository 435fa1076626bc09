// What is parked.
ghost use Rattle.std.specs.Prelude.{◌≡◌};

use join_tables::{NetTable, Turn};
use semaphore_park::{Parkable, YardState};
use std::marker::Model;

/// A turn that waits for a unit of a semaphore that its task takes. It holds no unit.
pub struct ParkedTurn<V> {
    turn: Turn<V>,
}

// Written out, so that it is proved here alone and not in each crate above.
impl<V: Drop> Drop for ParkedTurn<V> {
    fn drop(self) {
        let ParkedTurn { turn } = self;
        drop(turn);
    }
}

impl<V> Model for ParkedTurn<V> {
    ghost use Rattle.join_tables.specs.States.{TurnState};

    ghost Value = { TurnState };

    ghost view = { λ parked. parked.turn };
}

impl<V> Parkable for ParkedTurn<V> {
    ghost use Rattle.semaphore_turns.specs.WaitingTurns.{WaitsAt};

    type Home = NetTable<V>;

    ghost waits_at = { WaitsAt };
}

/// The turns of a table that are parked, by semaphore.
pub type TurnYard<V> = YardState<ParkedTurn<V>>;

impl<V> ParkedTurn<V> {
    /// To be parked.
    pub(crate) fn new(turn: Turn<V>) -> ParkedTurn<V>
        ensures { result ≡ turn }
    {
        ParkedTurn { turn }
    }

    /// Parked no more.
    pub(crate) fn into_turn(self) -> Turn<V>
        ensures { result ≡ self }
    {
        let ParkedTurn { turn } = self;
        turn
    }
}
