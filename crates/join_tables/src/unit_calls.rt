// The calls that take units of semaphores and give them back. None takes memory, and none waits.
ghost use Rattle.std.specs.Prelude.{◌≡◌, ◌<◌, ◌≤◌, None, length};
ghost use Rattle.table_steps.specs.Giving.{times};
ghost use Rattle.join_tables.specs.States.{turn_with, owing_state};
ghost use Rattle.table_steps.specs.Holding.{without};
ghost use Rattle.join_tables.specs.Units.{TakesUnit};

use crate::turns::{NetTable, Owing, Turn, UnitTake};

impl<V: Drop> NetTable<V> {
    /// Takes a unit of a semaphore. It returns `NoUnit` exactly where its own step finds that as many are taken as
    /// there are, or are still to be given back by calls that found none; it undoes its step.
    pub fn take_unit(&self, turn: Turn<V>, sem: u32) -> UnitTake<V>
        requires table { turn.table ≡ self.now.table }
        requires not_refused { turn.refused ≡ None }
        requires in_range { sem < length self.now.net.sems }
        ensures { TakesUnit self.now.net turn sem result }
    {
        let Turn {
            mut seat,
            task,
            cause,
            inputs,
        } = turn;
        let found = self.words.draw_unit(&mut seat, sem);
        if found < u64::from(self.words.net.sems()[sem as usize]) {
            return UnitTake::Got(Turn {
                seat,
                task,
                cause,
                inputs,
            });
        }
        self.words.undo_unit(&mut seat, sem);
        UnitTake::NoUnit(Turn {
            seat,
            task,
            cause,
            inputs,
        })
    }

    /// Puts a unit back that the turn holds.
    pub fn put_unit(&self, turn: Turn<V>, sem: u32) -> Turn<V>
        requires table { turn.table ≡ self.now.table }
        requires held { 1 ≤ times sem turn.held }
        requires in_range { sem < length self.now.net.sems }
        ensures { result ≡ turn_with turn.table turn.task turn.cause turn.refused
            (without sem turn.held) turn.found }
    {
        let Turn {
            mut seat,
            task,
            cause,
            inputs,
        } = turn;
        self.words.put_unit_back(&mut seat, sem);
        Turn {
            seat,
            task,
            cause,
            inputs,
        }
    }

    /// Gives a unit back that an end owes.
    #[tactic(auto, using(table_steps::proofs::Values::knows_again))]
    pub fn return_unit(&self, owing: Owing<V>, sem: u32) -> Owing<V>
        requires table { owing.table ≡ self.now.table }
        requires owed { 1 ≤ times sem owing.units }
        requires in_range { sem < length self.now.net.sems }
        ensures { result ≡ owing_state owing.table owing.ended owing.left (without sem owing.units)
            owing.found owing.bare }
    {
        let Owing {
            mut seat,
            ended,
            next,
            shares,
        } = owing;
        self.words.give_unit_back(&mut seat, sem);
        Owing {
            seat,
            ended,
            next,
            shares,
        }
    }
}
