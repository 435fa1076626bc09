// The calls that admit a release, and those that halt a run or drop a release. None takes memory, and none waits.
ghost use Rattle.std.specs.Prelude.{◌≡◌, Some, None, []};
ghost use Rattle.join_tables.specs.Turns.{Admits};
ghost use Rattle.join_tables.specs.Fates.{FaultedAs, DroppedAs};
ghost use Rattle.join_tables.specs.Claims.{HasCredited};
ghost use Rattle.join_tables.specs.Keeping.{entries_of, with_places};
ghost use Rattle.table_steps.specs.OneJournal.{AreInOneJournal};
ghost use Rattle.table_steps.specs.Reasons.{MayTell};
ghost use Rattle.table_steps.specs.Holding.{HoldsEachUnit};

use crate::fates::{Dropping, Failure, Fate};
use crate::turns::{Admitted, NetTable, Running, Spent, StartTicket, Turn};
use journal_rules::{DropWhy, Why};

impl<V: Drop> NetTable<V> {
    /// Draws an admission, unless the run is halted. It returns `Halted` exactly where its own load finds the halt
    /// mark, and `Over` exactly where it finds none and the number that is drawn is not below the limit.
    #[tactic(auto, using(table_steps::proofs::Values::knows_again))]
    pub fn admit(&self, turn: Turn<V>) -> Admitted<V>
        requires table { turn.table ≡ self.now.table }
        requires asked_once { turn.refused ≡ None }
        requires units { HoldsEachUnit self.now.net turn.task turn.held }
        ensures { Admits self.now.limit turn result }
    {
        let Turn {
            mut seat,
            task,
            cause,
            inputs,
        } = turn;
        if self.words.load_halt(&mut seat) != 0 {
            return Admitted::Halted(Turn {
                seat,
                task,
                cause,
                inputs,
            });
        }
        let drawn = self.words.draw_admission(&mut seat);
        if drawn < self.words.limit() {
            return Admitted::Go(StartTicket {
                seat,
                task,
                cause,
                inputs,
            });
        }
        Admitted::Over(Turn {
            seat,
            task,
            cause,
            inputs,
        })
    }

    /// Faults a start that has credited all units that it had to: draws the place of its Fault, and then sets the halt
    /// mark. Its Start and its Fault are then in a journal that is legal as far as the net decides. A Fault gives no
    /// edge and no unit back, so nothing is owed after it. Its reason may be an over-release of a semaphore only where
    /// the start's claim of it was refused.
    #[tactic(auto, using(table_steps::proofs::Values::knows_again))]
    pub fn fault(&self, running: Running<V>, why: Why) -> Spent<V>
        requires table { running.table ≡ self.now.table }
        requires credits { HasCredited self.now.net running.task running.units }
        requires why { MayTell why running.units.refused }
        ensures table { result.table ≡ self.now.table }
        ensures fate { FaultedAs running why result.fate }
        ensures journal { AreInOneJournal self.now.net self.now.limit
            (with_places (entries_of result.fate)) }
    {
        let Running {
            mut seat,
            task,
            cause,
            place: start,
            inputs,
        } = running;
        let place = self.words.draw_fault(&mut seat, why);
        self.words.set_halt(&mut seat);
        self.words.learn(&mut seat);
        let fate = Fate::Faulted(Failure {
            task,
            cause,
            start,
            found: inputs.without_values(),
            place,
            why,
        });
        Spent { seat, fate }
    }

    /// Drops a release for the cause for which `admit` refused it: draws the place of its Drop, which is then in a
    /// journal that is legal as far as the net decides. Nothing is owed after it.
    pub fn drop_turn(&self, turn: Turn<V>, why: DropWhy) -> Spent<V>
        requires table { turn.table ≡ self.now.table }
        requires refused { turn.refused ≡ Some why }
        requires no_unit { turn.held ≡ [] }
        ensures table { result.table ≡ self.now.table }
        ensures fate { DroppedAs turn why result.fate }
        ensures journal { AreInOneJournal self.now.net self.now.limit
            (with_places (entries_of result.fate)) }
    {
        let Turn {
            mut seat,
            task,
            cause,
            ..
        } = turn;
        let place = self.words.draw_drop(&mut seat);
        self.words.learn(&mut seat);
        let fate = Fate::Dropped(Dropping {
            task,
            cause,
            place,
            why,
        });
        Spent { seat, fate }
    }
}
