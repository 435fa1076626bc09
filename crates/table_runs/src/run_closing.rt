// How a start ends, faults or is dropped, and what its End gives.
ghost use Rattle.std.specs.Prelude.{◌≡◌, ◌<◌, ◌≤◌, ◌+◌, [], length, None, Some, Option};
ghost use Rattle.std.specs.Vec.{vec_capacity, vec_len};
ghost use Rattle.join_tables.specs.declared.fates.Fate.TheVariants.{Ended};
ghost use Rattle.table_steps.specs.ParcelForms.{MayBeBare};
ghost use Rattle.run_frame.specs.declared.run.FrameRun.{FrameRun};
ghost use Rattle.task_graph.specs.Net.{AreSemaphoresOf};
ghost use Rattle.table_runs.specs.AllowedFates.{FateAllowed};
ghost use Rattle.table_runs.specs.JournalFacts.{IsInJournal};
ghost use Rattle.table_runs.specs.StepReleases.{GivesEdges, IsFateOf, Uses, given_by};
ghost use Rattle.table_runs.specs.Runs.{AreOf, IsDone};

use super::attempt::{Attempt, Ending, Outcome};
use super::done_turns::DoneTurn;
use super::table_run::TableRun;
use join_tables::{Gave, Owing, Spent};
use run_frame::{FrameRun, Job};
use semaphore_turns::{ReadyTurn, puts_of, return_units, takes_of};
use task_graph::Net;

impl<J: Job + Drop> TableRun<J> {
    ghost use Rattle.table_runs.specs.Attempts.{IsAttemptIn, IsOutcomeIn, MayEnd, edges_due, release_tried, room_due, units_due};

    /// The semaphores of which a unit is back when an attempt is concluded.
    pub fn units_back<'a>(&'a self, outcome: &Outcome<J::V>) -> &'a [u32]
        ensures back { result.now ≡ units_due (J.meaning.net self.now.job) outcome.now }
        ensures sems { AreSemaphoresOf (J.meaning.net self.now.job) result.now }
    {
        let net: &Net = self.job.net();
        match outcome {
            Outcome::Ends(ending) => puts_of(net, ending.running.task()),
            Outcome::Faults(_, _) => &[],
            Outcome::Drops(turn, _) => takes_of(net, turn.task()),
        }
    }

    /// Ends the start, or records its Fault or the Drop, and adds the releases that follow to those that were made. It
    /// takes no memory.
    pub fn conclude(&self, attempt: Attempt<J>, made: &mut Vec<ReadyTurn<J::V>>) -> DoneTurn<J>
        requires attempt { IsAttemptIn J.meaning self.now attempt }
        requires made { AreOf self.now.table made.old.items }
        requires room { vec_len made.old + room_due attempt ≤ vec_capacity made.old }
        ensures done { IsDone J.meaning self.now result }
        ensures inner { result.inner ≡ attempt.inner }
        ensures uses { Uses (J.meaning.net self.now.job)
            (release_tried self.now.table attempt.outcome) result.spent.fate made.old.items
            made.new.items }
        ensures edges { attempt.again ≡ None → GivesEdges (J.meaning.net self.now.job)
            self.now.table (given_by result.spent.fate) made.old.items made.new.items }
        ensures made { AreOf self.now.table made.new.items }
        ensures few { vec_len made.new ≤ vec_len made.old + room_due attempt }
        ensures capacity { vec_capacity made.new ≡ vec_capacity made.old }
    {
        let Attempt {
            outcome,
            again,
            inner,
        } = attempt;
        let spent = self.close(outcome, &inner, made);
        let Some(again) = again else {
            return DoneTurn { spent, inner };
        };
        made.push_reserved(ReadyTurn::fresh(again));
        DoneTurn { spent, inner }
    }

    // Ends the start, or records its Fault or the Drop. The run is that made in place of its work.
    fn close(
        &self,
        outcome: Outcome<J::V>,
        inner: &Option<FrameRun<J>>,
        made: &mut Vec<ReadyTurn<J::V>>,
    ) -> Spent<J::V>
        requires outcome { IsOutcomeIn J.meaning self.now inner.now outcome }
        requires made { AreOf self.now.table made.old.items }
        requires room { vec_len made.old + edges_due outcome ≤ vec_capacity made.old }
        ensures table { result.table ≡ self.now.table }
        ensures allowed { FateAllowed J.meaning self.now.job result.fate inner.now }
        ensures journal { IsInJournal J.meaning self.now.job result.fate }
        ensures of { IsFateOf (release_tried self.now.table outcome).task
            (release_tried self.now.table outcome).cause result.fate }
        ensures gives { GivesEdges (J.meaning.net self.now.job) self.now.table
            (given_by result.fate) made.old.items made.new.items }
        ensures made { AreOf self.now.table made.new.items }
        ensures few { vec_len made.new ≤ vec_len made.old + edges_due outcome }
        ensures capacity { vec_capacity made.new ≡ vec_capacity made.old }
    {
        match outcome {
            Outcome::Ends(ending) => self.end(ending, inner, made),
            Outcome::Faults(running, why) => self.table.fault(running, why),
            Outcome::Drops(turn, why) => self.table.drop_turn(turn, why),
        }
    }

    // Ends a start and gives what the End owes, first the units.
    fn end(
        &self,
        ending: Ending<J::V>,
        inner: &Option<FrameRun<J>>,
        made: &mut Vec<ReadyTurn<J::V>>,
    ) -> Spent<J::V>
        requires ending { MayEnd J.meaning self.now inner.now ending }
        requires made { AreOf self.now.table made.old.items }
        requires room { vec_len made.old + length ending.gives ≤ vec_capacity made.old }
        ensures table { result.table ≡ self.now.table }
        ensures allowed { FateAllowed J.meaning self.now.job result.fate inner.now }
        ensures journal { IsInJournal J.meaning self.now.job result.fate }
        ensures of { IsFateOf ending.running.task ending.running.cause result.fate }
        ensures gives { GivesEdges (J.meaning.net self.now.job) self.now.table
            (given_by result.fate) made.old.items made.new.items }
        ensures made { AreOf self.now.table made.new.items }
        ensures few { vec_len made.new ≤ vec_len made.old + length ending.gives }
        ensures capacity { vec_capacity made.new ≡ vec_capacity made.old }
    {
        let _ = inner;
        let Ending {
            running,
            gives,
            value,
            inner,
        } = ending;
        let task = running.task();
        let owing = self.table.end(running, gives, value, inner);
        let owing = return_units(&self.table, self.job.net(), owing, task);
        self.pay(owing, made)
    }

    // Gives all edges that an end owes.
    fn pay(&self, owing: Owing<J::V>, made: &mut Vec<ReadyTurn<J::V>>) -> Spent<J::V>
        requires table { owing.table ≡ self.now.table }
        requires no_unit { owing.units ≡ [] }
        requires parcels { MayBeBare (J.meaning.net self.now.job) owing.bare }
        requires made { AreOf self.now.table made.old.items }
        requires room { vec_len made.old + length owing.left ≤ vec_capacity made.old }
        ensures table { result.table ≡ self.now.table }
        ensures fate { result.fate ≡ Ended owing.ended }
        ensures gives { GivesEdges (J.meaning.net self.now.job) self.now.table owing.left
            made.old.items made.new.items }
        ensures made { AreOf self.now.table made.new.items }
        ensures few { vec_len made.new ≤ vec_len made.old + length owing.left }
        ensures capacity { vec_capacity made.new ≡ vec_capacity made.old }
    {
        let mut owing = owing;
        loop {
            match self.table.give(owing) {
                Gave::Next(next) => owing = next,
                Gave::Released(next, fresh) => {
                    owing = next;
                    made.push_reserved(ReadyTurn::fresh(fresh));
                }
                Gave::Finished(spent) => return spent,
            }
        }
    }
}
