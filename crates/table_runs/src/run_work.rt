// The work of a release, and what it has come to. Nothing but the Start is in the journal then.
ghost use Rattle.std.specs.Prelude.{◌≡◌, ◌<◌, ◌+◌, length, map, None, Some, Option, IfOk};
ghost use Rattle.join_words.specs.Ins.{found_of, parts_of};
ghost use Rattle.join_tables.specs.States.{fresh_state};
ghost use Rattle.run_frame.specs.declared.job.Done.{Done as DoneBy};
ghost use Rattle.run_frame.specs.declared.run.FrameRun.{FrameRun};
ghost use Rattle.run_frame.specs.Legal.{IsKept};
ghost use Rattle.run_frame.specs.NestedRule.{job_of, journal_of};
ghost use Rattle.run_frame.specs.Runs.{IsFine};
ghost use Rattle.table_steps.specs.Giving.{MayEndGiving};
ghost use Rattle.join_tables.specs.Claims.{HasClaimed, HasCredited};
ghost use Rattle.semaphore_turns.specs.HeldUnits.{HoldsAll};
ghost use Rattle.semaphore_turns.specs.WaitingTurns.{release_of};
ghost use Rattle.table_runs.specs.AllowedFates.{EndAllowed, work_with};
ghost use Rattle.table_runs.specs.OpenStarts.{IsOpenFor, IsStartOf, StartStands};
ghost use Rattle.table_runs.specs.RunKeys.{book_in};
ghost use Rattle.table_runs.specs.Runs.{MayWork};

use super::attempt::{Attempt, Ending, InnerBegun, Outcome, Tried};
use super::gives::{all_edges, edges_given};
use super::open_start::OpenStart;
use super::table_run::{TableRun, TakenUp};
use join_tables::{Admitted, Fresh, Running, Turn};
use journal_rules::{DropWhy, Why};
use outside_io::{List, NoMemory};
use run_frame::{Answer, Done, FrameRun, Job, JobError};
use semaphore_turns::{ClaimedUnits, claim_units, credit_units, put_back_units};
use span_book::SpanBook;
use std::sync::Arc;
use task_graph::Net;

/// What a release has come to whose task may have started.
#[derive(Drop)]
pub enum Started<J: Job> {
    Outcome(Outcome<J::V>),
    /// The job answers a job in place of the work of the start.
    Inner(Running<J::V>, J),
}

impl<J: Job + Drop> TableRun<J> {
    ghost use Rattle.table_runs.specs.Begins.{Begins};
    ghost use Rattle.table_runs.specs.Attempts.{IsAgain, IsAttemptIn, IsOutcomeIn, release_tried};
    ghost use Rattle.table_runs.specs.inside.StartedWork.{Starts};
    ghost use Rattle.table_runs.specs.Openings.{Tries};

    /// Does the work of a release that has its tokens and units, where its task may start. Of what comes of it nothing
    /// but the Start is in the journal yet. Where the job answers another job, a run of that begins in place of the
    /// work; if nothing is to be done in it, it is over at once.
    pub fn attempt(&self, taken: TakenUp<J::V>) -> Result<Tried<J>, NoMemory>
        requires table { taken.turn.table ≡ self.now.table }
        requires refused { taken.turn.refused ≡ None }
        requires held { HoldsAll (J.meaning.net self.now.job) taken.turn }
        requires again { IsAgain self.now.table taken.turn.task taken.turn.cause taken.again }
        ensures { IfOk result (Tries J.meaning self.now (release_of taken.turn)) }
    {
        let TakenUp {
            turn,
            again,
            woken: _,
        } = taken;
        match self.start(turn)? {
            Started::Outcome(outcome) => Ok(Tried::Done(Attempt {
                outcome,
                again,
                inner: None,
            })),
            Started::Inner(running, job) => self.open(running, job, again),
        }
    }

    /// Goes on with a start in place of whose work a run was made, which is over. A run that was cut short is a Fault.
    pub fn resume(&self, start: OpenStart<J>, inner: FrameRun<J>) -> Result<Attempt<J>, NoMemory>
        requires frame { start.frame ≡ self.now }
        requires start { IsStartOf J.meaning (job_of inner) start }
        requires kept { IsKept J.meaning inner }
        ensures attempt { IfOk result (IsAttemptIn J.meaning self.now) }
        ensures release { IfOk result
            (λ attempt. release_tried self.now.table attempt.outcome
            ≡ fresh_state self.now.table start.running.task start.running.cause) }
        ensures inner { IfOk result (λ attempt. attempt.inner ≡ Some inner) }
        ensures again { IfOk result (λ attempt. attempt.again ≡ None) }
    {
        let outcome = self.resumed(start.into_running(), &inner)?;
        Ok(Attempt {
            outcome,
            again: None,
            inner: Some(inner),
        })
    }

    // Begins a run of a job in place of the work of a start.
    fn open(
        &self,
        running: Running<J::V>,
        job: J,
        again: Option<Fresh<J::V>>,
    ) -> Result<Tried<J>, NoMemory>
        requires open { IsOpenFor J.meaning self.now job running }
        requires again { IsAgain self.now.table running.task running.cause again }
        ensures { IfOk result (Tries J.meaning self.now
            (fresh_state self.now.table running.task running.cause)) }
    {
        let start = OpenStart::new(running, &self.job, &self.book);
        let book = same_book(&self.book)?;
        let begun = TableRun::begin(self.alloc, Arc::new(self.alloc, job)?, book)?;
        if begun.fresh.is_empty() {
            let attempt = self.resume(start, begun.kept.finish()?)?;
            return Ok(Tried::Done(Attempt { again, ..attempt }));
        }
        Ok(Tried::Inner(InnerBegun {
            begun,
            start,
            again,
        }))
    }

    // Starts the task and does its work, unless it may not start. Then the units are put back.
    fn start(&self, turn: Turn<J::V>) -> Result<Started<J>, NoMemory>
        requires table { turn.table ≡ self.now.table }
        requires refused { turn.refused ≡ None }
        requires held { HoldsAll (J.meaning.net self.now.job) turn }
        ensures { IfOk result (Starts J.meaning self.now (release_of turn)) }
    {
        let net: &Net = self.job.net();
        match self.table.admit(turn) {
            Admitted::Go(ticket) => {
                self.work(credit_units(&self.table, net, self.table.start(ticket)))
            }
            Admitted::Over(turn) => {
                let turn = put_back_units(&self.table, net, turn);
                Ok(Started::Outcome(Outcome::Drops(turn, DropWhy::Limit)))
            }
            Admitted::Halted(turn) => {
                let turn = put_back_units(&self.table, net, turn);
                Ok(Started::Outcome(Outcome::Drops(turn, DropWhy::Halted)))
            }
        }
    }

    // Does the work of a start, unless it is to be a run.
    fn work(&self, running: Running<J::V>) -> Result<Started<J>, NoMemory>
        requires table { running.table ≡ self.now.table }
        requires may { MayWork (J.meaning.net self.now.job) running }
        requires stands { StartStands J.meaning self.now.job running }
        ensures { IfOk result (Starts J.meaning self.now
            (fresh_state running.table running.task running.cause)) }
    {
        let net: &Net = self.job.net();
        let _rows = net.tasks();
        match self.job.run(self.alloc, running.task(), running.ins()) {
            Ok(Done::Value(value, answer)) => {
                Ok(Started::Outcome(self.claim(net, running, value, answer)?))
            }
            Ok(Done::Inner(job)) => Ok(Started::Inner(running, job)),
            Err(JobError::Fault(why)) => Ok(Started::Outcome(Outcome::Faults(running, why))),
            Err(JobError::NoMemory) => Err(NoMemory),
        }
    }

    // What becomes of a start in place of whose work a run was made.
    fn resumed(
        &self,
        running: Running<J::V>,
        inner: &FrameRun<J>,
    ) -> Result<Outcome<J::V>, NoMemory>
        requires open { IsOpenFor J.meaning self.now (job_of inner.now) running }
        requires kept { IsKept J.meaning inner.now }
        ensures outcome { IfOk result (IsOutcomeIn J.meaning self.now (Some inner.now)) }
        ensures release { IfOk result
            (λ outcome. release_tried self.now.table outcome
            ≡ fresh_state running.table running.task running.cause) }
    {
        if !inner.is_fine() {
            return Ok(Outcome::Faults(running, Why::Inner));
        }
        let net: &Net = self.job.net();
        let _rows = net.tasks();
        let _keeps = inner.job.net();
        match inner.job.gather(self.alloc, inner) {
            Ok(value) => self.claim_inner(net, running, value, inner),
            Err(JobError::Fault(why)) => Ok(Outcome::Faults(running, why)),
            Err(JobError::NoMemory) => Err(NoMemory),
        }
    }

    // Claims the units that the End of a start is to give back, by what its work has come to. A claim that is refused
    // is a Fault.
    fn claim(
        &self,
        net: &Net,
        running: Running<J::V>,
        value: J::V,
        answer: Answer,
    ) -> Result<Outcome<J::V>, NoMemory>
        requires net { net.now ≡ J.meaning.net self.now.job }
        requires in_range { running.task < length net.now.tasks }
        requires table { running.table ≡ self.now.table }
        requires may { MayWork (J.meaning.net self.now.job) running }
        requires answers { J.meaning.answers self.now.job running.task
            (map found_of (parts_of running.ins)) (DoneBy.Value value answer) }
        ensures outcome { IfOk result (IsOutcomeIn J.meaning self.now None) }
        ensures release { IfOk result
            (λ outcome. release_tried self.now.table outcome
            ≡ fresh_state running.table running.task running.cause) }
    {
        match claim_units(&self.table, net, running) {
            ClaimedUnits::All(running) => {
                let gives = edges_given(self.alloc, net, running.task(), &answer)?;
                self.ending(running, gives, value, false)
            }
            ClaimedUnits::Refused(running, sem) => {
                Ok(Outcome::Faults(running, Why::OverRelease(sem)))
            }
        }
    }

    // The same after a run that is fine, to whose gathering the value belongs. The End gives all edges.
    fn claim_inner(
        &self,
        net: &Net,
        running: Running<J::V>,
        value: J::V,
        inner: &FrameRun<J>,
    ) -> Result<Outcome<J::V>, NoMemory>
        requires net { net.now ≡ J.meaning.net self.now.job }
        requires in_range { running.task < length net.now.tasks }
        requires open { IsOpenFor J.meaning self.now (job_of inner.now) running }
        requires fine { IsFine (journal_of inner.now) }
        requires gathered { J.meaning.gathers (job_of inner.now) inner.now value }
        ensures outcome { IfOk result (IsOutcomeIn J.meaning self.now (Some inner.now)) }
        ensures release { IfOk result
            (λ outcome. release_tried self.now.table outcome
            ≡ fresh_state running.table running.task running.cause) }
    {
        let _ = inner;
        match claim_units(&self.table, net, running) {
            ClaimedUnits::All(running) => {
                let gives = all_edges(self.alloc, net, running.task())?;
                self.ending(running, gives, value, true)
            }
            ClaimedUnits::Refused(running, sem) => {
                Ok(Outcome::Faults(running, Why::OverRelease(sem)))
            }
        }
    }

    // What a start needs for its End with this value and these edges.
    fn ending(
        &self,
        running: Running<J::V>,
        gives: List<u32>,
        value: J::V,
        inner: bool,
    ) -> Result<Outcome<J::V>, NoMemory>
        requires table { running.table ≡ self.now.table }
        requires credited { HasCredited (J.meaning.net self.now.job) running.task running.units }
        requires claimed { HasClaimed (J.meaning.net self.now.job) running.task running.units }
        requires fits { MayEndGiving (J.meaning.net self.now.job) running.task gives inner }
        ensures outcome { (run : Option (FrameRun J J.V))
            → EndAllowed J.meaning self.now.job (work_with running.task running.ins) value gives
            inner run → IfOk result (IsOutcomeIn J.meaning self.now run) }
        ensures release { IfOk result
            (λ outcome. release_tried self.now.table outcome
            ≡ fresh_state running.table running.task running.cause) }
    {
        let value = self.table.share(self.alloc, value, gives.len())?;
        Ok(Outcome::Ends(Ending {
            running,
            gives,
            value,
            inner,
        }))
    }
}

// The same book, if there is one.
fn same_book(book: &Option<Arc<SpanBook>>) -> Result<Option<Arc<SpanBook>>, NoMemory>
    ensures { IfOk result (λ same. book_in same ≡ book_in book.now) }
{
    match book {
        Some(book) => Ok(Some(Arc::try_clone(book)?)),
        None => Ok(None),
    }
}
