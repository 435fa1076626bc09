// What is under the lock of a frame.
ghost use Rattle.std.specs.Prelude.{◌≡◌, ◌⊎◌, ◌+◌, None, Some, IfOk, IfSome, OnOk, OnErr};
ghost use Rattle.span_book.specs.SpanBooks.{name_of, no_spans, teller_state};
ghost use Rattle.table_runs.specs.DoneTurns.{HasSame, IsNoTurn};
ghost use Rattle.table_runs.specs.OpenStarts.{IsStartOf};
ghost use Rattle.table_runs.specs.RunKeys.{key_of};
ghost use Rattle.table_runs.specs.Runs.{AreDoneIn};
ghost use Rattle.table_runs.specs.Spans.{spans_in, spans_inside, spans_kept};
ghost use Rattle.table_frames.specs.inside.LockedRuns.{ComesInto, TakesTurns, lock_key_of, locked_run, noted_by};

use join_tables::{Keeper, Remaining};
use keyed_lock::Keyed;
use outside_io::NoMemory;
use run_frame::Job;
use span_book::{RunSpans, SpanBook, Teller};
use std::alloc::Global;
use std::marker::Model;
use std::snapshot::Snapshot;
use table_runs::{DoneTurns, OpenStart, RunKeeper, TableRun, count_spans};

/// The keeper of a run, and the start whose work the run is, if it is inside another.
///
/// While a run is open inside it, what is brought is laid aside, and its keeper gets it when that run has come back. So
/// the keeper looks for the last live turn only where none is open: the run isn't over before, since the start of an
/// open run is a live turn.
#[derive(Drop)]
pub struct LockedRun<J: Job> {
    pub kept: RunKeeper<J>,
    pub aside: DoneTurns<J>,
    /// The spans of both, and how many runs were opened inside it and came back.
    pub spans: RunSpans,
    pub start: Option<OpenStart<J>>,
}

impl<J: Job> Keyed for LockedRun<J> {
    ghost use Rattle.table_frames.specs.inside.LockedRuns.{LockKey, lock_key_of};

    ghost Key = { LockKey J };

    ghost key = { lock_key_of };
}

impl<J: Job> Model for LockedRun<J> {
    ghost use Rattle.std.specs.Prelude.{◌≡◌, ◌+◌, IfSome, Some};
    ghost use Rattle.table_runs.specs.OpenStarts.{IsStartOf};
    ghost use Rattle.table_runs.specs.RunKeys.{key_of};
    ghost use Rattle.table_runs.specs.Runs.{AreDoneIn};
    ghost use Rattle.table_runs.specs.Spans.{spans_done, spans_kept};
    ghost use Rattle.table_frames.specs.inside.LockedRuns.{LockedRunView, locked_run};

    ghost Value = { LockedRunView J J.V };

    ghost view = { λ locked. locked_run locked.kept locked.spans locked.start };

    ghost invariant = { λ locked. IfSome locked.start (IsStartOf J.meaning locked.kept.job)
        × AreDoneIn J.meaning (key_of locked.kept) locked.aside
        × (locked.kept.book ≡ Some locked.spans.book)
        × (locked.spans.noted ≡ spans_kept locked.kept + spans_done locked.aside) };
}

/// Where turns are that were taken in.
pub enum Taken {
    /// Laid aside, since a run is open inside.
    Aside,
    /// With the keeper, and so are all that were laid aside.
    Kept(Remaining),
}

impl<J: Job + Drop> LockedRun<J> {
    /// Of a run that has just begun.
    pub fn new(
        alloc: Global,
        kept: RunKeeper<J>,
        spans: RunSpans,
        start: Option<OpenStart<J>>,
    ) -> LockedRun<J>
        requires start { IfSome start (IsStartOf J.meaning kept.job) }
        requires book { kept.book ≡ Some spans.book }
        requires no_spans { (spans_kept kept ≡ 0) × (spans.noted ≡ 0) }
        ensures { result ≡ locked_run kept spans start }
    {
        LockedRun {
            kept,
            aside: DoneTurns::new(alloc),
            spans,
            start,
        }
    }

    /// Opens a run inside it.
    pub fn open_inside(&mut self, book: &SpanBook) -> RunSpans
        requires { self.old.kept.book ≡ Some (name_of book.now) }
        ensures key { lock_key_of self.new ≡ lock_key_of self.old }
        ensures spans { result ≡ no_spans (name_of book.now) (1 + self.old.spans.depth) }
    {
        book.open(&mut self.spans)
    }

    /// Takes in turns that are done, at least one, with the run inside it that has come back, if one of them is of its
    /// start. A teller told their spans. If an allocation fails all stays as it was, or all is laid aside.
    pub fn take_in(
        &mut self,
        run: &TableRun<J>,
        book: &SpanBook,
        done: &mut DoneTurns<J>,
        returned: &mut Option<RunSpans>,
        teller: &mut Teller,
    ) -> Result<Taken, NoMemory>
        requires run { key_of self.old.kept ≡ run.now }
        requires book { run.now.book ≡ Some (name_of book.now) }
        requires teller { teller.old.book ≡ name_of book.now }
        requires done { AreDoneIn J.meaning run.now done.old }
        requires some { done.old.batch.table ≡ Some run.now.table }
        requires returned { IfSome returned.old
            (ComesInto (name_of book.now) self.old.spans.depth) }
        requires spans { noted_by returned.old ≡ spans_inside done.old }
        ensures key { lock_key_of self.new ≡ lock_key_of self.old }
        ensures takes { IfOk result (TakesTurns J.meaning done.old.batch.fates self.old self.new) }
        ensures told { OnOk result (teller.new ≡ teller_state teller.old.book (teller.old.told + spans_in done.old.batch.fates)) }
        ensures taken { OnOk result (IsNoTurn done.new × (returned.new ≡ None)) }
        ensures err { OnErr result
            ((HasSame done.old done.new × (returned.new ≡ returned.old))
            ⊎ (IsNoTurn done.new × (returned.new ≡ None))) }
        ensures teller { teller.new.book ≡ teller.old.book }
    {
        let count = count_spans(done.batch.fates());
        run.gather_all(&mut self.aside, done)?;
        note_all(book, &mut self.spans, teller, count, returned.take());
        if !self.spans.has_all_back() {
            return Ok(Taken::Aside);
        }
        let left = run.keep(&mut self.kept, &mut self.aside)?;
        Ok(Taken::Kept(left))
    }

    /// The keeper as it is now, for clauses.
    pub fn keeper_now(&self) -> Snapshot<Keeper<J::V>>
        ensures { result.value ≡ self.now.kept.keeper }
    {
        self.kept.keeper_now()
    }
}

// Notes so many spans, which a teller told, and takes a run back that was opened inside this one, if one has come back.
fn note_all(
    book: &SpanBook,
    spans: &mut RunSpans,
    teller: &mut Teller,
    count: u64,
    returned: Option<RunSpans>,
)
    requires spans { spans.old.book ≡ name_of book.now }
    requires teller { teller.old.book ≡ name_of book.now }
    requires returned { IfSome returned (ComesInto (name_of book.now) spans.old.depth) }
    ensures book { spans.new.book ≡ spans.old.book }
    ensures depth { spans.new.depth ≡ spans.old.depth }
    ensures noted { spans.new.noted ≡ spans.old.noted + count + noted_by returned }
    ensures teller { teller.new ≡ teller_state teller.old.book (teller.old.told + count) }
{
    book.note(spans, teller, count);
    if let Some(inner) = returned {
        book.take_back(spans, inner);
    }
}
