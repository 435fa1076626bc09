// How frames begin: in no other, and inside one in place of the work of a start there.
ghost use Rattle.std.specs.Prelude.{◌≡◌, ◌↔◌, ◌<◌, ◌+◌, ◌∷◌, [], None, Some, IfOk, map};
ghost use Rattle.std.specs.Arc.{arc_value};

use super::closed_run::ClosedRun;
use super::frame::Frame;
use super::locked_run::LockedRun;
use super::release::{Release, ReleaseRoom};
use super::step_results::{State, Stepped};
use outside_io::NoMemory;
use run_frame::Job;
use semaphore_turns::ReadyTurn;
use span_book::{SpanBook, Tally};
use std::alloc::Global;
use std::sync::{Arc, Wait};
use table_runs::{Begun, InnerBegun, OpenStart, TableRun};

impl<J: Job + Drop> Frame<J> {
    ghost use Rattle.table_frames.specs.Frames.{AtFrame, release_in};
    ghost use Rattle.span_book.specs.SpanBooks.{name_of, tally_state};
    ghost use Rattle.table_frames.specs.Steps.{IsClosed, BeginsFrame};
    ghost use Rattle.table_runs.specs.Begins.{Begins};
    ghost use Rattle.table_runs.specs.OpenStarts.{IsStartOf};
    ghost use Rattle.table_frames.specs.inside.TriedReleases.{IsInnerAt};
    ghost use Rattle.table_frames.specs.inside.Openings.{OpensFrame};

    /// Begins a run of a job, with its first releases by rising task: of each source task, and of each task that has
    /// strong in-edges, all of which begin with a token. If there is none, the run is complete as it is, and closed.
    /// Its spans are in this book, whose tellers are dealt.
    pub fn begin(
        alloc: Global,
        job: Arc<J>,
        book: Arc<SpanBook>,
        spans: Tally,
    ) -> Result<Stepped<J>, NoMemory>
        requires { spans ≡ tally_state (name_of (arc_value book)) 0 0 0 0 }
        ensures begins { IfOk result
            (BeginsFrame J.meaning (arc_value job) (name_of (arc_value book))) }
        ensures closed { IfOk result
            (λ stepped. IsClosed stepped.state ↔ (stepped.released.items ≡ [])) }
    {
        let Begun {
            run,
            mut fresh,
            kept,
        } = TableRun::begin(alloc, job, Some(book))?;
        let count = fresh.len();
        if count == 0 {
            return Ok(Stepped {
                released: Vec::new(alloc),
                state: State::Closed(ClosedRun {
                    run: kept.finish()?,
                    spans,
                }),
            });
        }
        let locked = LockedRun::new(alloc, kept, spans.begin(), None);
        let frame = Frame::new(alloc, run, locked, None)?;
        let room = ReleaseRoom::new(alloc, &frame, count)?;
        Ok(Stepped {
            released: room.hand_out(frame, &mut fresh),
            state: State::Went,
        })
    }

    /// A run inside the frame has begun in place of the work of a release.
    pub(crate) fn open<R: Wait>(
        rt: &R,
        frame: Arc<Frame<J>>,
        inner: InnerBegun<J>,
    ) -> Result<Stepped<J>, NoMemory>
        requires { IsInnerAt J.meaning (arc_value frame) inner }
        ensures { IfOk result (OpensFrame J.meaning (arc_value frame) inner) }
    {
        let InnerBegun {
            begun,
            start,
            again,
        } = inner;
        let mut released = Vec::with_capacity(frame.heap(), 1)?;
        let first = Frame::first_inside(rt, &frame, begun, start)?;
        let Some(again) = again else {
            return Ok(Stepped {
                released,
                state: State::Inner(first),
            });
        };
        let ready = ReadyTurn::fresh(again);
        released.push_reserved(Release { frame, ready });
        Ok(Stepped {
            released,
            state: State::Inner(first),
        })
    }

    // The first releases of a run that has begun inside a frame.
    fn first_inside<R: Wait>(
        rt: &R,
        frame: &Arc<Frame<J>>,
        begun: Begun<J>,
        start: OpenStart<J>,
    ) -> Result<Vec<Release<J>>, NoMemory>
        requires start { IsStartOf J.meaning begun.run.job start }
        requires frame { AtFrame (arc_value frame.now) (λ key. start.frame ≡ key) }
        requires begins { Begins J.meaning begun.run.job begun }
        requires book { begun.run.book ≡ start.frame.book }
        ensures { IfOk result (λ released. released.items
            ≡ map (release_in (begun.run ∷ arc_value frame.now)) begun.fresh.items) }
    {
        let alloc = frame.heap();
        let Begun {
            run,
            mut fresh,
            kept,
        } = begun;
        let parent = Arc::try_clone(frame)?;
        let locked = LockedRun::new(alloc, kept, frame.open_inside(rt), Some(start));
        let inner = Frame::new(alloc, run, locked, Some(parent))?;
        let room = ReleaseRoom::new(alloc, &inner, fresh.len())?;
        Ok(room.hand_out(inner, &mut fresh))
    }
}
