// What a worker has done.
ghost use Rattle.std.specs.Prelude.{◌≡◌, [], None, IfOk, OnOk};
ghost use Rattle.table_frames.specs.Frames.{backlog_view};

use crate::frame_numbers::FrameNumber;
use outside_io::NoMemory;
use run_frame::Job;
use span_book::Teller;
use span_profile::Watch;
use std::alloc::Global;
use table_frames::{Backlog, State};

/// What a worker has done in a frame and not brought yet, with a number of the frame where it has one, and the teller
/// of the spans that it has brought.
#[derive(Drop)]
pub struct FrameWork<J: Job + Drop> {
    pub backlog: Backlog<J>,
    pub frame: Option<FrameNumber<J>>,
    pub teller: Teller,
}

impl<J: Job + Drop> FrameWork<J> {
    ghost use Rattle.worker_seat.specs.inside.Works.{TellsBringing, TellsNewest, TellsStep};

    /// Nothing.
    pub fn new(alloc: Global, teller: Teller) -> FrameWork<J>
        ensures backlog { result.backlog ≡ backlog_view [] [] }
        ensures frame { result.frame ≡ None }
        ensures teller { result.teller ≡ teller }
    {
        FrameWork {
            backlog: Backlog::new(alloc),
            frame: None,
            teller,
        }
    }

    /// Tells a watcher the span that a step has ended, if it has ended one, by what is with the run then.
    pub fn tell_step<X: Watch>(&self, state: &State<J>, watcher: &mut X) -> Result<(), NoMemory>
        ensures { OnOk result
            (TellsStep X.told state.now self.now.backlog watcher.old watcher.new) }
    {
        match state {
            State::Went => self.tell_newest(watcher),
            _ => Ok(()),
        }
    }

    /// Tells a watcher the span that ended in the frame around as a run inside it was brought, if that is over, by what
    /// is with the run then.
    pub fn tell_bringing<X: Watch>(&self, state: &State<J>, watcher: &mut X) -> Result<(), NoMemory>
        ensures { OnOk result
            (TellsBringing X.told state.now self.now.backlog watcher.old watcher.new) }
    {
        match state {
            State::Resumed(_) => self.tell_newest(watcher),
            _ => Ok(()),
        }
    }

    // Tells a watcher the span that the newest of it ended, if it ended one.
    fn tell_newest<X: Watch>(&self, watcher: &mut X) -> Result<(), NoMemory>
        ensures { OnOk result (TellsNewest X.told self.now.backlog watcher.old watcher.new) }
    {
        match self.backlog.newest_span() {
            Some(span) => watcher.span(span),
            None => Ok(()),
        }
    }

    /// The teller, once all is brought. If something is left after the list was closed, an allocation has failed in
    /// another seat.
    pub fn into_teller(self) -> Result<Teller, NoMemory>
        ensures teller { IfOk result (λ teller. teller ≡ self.teller) }
        ensures none { OnOk result (self.backlog.fates ≡ []) }
    {
        let FrameWork {
            backlog,
            teller,
            ..
        } = self;
        if backlog.is_brought() {
            return Ok(teller);
        }
        Err(NoMemory)
    }
}
