//! Runs over a table of atomic words, by one thread and by many.
//!
//! A `Frame` is a run of a job. What is left to do in it is handed out as `Release`s, and whoever has one may take its
//! step on any thread, side by side with the others: it is taken from its tokens to the releases that follow, through
//! its units, admission, Start, the task's work, and End, Fault or Drop (`table_runs`). Before a step draws the place
//! of an End it has all memory that it needs from there on.
//!
//! A release that finds no unit of a semaphore is parked (`semaphore_turns`), and wakes up among the releases that a
//! later step makes. A step takes the lock of what is parked only where units are wanted or came back, and the lock of
//! its frame's keeper only where it opens a run inside the frame. Where a worker has nothing else to do, and has
//! brought what it did, `Frame::settle` looks whether all that is left is parked.
//!
//! What became of the releases is for the frame's keeper, which stands behind a lock. A worker needn't take that lock
//! for each step: its `Backlog` has what its steps have done, and `Frame::bring` hands it to the keeper, at the latest
//! where the worker has nothing else to do. While something is in a backlog the run isn't over. Whoever brings the last
//! of it gets the run, with its journal and values.
//!
//! A task's work may be a job of its own. Its start stays open then, and a frame inside the task's frame runs that job.
//! The step hands out the first releases of that frame and takes none of its steps; where there are none, the inner run
//! is over at once, and the step goes on. The inner frame holds the frame around it, and under its lock, beside its
//! keeper, the start. Nobody waits for it: whoever brings its last turn goes on with the start in the same call. The
//! run is gathered into the value of the start's End, or it is a Fault if the run was cut short. What comes of that is
//! in the frame around, and its backlog is brought in turn; so runs that are over at several levels are closed one by
//! one, and a caller has one lock at a time. A limit, a fault or a want of units ends the inner run alone.
//!
//! # The spans
//!
//! A frame and all inside it have one book of spans (`span_book`). Whoever takes steps is a `Teller` of the book, and
//! may tell each span, a start with its End or Fault, as soon as a step has ended it (`Backlog::newest_span`). A
//! bringing notes the spans of the backlog: the teller's number and that of the frame rise by as many. Under the
//! frame's lock it is known how many runs were opened inside it and came back, with what they noted. While one is open,
//! what is brought is laid aside there (`LockedRun`). So when the outermost run is over, its frame has noted as many
//! spans as the run has, with those of the runs inside it, and nothing is noted elsewhere: together the tellers told as
//! many.
//!
//! `run_alone` runs a job on the caller's thread by the same steps, with the keepers in hand and without a book: it
//! goes on with the innermost run.
//!
//! # The parts
//!
//! A frame has a `TableRun`, which is a job with the table of its net; what becomes of one release there is the affair
//! of `table_runs`. A `FrameBatch` is the part of a backlog that is brought: turns of a frame that are done, with the
//! account of the run inside it that has come back, if one has. A `LockedRun` is what is under a frame's lock, its
//! `RunKeeper` with the account of its spans and the start whose work it is. A `Level` is a run of
//! `run_alone` with those around it.
//!
//! # What the layer above may know
//!
//! The layer above sees a release as the keys of its frame and of the frames around it, its task and its cause
//! (`specs/Frames.antt`). The last of these frames has the job of the whole run. What a beginning and a step come to is
//! in `specs/Steps.antt`: which fate a release came to, that its job allows it, and which releases it made, or that it
//! is parked. Which edges made none is known to the table alone. What a bringing and a settling come to is in
//! `specs/BacklogResults.antt`: the run is over exactly where the keeper found one live turn, and it is given out, with
//! the account of its spans, where its frame is in no other.
#![tactic(auto)]

mod alone;
mod backlog;
mod closed_run;
mod frame;
mod frame_batch;
mod frame_opening;
mod frame_steps;
mod level;
mod locked_run;
mod over;
mod release;
mod step_results;

pub use alone::run_alone;
pub use backlog::Backlog;
pub use closed_run::ClosedRun;
pub use frame::Frame;
pub use release::{HeldBy, Release};
pub use step_results::{Brought, State, Stepped};
