//! Crews: threads of the caller that work on one run together.
//!
//! A crew has a list of ready releases (`ready_deques`) and a seat for each of its workers. `begin` begins a run of a
//! job (`table_frames`) for all seats. Each seat is entered by a thread of the caller, which works until the run is
//! closed: it takes a release from the list, takes its step, goes on with the first release that the step made and puts
//! the others on the list. A step takes a lock only where releases wait for units of semaphores, or where it opens a
//! run inside its own; what became of its release the worker gathers. Where it finds nothing on the list it gives the
//! run what it has gathered, looks whether all that is left waits for units, and then sleeps until something is pushed.
//! Who gives the last of it gets the closed run, leaves it for the others and closes the list, which wakes all.
//! `finish` hands the run out.
//!
//! # Frames by number
//!
//! What a worker has gathered is of one frame, that of a run or of a run inside it (`FrameWork`), and only what is of
//! that frame may be added. A release that is taken from a list is known by the list's tag alone. So a crew numbers the
//! frames whose releases it puts on the list (`NumberedFrames`, over a vector that only grows). A release on the list
//! has two numbers along, that of its run's outermost frame and that of its own, and the list's tag is the name of that
//! vector. Where two numbers of one vector are equal, they are of one frame. A worker steps the releases that have the
//! number of its seat's run. There are others only after a run for which an allocation failed, and such a crew takes no
//! further run.
//!
//! A worker that steps a release of another frame than that of what it has gathered brings this first (`turn_to`). A
//! frame gets a further number where it goes on after a run inside it. So a worker may bring where it need not, and
//! never gathers what is of two frames.
//!
//! # The run that is handed out
//!
//! What the seats at a run share is a `CrewRun`, made by `begin`: under a `KeyedLock` lies the run once it is closed,
//! with the book of a register (`tickets`). The job of the run is in the lock's key, and the run's number is one of a
//! run of that job. A worker leaves a closed run with the `CrewRun` of its seat. So the run that is found with a
//! `CrewRun` is of its job.
//!
//! An `enter` that finds the run there takes a ticket, and answers Ok. The value under the lock keeps that tickets are
//! out only where the run is there. So a seat with a ticket knows that the run is still there, whatever others did
//! meanwhile, until `finish` redeems a ticket and takes the run away. It takes the value under the lock along and never
//! puts it back.
//!
//! If an allocation fails in one seat, a release may be lost, and the run is never closed. That seat closes the list,
//! and all seats answer `NoMemory`, since none finds the run. Such a crew takes no further run. If the run is closed
//! all the same, only the seat in which the allocation failed answers so.
//!
//! # The spans that watchers are told
//!
//! A worker tells its seat's watcher each span as soon as it has ended: after the step that ended it, or after the
//! bringing by which a run inside a frame is over. A run has a book of its spans (`span_book`), and each seat at it has
//! one of the book's tellers. As a worker brings what it has gathered its teller counts the spans of it. So the watcher
//! was told the spans that the teller counted and those of what is gathered and not brought yet, and in the end nothing
//! is left to be brought. The closed run comes with the book's tally. `finish` collects the tellers of the seats that
//! have found the run closed, and where these are all, they counted as many spans as the run has.
//!
//! # What the layer above may know
//!
//! A seat is its watcher and a `SeatState`, a crew a `CrewState` (`specs/Seats.antt`, `specs/Crews.antt`). Each call
//! says what becomes of the state of each seat, `enter` how many spans its watcher was told, and `finish` that the run
//! may be kept, that a seat was at it, and that the seats' spans are all of it. It is not proved that a run is ever
//! closed, or that workers wake or work side by side.
#![tactic(auto)]

mod attendance;
mod crew;
mod crew_run;
mod crew_runner;
mod frame_numbers;
mod item;
mod list;
mod run_slot;
mod seat;
mod seats;
mod station;
mod steps;
mod work;

pub use crew::{Crew, CrewParts};
pub use crew_runner::{EntersEach, run_by_seats, watchers_of};
pub use seat::WorkerSeat;
