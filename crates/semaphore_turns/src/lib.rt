//! What the turns of a table do with units of semaphores, from before their start to after their end.
//!
//! A net says of each task of which semaphores it takes a unit, and of which it puts one. A unit may be taken by one
//! task and put by another. `join_tables` has a call for each step on one unit; this crate does what a task's lists ask
//! for.
//!
//! # From release to end
//!
//! Before its start a turn takes a unit of each semaphore that its task takes, the least first (`take_units`). So two
//! turns that need the same two semaphores never hold one each and wait for the other. After its Start it credits what
//! its task takes and doesn't put, so that another start may put it (`credit_units`). When its work is done it claims
//! what its task puts and doesn't take (`claim_units`); a claim is refused where no unit is out that it could give
//! back. After its End it gives a unit back for each semaphore that its task puts (`return_units`).
//!
//! # Parking
//!
//! A turn that finds no unit doesn't wait: it is parked (`park_turn`), and its worker goes on. The yard's protocol
//! (`semaphore_park`) is kept: under the yard's lock the unit is looked for again, and a unit is given back before the
//! lock is taken to wake (`wake_turns`). A parked turn holds no unit. So what a turn had taken before the semaphore
//! without a unit is put back, and what is parked there is woken in its place.
//!
//! A turn that is woken has the unit not yet: another may take it first, and then the turn is parked again. It may also
//! find no unit of another semaphore before it comes to this one. Then it is parked for that, and the next that waits
//! for this one is woken in its place; else a unit could lie there while others wait for it.
//!
//! # What is parked when nothing else is left
//!
//! Units may be gone for good, after a Fault or where no task gives them back. Then in the end all live turns of the
//! run are parked. `settle` finds that out: a `Rest` of `join_tables` takes in what is parked, and compares their
//! number with the live turns. If a start has faulted, all are dropped for that. Else the first that is parked on a
//! semaphore with a unit goes on, and if there is none, all are dropped for want of a unit, each for that on which it
//! was parked. While there are other live turns `settle` takes in one turn alone, so that its time doesn't depend on
//! how many are parked.
//!
//! # What the layer above may know
//!
//! `specs/HeldUnits.antt` says what a turn holds, `specs/UnitClaims.antt` what a start has claimed,
//! `specs/WaitingTurns.antt` what it means to wait in a yard, `specs/WokenTurns.antt` which releases are woken,
//! `specs/YardTurns.antt` what is parked before and after, and `specs/Settlements.antt` what becomes of the parked
//! ones. That a turn is woken in time isn't proved.
#![tactic(auto)]

mod claims;
mod credits;
mod parked_turn;
mod parks;
mod ready_kind;
mod ready_turn;
mod rest_turns;
mod returns;
mod rows;
mod settlement;
mod takes;
mod wakes;

pub use claims::{ClaimedUnits, claim_units};
pub use credits::credit_units;
pub use parked_turn::{ParkedTurn, TurnYard};
pub use parks::{Parking, park_turn};
pub use ready_kind::ReadyKind;
pub use ready_turn::ReadyTurn;
pub use returns::return_units;
pub use rows::{puts_of, takes_of};
pub use settlement::{Settled, settle};
pub use takes::{TakenUnits, put_back_units, take_units};
pub use wakes::wake_turns;
