//! A judge of journals, made by anybody: which rule an entry breaks, if any.
//!
//! The judge, a trace checker, goes over a given journal and keeps what the rules count in it, so that an entry costs
//! time in proportion to the edges and semaphores of its task. Where an entry breaks several rules, the first one in a
//! fixed order is reported.
//!
//! - `position`, with `marks` and `choice`, says which rule an entry breaks after a journal, by the counts.
//! - `walk` checks each entry and counts it.
//!
//! The layer above sees a position as a `MachineState`: the net, the limit of starts and the journal. The rules of
//! journals are those of `journal_rules`. `specs/` has what the calls do: `Refusal.antt` says which break is reported
//! of an entry, `Verdict.antt` what the judge says. Invariants are in `specs/inside/`.
#![tactic(auto)]

mod choice;
mod laws;
mod marks;
mod position;
mod verdict;
mod walk;

pub use laws::one_refusal_or_none;
pub use marks::Marks;
pub use position::Position;
pub use verdict::{Break, Verdict};
pub use walk::judge;
