//! What a started task finds at its edges.
//!
//! The layer above sees an `Ins` as the list of its parts (`parts_of`) with its room (`room_of`), and a part as
//! what is found there (`InputValue`). The definitions are in `specs/Ins.antt`.
#![tactic(auto)]

mod ins;

pub use ins::{Given, Ins};
