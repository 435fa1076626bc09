//! The table of a profile: what each task of a graph did in some runs of it, and how that is written.
//!
//! The layer above sees a `Table` as its rows, with how many entries the journals have that were added (`Profile`). It
//! knows them as a function of the list of these journals (`profile_of` in `specs/Profiles.antt`), and what is written
//! as a function of the rows (`profile_text` in `specs/ProfileText.antt`). Whoever adds the journals of runs one after
//! another finds the lemmas for it in `proofs/ProfileLemmas.antt`: `profile_of_more` for the loop, `row_for_each_task`
//! for the number of rows.
#![tactic(auto)]

mod entry_task;
mod printer;
mod row;
mod table;

pub use printer::print_table;
pub use row::TableRow;
pub use table::Table;
