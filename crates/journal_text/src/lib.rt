//! The journal of a run, written as text and read again.
//!
//! The layer above knows one function, `journal_text` of `specs/JournalText.antt`: the text of a journal in a version.
//! What is printed is that text in version 2, and what is read is the journal of which the bytes are the text in one of
//! the two versions. Where they are no text, the first bad line is named (`IsBadLine`). No two journals have one text.
//!
//! `specs/inside/Reading.antt` says what each step of the reading makes of the bytes; `proofs/` shows that the steps
//! read just what is written.
#![tactic(auto)]

mod fields;
mod laws;
mod line_fault;
mod lines;
mod lists;
mod printer;
mod reader;
mod version;
mod words;

pub use laws::{one_bad_line, one_journal};
pub use printer::print_journal;
pub use reader::{JournalError, read_journal};
pub use version::Version;
