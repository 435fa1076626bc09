//! The graphs of a file as its JSON has them, before the names in them are looked up.
//!
//! `read_file` reads the fields of a file in their order, and gives its graphs, or the first field that refuses. The
//! layer above knows them as rows (`draft_rows`, `file_rows` in `specs/inside/Reading.antt`), and what was read by
//! `file_in` in `specs/FileText.antt`. `Steps` says what becomes of a walk where a step refuses, `Contents` what fields
//! may hold, `Fields` how an object's fields are found and refused, and `OpRows` has a row for each operation;
//! `inside/Reading` says what a step of the reader answers, which may also find no memory.
#![tactic(auto)]

mod bad_fields;
mod contents;
mod draft;
mod fields;
mod file;
mod file_op;
mod ops;
mod pipes;
mod refusals;
mod scopes;
mod semaphores;
mod tasks;
mod unknown;

pub use bad_fields::{no_such_name, repeated};
pub use draft::{Draft, FileDraft, FileTask, NamedTask};
pub use file::read_file;
pub use file_op::FileOp;
pub use refusals::{GraphError, Kind};
pub use scopes::{Scope, graph_spot, sem_spot, task_spot, u32_of};
pub use tasks::{puts_field, takes_field};
