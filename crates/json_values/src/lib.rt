//! Values of JSON whose strings lie in the text that they were read from.
//!
//! A text has the value that `serde_json` reads from it: `Value::from_slice` is its `Value::from_slice`, by the same
//! definition (`read` in its `specs/Read.antt`), and each look-up gives what `serde_json`'s gives. A string without an
//! escape lies in the text, and one with an escape in the reader's `Scratch`. An object has its members in the order of
//! the text. What it stands for, each key once and in order, is said by `view` in `specs/inside/View.antt`.
#![tactic(auto)]

mod number;
mod read;
mod value;

pub use read::Unread;
pub use value::Value;
