//! What the run of a pipeline comes to, whatever the number of workers.
//!
//! There is no code here but a law (`laws.rt`), the contract of an empty function. `pipe_value` works out what a
//! pipeline of texts comes to, token by token and pipe by pipe, with no journal and no order of tasks but that of the
//! tokens. The law says that each kept run of the pipeline comes to just that: it is fine and is gathered to that
//! value, or it comes to nothing where `pipe_value` does, as where a token never passes or a text is too long for a
//! value. The definitions are in `specs/`, in this order: `PipeValue`, `Laws`; the order of the tokens at each pipe is
//! a law of `pipe_laws`.
#![tactic(auto)]

mod laws;

pub use laws::pipes_come_to_values;
