//! What a command line asks for.
//!
//! The first argument names a command of `flow`, and `clap` reads those after it, by one simple command for each of
//! `flow`'s. The layer above sees what is asked for as plain data; which command lines ask for it is in
//! `specs/Requests.antt`: the definitions whose names end in `_app`, as `run_app`, are the commands that `clap` reads
//! by, and those whose names end in `_in`, as `run_in`, what their matches come to. The `RunOptions` of `run` and
//! `profile` are read in one place.
#![tactic(auto)]

mod check;
mod commands;
mod count;
mod generate;
mod judge;
mod matches;
mod numbers;
mod options;
mod profile;
mod request;
mod rounds;
mod run;
mod upgrade;

pub use check::Check;
pub use count::Count;
pub use generate::Generate;
pub use judge::Judge;
pub use numbers::{
    DEFAULT_GRAIN, DEFAULT_LIMIT, DEFAULT_WORKERS, GREATEST_GRAIN, GREATEST_LAYERS, GREATEST_LIMIT,
    GREATEST_TIMES, GREATEST_WORKERS,
};
pub use options::RunOptions;
pub use profile::Profile;
pub use request::{ArgumentsError, Request, read_arguments};
pub use rounds::Rounds;
pub use run::Run;
pub use upgrade::Upgrade;
