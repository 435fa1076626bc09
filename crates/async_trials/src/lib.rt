//! Work of sums, and books of async tasks to which some threads add such work while others run it. They are no part of
//! a program: they serve tests of books and measurements.
#![tactic(auto)]

mod add_to;
mod crowd_runs;
mod crowds;

pub use add_to::{AddTo, Refused};
pub use crowd_runs::run_of_two_callers;
pub use crowds::{CallerAdds, Crowd, Side, add_together, step_together, work_together};
