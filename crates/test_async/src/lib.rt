//! Books of async tasks: what a book of sums comes to, what is refused, and threads that add and step side by side.
//! There is nothing here but tests. `async_trials` has the work and the threads.
#![tactic(auto)]

#[cfg(test)]
mod alone;
#[cfg(test)]
mod judged;
#[cfg(test)]
mod refusals;
#[cfg(test)]
mod sums;
#[cfg(test)]
mod two_callers;
