//! Desks, and their books without running anything. There is nothing here but tests.
//!
//! Of the books: whose turn it is, what is refused, what finishing comes to, and callers that ask beside callers that
//! take. Of desks that are served: the same, asks that are cut, and callers that ask beside callers that serve.
//! `desk_trials` has the job, the desks and the workers.
#![tactic(auto)]

#[cfg(test)]
mod book_callers;
#[cfg(test)]
mod book_refusals;
#[cfg(test)]
mod book_turns;
#[cfg(test)]
mod callers;
#[cfg(test)]
mod cuts;
#[cfg(test)]
mod refusals;
#[cfg(test)]
mod served;
