//! Sample folds, and tests of folds by static chunks and by drawn ones.
//!
//! `samples.rt` has a sum, a transform and a for-each. A transform and a for-each are folds whose join is
//! concatenation: the contracts of `doubles` and `visits` say that what is put together is the list of what is done
//! at each index, in order.
#![tactic(auto)]

#[cfg(test)]
mod drawn;
#[cfg(test)]
mod gates;
mod listings;
mod samples;
#[cfg(test)]
mod static_chunks;

pub use listings::{doubles, visits};
pub use samples::{Doubles, Sum, Visits};
