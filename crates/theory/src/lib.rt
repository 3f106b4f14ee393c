//! The exponential histogram of Datar, Gionis, Indyk and Motwani (2002): its buckets, its definitions and its theorems.
//!
//! Arrivals come one by one, each with a tick. A histogram keeps buckets instead of them: a bucket of exponent e stands
//! for 2^e arrivals that came one after another, and has the tick of the newest as its stamp. `specs/` defines what is
//! done with buckets. The functions here have no code: what they promise is proved of those definitions.
#![tactic(auto)]

mod entries;
mod theorems;

pub use entries::{Entry, NO_BUCKET};
pub use theorems::{
    arrivals_in_window, batch_is_repeated, brackets_truth, dropping_keeps, dropping_sound,
    empty_keeps, few_buckets, insertion_keeps, insertion_sound, never_full,
};
