//! The exponential histogram of one track, in a stretch of entries that the caller lends.
//!
//! A stretch holds the buckets newest first and zero entries after them. A [`Histogram`] is what the track keeps beside it:
//! `enter` puts arrivals in, `count` says what a [`Window`] holds at least and at most, and `is_sound` tells a stretch that
//! insertion can have left from any other. [`clear`] empties a stretch. [`Settings`] say how fine the histogram is and how
//! long its longest window.
#![tactic(auto)]

mod clearing;
mod exponent;
mod inserting;
mod levels;
mod settings;
mod surveys;
mod track;
mod window;

pub use clearing::clear;
pub use exponent::largest_exponent;
pub use settings::{HIGHEST_CAP, LONGEST_WINDOW, MOST_K, Settings, SettingsFault};
pub use surveys::{Figures, Survey};
pub use theory::{Entry, NO_BUCKET};
pub use track::{EnterFault, Histogram, Standing};
pub use window::Window;
