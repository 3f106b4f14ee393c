//! What the calls on a programme of tracks mean, and the law over runs of them.
//!
//! Here are the shape of a programme, the six calls as values, their answers and refusals. `specs/` says what each call
//! means and what a history of calls tells of a track. [`law_over_runs`] has no code: what it promises is proved of those
//! definitions, for every counting rule.
#![tactic(auto)]

mod faults;
mod kinds;
mod shapes;
mod theorems;

pub use faults::CallFault;
pub use kinds::{Answer, Call, LAST_TICK, Outcome};
pub use shapes::{MOST_TRACKS, Shape, ShapeFault};
pub use text::Refusal;
pub use theorems::{largest_is_largest, law_over_runs, worked_examples};
