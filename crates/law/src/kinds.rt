//! The calls as values, and what they get.
use super::faults::CallFault;

/// The last tick: a tick is one frame of the screening's clock, from 0 to 2^40 − 1.
pub const LAST_TICK: u64 = 1_099_511_627_775;

/// One of the six calls on a programme, with its numbers as they were handed in.
#[derive(Clone, Copy, Debug, PartialEq, Eq)]
pub enum Call<'a> {
    Opening {
        track: u64,
        tick: u64,
        k: u64,
        window: u64,
        cap: u64,
    },
    Line {
        track: u64,
        tick: u64,
        text: &'a [u8],
    },
    Question {
        track: u64,
        tick: u64,
        window: u64,
    },
    Total {
        tick: u64,
        window: u64,
    },
    Retiring {
        track: u64,
    },
    Ending,
}

/// What a question or a total is told: the true sum is from `low` to `high`, k × (high − low) is at most twice the true
/// sum, and `buckets` are kept. Of a total, k is the smallest among the open tracks, and 0 without one.
#[derive(Clone, Copy, Debug, PartialEq, Eq)]
pub struct Answer {
    pub low: u64,
    pub high: u64,
    /// Not an `Option`: by the rule of totals it is 0 without an open track.
    pub k: u64,
    pub buckets: u64,
}

/// What a call gets: `Ok(None)` where it was accepted and answers nothing, `Ok(Some(answer))` where it was accepted and this is
/// its answer, and `Err(fault)` where it was refused, and programme and slab are as they were.
pub type Outcome = Result<Option<Answer>, CallFault>;
