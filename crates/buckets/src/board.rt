//! The histogram of the counts so far, as it lies in memory.
ghost use Rattle.std.specs.Prelude.{◌≡◌, ◌*◌, ◌≤◌, true, length, take};
ghost use Rattle.theory.specs.Buckets.{total};
ghost use Rattle.histogram.specs.Histogram.{is_sound};

use crate::report::{Refusal, Sizes, Summary};
use histogram::{Entry, HIGHEST_CAP, Histogram, LONGEST_WINDOW, NO_BUCKET, Settings};

/// The largest count of a line.
pub const MOST_COUNT: u64 = 960;

/// The most entries that any settings ask for.
pub const MOST_ENTRIES: usize = 460;

/// Counts of arrivals at the ticks 1, 2, 3 and so on, in buckets. None of them expires, so that the buckets stand for all.
#[derive(Drop)]
pub struct Board {
    pub(crate) histogram: Histogram,
    pub(crate) arrivals: u64,
    /// The stretch of the histogram, which says how many of them are buckets: it asks for zero entries after these.
    pub(crate) entries: [Entry; MOST_ENTRIES],
    ghost window: { histogram.settings.window ≡ 1048576 },
    ghost cap: { histogram.settings.cap ≡ 1024 },
    ghost ticks: { histogram.standing.tick ≤ 1048575 },
    ghost counts: { arrivals ≤ 960 * histogram.standing.tick },
    ghost whole: { length entries ≡ 460 },
    ghost sound: { is_sound histogram entries ≡ true },
    ghost sum: { total (take histogram.standing.buckets entries) ≡ arrivals },
}

impl Board {
    ghost use Rattle.std.specs.Prelude.{◌≡◌, ◌≤◌};
    ghost use Rattle.buckets.specs.Counts.{Added, Begun, board_buckets};

    /// A board without arrivals; none where k is not even or not from 2 to 32.
    pub fn new(k: u64) -> Option<Board>
        ensures value { Begun k result }
    {
        let settings = Settings::new(k, LONGEST_WINDOW, HIGHEST_CAP).ok()?;
        let histogram = Histogram::new(settings, 0);
        Some(Board {
            histogram,
            arrivals: 0,
            entries: [NO_BUCKET; MOST_ENTRIES],
        })
    }

    /// The buckets, newest first.
    pub fn buckets(&self) -> &[Entry]
        ensures value { result.now ≡ board_buckets self.now }
    {
        &self.entries[..self.histogram.standing.buckets]
    }

    /// Their sizes, to be printed.
    pub(crate) fn sizes(&self) -> Sizes<'_>
        ensures value { result.buckets.now ≡ board_buckets self.now }
    {
        Sizes {
            buckets: self.buckets(),
        }
    }

    /// How many arrivals stand in how many buckets.
    pub(crate) fn summary(&self) -> Summary
        ensures arrivals { result.arrivals ≡ self.now.arrivals }
        ensures buckets { result.buckets ≡ self.now.histogram.standing.buckets }
    {
        Summary {
            arrivals: self.arrivals,
            buckets: self.histogram.standing.buckets,
        }
    }

    /// Adds a count of arrivals at the next tick, if one is left.
    pub(crate) fn add(&mut self, count: u64) -> Result<(), Refusal>
        requires small { count ≤ 960 }
        ensures after { Added count self.old result self.new }
    {
        let tick = self.histogram.standing.tick + 1;
        if tick == LONGEST_WINDOW {
            return Err(Refusal::NoTick);
        }
        self.histogram
            .enter(&mut self.entries, tick, count)
            .unwrap();
        self.arrivals += count;
        Ok(())
    }
}
