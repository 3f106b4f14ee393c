//! What a pass over the buckets of a stretch tells of a window.
ghost use Rattle.std.specs.Prelude.{◌≡◌, ◌^◌, ◌<◌};
ghost use Rattle.std.specs.List.{All, sum_by};
ghost use Rattle.theory.specs.Arrivals.{Falling};
ghost use Rattle.theory.specs.Buckets.{size, total, within, stamps};
ghost use Rattle.histogram.specs.Surveys.{lives, told, Small};

use super::window::Window;
use theory::Entry;

/// Of some buckets: how many there are, the sum of their sizes, and the size of the oldest.
#[derive(Clone, Copy, PartialEq, Eq, Debug)]
pub struct Survey {
    pub buckets: usize,
    pub sizes: u64,
    /// 0 without any, as the definition `oldest` of crate `theory` has it.
    pub oldest: u64,
}

/// What a window holds: at least `low` arrivals, and at most `high`.
#[derive(Clone, Copy, PartialEq, Eq, Debug)]
pub struct Figures {
    pub low: u64,
    pub high: u64,
}

/// How many arrivals a bucket stands for. No public method of `Entry`: an entry holds any exponent, and no public call may
/// ask for anything.
fn size(bucket: &Entry) -> u64
    requires small { Small bucket.now }
    ensures value { result ≡ size bucket.now }
{
    1 << bucket.exponent
}

/// Whether the oldest bucket is in the window.
pub(crate) fn oldest_lives(buckets: &[Entry], window: Window) -> bool
    ensures value { result ≡ lives window.ticks window.at buckets.now }
{
    buckets.last().is_none_or(|last| window.holds(last.stamp))
}

/// Buckets whose sizes fit a word.
#[derive(Clone, Copy)]
pub(crate) struct Buckets<'a> {
    pub(crate) entries: &'a [Entry],
    ghost small: { All Small entries.now },
}

impl Buckets<'_> {
    /// The sum of the sizes.
    fn sizes(&self) -> u64
        requires fits { sum_by size self.now.entries.now < 2 ^ 64 }
        ensures value { result ≡ sum_by size self.now.entries.now }
    {
        self.entries.iter().map(size).sum()
    }

    /// Those in the window, where all have `sizes` in all. Those outside it are the last.
    pub(crate) fn windowed(&self, sizes: u64, window: Window) -> Survey
        requires falling { Falling (stamps self.now.entries.now) }
        requires sum { sizes ≡ total self.now.entries.now }
        ensures value { result ≡ told (within window.ticks window.at self.now.entries.now) }
    {
        let kept = self
            .entries
            .partition_point(|bucket| window.holds(bucket.stamp));
        let (held, expired) = self.entries.split_at(kept);
        let expired = Buckets { entries: expired };
        Survey {
            buckets: held.len(),
            sizes: sizes - expired.sizes(),
            oldest: held.last().map_or(0, size),
        }
    }
}
