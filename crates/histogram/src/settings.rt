//! What a track's histogram is made for, and what that asks of a stretch.
ghost use Rattle.std.specs.Prelude.{◌+◌, ◌-◌, ◌*◌, ◌^◌, ◌<◌, ◌≤◌};

use super::exponent::exponent_for;

/// The largest k. It is even, and l = k ÷ 2 buckets of a size are kept at least.
pub const MOST_K: u64 = 32;

/// The longest window N, in ticks.
pub const LONGEST_WINDOW: u64 = 1_048_576;

/// The highest cap R on the arrivals at one tick.
pub const HIGHEST_CAP: u64 = 1_024;

/// Why there are no such settings. The first that holds is told.
#[derive(Clone, Copy, PartialEq, Eq, Debug)]
pub enum SettingsFault {
    /// k is not even, or not from 2 to 32.
    K,
    /// N is not from 1 to 1,048,576.
    Window,
    /// R is not from 1 to 1,024.
    Cap,
}

/// l = k ÷ 2, the longest window N, the cap R for one tick, and the largest exponent r that N × R arrivals can need.
/// Settings outside the limits do not exist.
#[derive(Clone, Copy, PartialEq, Eq, Debug)]
pub struct Settings {
    pub half: u64,
    pub window: u64,
    pub cap: u64,
    pub top: u64,
    ghost some: { 1 ≤ half },
    ghost few: { half ≤ 16 },
    ghost opens: { 1 ≤ window },
    ghost closes: { window ≤ 1048576 },
    ghost takes: { 1 ≤ cap },
    ghost fills: { cap ≤ 1024 },
    ghost small: { top ≤ 30 },
    ghost below: { half * (2 ^ top - 1) < window * cap },
    ghost last: { window * cap ≤ half * (2 ^ (top + 1) - 1) },
}

impl Settings {
    ghost use Rattle.std.specs.Prelude.{◌≡◌, nat_le};
    ghost use Rattle.theory.specs.Buckets.{closing_figure};
    ghost use Rattle.histogram.specs.Settings.{Made, most_buckets, room};

    /// The settings of k, N and R.
    pub fn new(k: u64, window: u64, cap: u64) -> Result<Settings, SettingsFault>
        ensures value { Made k window cap result }
    {
        if k % 2 != 0 || !(2..=MOST_K).contains(&k) {
            return Err(SettingsFault::K);
        }
        if !(1..=LONGEST_WINDOW).contains(&window) {
            return Err(SettingsFault::Window);
        }
        if !(1..=HIGHEST_CAP).contains(&cap) {
            return Err(SettingsFault::Cap);
        }
        let half = k / 2;
        let top = u64::from(exponent_for(half, window * cap));
        Ok(Settings {
            half,
            window,
            cap,
            top,
        })
    }

    /// The most buckets that there can be: l + 1 of each exponent up to r.
    pub fn most_buckets(&self) -> usize
        ensures value { result ≡ most_buckets self.now.half self.now.top }
    {
        // By casts: `usize` has no `From<u64>`, and the check proves that they lose nothing.
        (self.half as usize + 1) * (self.top as usize + 1)
    }

    /// How many entries a stretch must have: (l + 1) × (r + 1) + 1.
    pub fn room(&self) -> usize
        ensures value { result ≡ room self.now.half self.now.top }
    {
        self.most_buckets() + 1
    }

    /// The most that the buckets can stand for: (l + 1) × (2^(r + 1) − 1).
    pub fn closing_figure(&self) -> u64
        ensures value { result ≡ closing_figure self.now.half self.now.top }
    {
        (self.half + 1) * ((1 << (self.top + 1)) - 1)
    }

    /// Whether buckets of `sizes` in all and `arrivals` more stay within the closing figure.
    pub fn fits(&self, sizes: u64, arrivals: u64) -> bool
        ensures value { result ≡ nat_le (sizes + arrivals) (closing_figure self.now.half self.now.top) }
    {
        let left = self.closing_figure().checked_sub(sizes);
        left.is_some_and(|left| arrivals <= left)
    }
}
