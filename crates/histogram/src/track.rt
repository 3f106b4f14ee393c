//! The histogram of a track: what the track keeps of it, and what is done with it.

use super::levels::{all_zero, formed_sizes};
use super::settings::Settings;
use super::surveys::{Buckets, Figures, Survey, oldest_lives};
use super::window::Window;
use theory::Entry;

/// Why arrivals are not entered. The first cause that holds is told, in this order.
#[derive(Clone, Copy, PartialEq, Eq, Debug)]
pub enum EnterFault {
    /// The tick is before the track's own.
    Early,
    /// The stretch is not sound.
    Unsound,
    /// The weight at the tick would pass the cap.
    OverCap,
    /// The kept sizes with the arrivals would pass the closing figure.
    Full,
}

/// What arrivals change of a track: its own tick, the weight accepted at that tick, and its number of buckets.
#[derive(Clone, Copy, PartialEq, Eq, Debug)]
pub struct Standing {
    pub tick: u64,
    pub weight: u64,
    pub buckets: usize,
}

impl Standing {
    ghost use Rattle.std.specs.Prelude.{◌≡◌};
    ghost use Rattle.histogram.specs.Entering.{weight_before};

    /// The weight that was accepted at `tick` before: it starts at 0 if the tick is later than the track's own.
    fn weight_at(&self, tick: u64) -> u64
        ensures value { result ≡ weight_before self.now tick }
    {
        if self.tick < tick { 0 } else { self.weight }
    }
}

/// What a track keeps of its histogram. The buckets lie in the stretch that the caller lends.
#[derive(Clone, Copy, PartialEq, Eq, Debug)]
pub struct Histogram {
    pub settings: Settings,
    pub standing: Standing,
}

impl Histogram {
    ghost use Rattle.std.specs.Prelude.{◌≡◌};
    ghost use Rattle.histogram.specs.Entering.{entered, histogram_after, stretch_after, Entered};
    ghost use Rattle.histogram.specs.Histogram.{begun, is_sound};
    ghost use Rattle.histogram.specs.Surveys.{figures, surveyed, Bracketed};

    /// The histogram of a track that begins at `tick`: nothing has arrived, and there are no buckets.
    pub fn new(settings: Settings, tick: u64) -> Histogram
        ensures value { result ≡ begun settings tick }
    {
        let standing = Standing {
            tick,
            weight: 0,
            buckets: 0,
        };
        Histogram { settings, standing }
    }

    /// The longest window, at a tick.
    fn longest(&self, at: u64) -> Window
        ensures value { result ≡ record { ticks = self.now.settings.window; at = at } }
    {
        Window {
            ticks: self.settings.window,
            at,
        }
    }

    /// Whether the stretch is sound.
    pub fn is_sound(&self, stretch: &[Entry]) -> bool
        ensures value { result ≡ is_sound self.now stretch.now }
    {
        let own = self.longest(self.standing.tick);
        self.examine(stretch, own).is_some()
    }

    /// Examines the buckets in a window; nothing where the stretch is not sound.
    pub fn examine(&self, stretch: &[Entry], window: Window) -> Option<Survey>
        ensures value { result ≡ surveyed self.now window stretch.now }
    {
        let buckets = self.standing.buckets;
        let most = self.settings.most_buckets();
        if stretch.len() < most || buckets > most || !all_zero(&stretch[buckets..]) {
            return None;
        }
        let held = &stretch[..buckets];
        let sizes = formed_sizes(held, &self.settings, self.standing.tick)?;
        if !oldest_lives(held, self.longest(self.standing.tick)) {
            return None;
        }
        Some(Buckets { entries: held }.windowed(sizes, window))
    }

    /// Low and high of a window; nothing where the stretch is not sound.
    pub fn count(&self, stretch: &[Entry], window: Window) -> Option<Figures>
        ensures value { result ≡ figures self.now window stretch.now }
        ensures brackets { Bracketed self.now window stretch.now result }
    {
        let counted = self.examine(stretch, window)?;
        let low = if counted.buckets == 0 {
            0
        } else {
            counted.sizes - counted.oldest + 1
        };
        Some(Figures {
            low,
            high: counted.sizes,
        })
    }

    /// Enters `arrivals` at `tick`: drops the buckets that have expired, inserts the arrivals one after another, and zeroes
    /// the entries past the last bucket. A refusal leaves the histogram and the stretch as they were.
    pub fn enter(
        &mut self,
        stretch: &mut [Entry],
        tick: u64,
        arrivals: u64,
    ) -> Result<(), EnterFault>
        ensures value { result ≡ entered self.old tick arrivals stretch.old }
        ensures standing { self.new ≡ histogram_after self.old tick arrivals stretch.old }
        ensures after { stretch.new ≡ stretch_after self.old tick arrivals stretch.old }
        ensures keeps { Entered self.old tick arrivals stretch.old result self.new stretch.new }
    {
        if tick < self.standing.tick {
            return Err(EnterFault::Early);
        }
        let kept = self
            .examine(stretch, self.longest(tick))
            .ok_or(EnterFault::Unsound)?;
        let cap = self.settings.cap;
        let before = self.standing.weight_at(tick);
        let weight = before
            .checked_add(arrivals)
            .filter(|weight| *weight <= cap)
            .ok_or(EnterFault::OverCap)?;
        if !self.settings.fits(kept.sizes, arrivals) {
            return Err(EnterFault::Full);
        }
        // At most R arrivals by a cast: `usize` has no `From<u64>`, and the check proves that it loses nothing.
        let buckets = self.insert(stretch, kept.buckets, tick, arrivals as usize);
        self.standing = Standing {
            tick,
            weight,
            buckets,
        };
        Ok(())
    }
}
