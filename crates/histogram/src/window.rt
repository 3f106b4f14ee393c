//! A window of ticks.

/// The window of the last `ticks` ticks at the tick `at`: it holds what has its stamp + `ticks` above `at`.
#[derive(Clone, Copy, PartialEq, Eq, Debug)]
pub struct Window {
    pub ticks: u64,
    pub at: u64,
}

impl Window {
    ghost use Rattle.std.specs.Prelude.{◌≡◌};
    ghost use Rattle.histogram.specs.Surveys.{holds};

    /// Whether `stamp` is in the window.
    pub fn holds(&self, stamp: u64) -> bool
        ensures value { result ≡ holds self.now stamp }
    {
        stamp > self.at || self.at - stamp < self.ticks
    }
}
