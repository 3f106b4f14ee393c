//! What is said of a line, and of all lines together.
ghost use Rattle.std.specs.Prelude.{◌≡◌};
ghost use Rattle.weigh.specs.Reports.{line_weights, no_lines, summed, noted, next_line};

use std::fmt;
use text::{BlankCounting, BlankFree, Refusal, TextFault, weigh_text};

/// The weights of a line by the blank-counting and by the blank-free rule, or the sums of these.
#[derive(Clone, Copy, Default)]
pub struct Weights {
    counting: u64,
    free: u64,
}

impl Weights {
    /// The weights of a line, or why it is refused.
    pub fn of(line: &[u8]) -> Result<Weights, TextFault>
        ensures { result ≡ line_weights line.now }
    {
        let counting = weigh_text(&BlankCounting, line)?;
        let free = weigh_text(&BlankFree, line)?;
        Ok(Weights { counting, free })
    }

    /// The sums with these weights more. A sum that comes to 2^64 - 1 stays there.
    pub fn saturating_add(self, more: Weights) -> Weights
        ensures { result ≡ summed self more }
    {
        Weights {
            counting: self.counting.saturating_add(more.counting),
            free: self.free.saturating_add(more.free),
        }
    }
}

impl fmt::Display for Weights {
    ghost use Rattle.std.specs.Prelude.{Some};
    ghost use Rattle.weigh.specs.Reports.{weights_shown};

    ghost output = { λ weights. Some (weights_shown weights) };

    fn fmt<W: fmt::Write>(&self, f: &mut fmt::Formatter<W>) -> fmt::Result {
        let Weights { counting, free } = *self;
        write!(f, "{counting} with blanks, {free} without")
    }
}

/// What the line `number` weighs, or why it is refused.
#[derive(Clone, Copy)]
pub struct Report {
    pub number: u64,
    pub outcome: Result<Weights, TextFault>,
}

impl fmt::Display for Report {
    ghost use Rattle.std.specs.Prelude.{Some};
    ghost use Rattle.weigh.specs.Reports.{report_shown};

    ghost output = { λ report. Some (report_shown report.number report.outcome) };

    fn fmt<W: fmt::Write>(&self, f: &mut fmt::Formatter<W>) -> fmt::Result {
        let number = self.number;
        match self.outcome {
            Ok(weights) => {
                let Weights { counting, free } = weights;
                write!(f, "{number}: {counting} with blanks, {free} without")
            }
            Err(fault) => {
                let refusal = fault.number();
                let place = fault.place();
                write!(f, "{number}: refused {refusal} at {place}")
            }
        }
    }
}

/// What has been weighed so far. A number that comes to 2^64 - 1 stays there.
#[derive(Clone, Copy, Default)]
pub struct Tally {
    weighed: u64,
    sums: Weights,
    refused: u64,
}

impl Tally {
    /// A tally of no lines.
    pub fn new() -> Tally
        ensures { result ≡ no_lines }
    {
        Tally::default()
    }

    /// Notes one line more.
    pub fn note(&mut self, outcome: Result<Weights, TextFault>)
        ensures { self.new ≡ noted self.old outcome }
    {
        match outcome {
            Ok(weights) => {
                self.weighed = self.weighed.saturating_add(1);
                self.sums = self.sums.saturating_add(weights);
            }
            Err(_) => self.refused = self.refused.saturating_add(1),
        }
    }

    /// The number of the next line, from 1.
    pub fn next_line(&self) -> u64
        ensures { result ≡ next_line self.now }
    {
        self.weighed.saturating_add(self.refused).saturating_add(1)
    }
}

impl fmt::Display for Tally {
    ghost use Rattle.std.specs.Prelude.{Some};
    ghost use Rattle.weigh.specs.Reports.{summary_shown};

    ghost output = { λ tally. Some (summary_shown tally) };

    fn fmt<W: fmt::Write>(&self, f: &mut fmt::Formatter<W>) -> fmt::Result {
        let Tally {
            weighed,
            sums,
            refused,
        } = *self;
        write!(f, "weighed {weighed} lines: {sums}; {refused} refused")
    }
}
