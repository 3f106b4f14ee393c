//! What the program prints.
//!
//! What prints says in its contract which text it appends. The texts differ, so that no type could say it for all.
ghost use Rattle.std.specs.Prelude.{◌≡◌, ◌++◌, Some, All, OnOk, string_bytes};
ghost use Rattle.theory.specs.Buckets.{size};
ghost use Rattle.buckets.specs.Reports.{Small, reason, refused, sizes_list, summary_words};

use std::fmt;
use theory::Entry;

/// Why a line is not taken.
#[derive(Clone, Copy, Debug, PartialEq, Eq)]
pub enum Refusal {
    /// It is not k.
    NotK,
    /// It is not a count.
    NotACount,
    /// It is a count, and no tick is left for it.
    NoTick,
}

impl fmt::Display for Refusal {
    ghost output = { λ refusal. Some (reason refusal) };

    fn fmt<W: fmt::Write>(&self, f: &mut fmt::Formatter<W>) -> fmt::Result {
        f.write_str(match self {
            Refusal::NotK => "k is an even number from 2 to 32",
            Refusal::NotACount => "a count is a number from 0 to 960",
            Refusal::NoTick => "no more ticks are left",
        })
    }
}

/// Prints that a line is not taken, and why.
pub fn refuse(out: &mut String, at: u64, refusal: Refusal) -> fmt::Result
    ensures { OnOk result (string_bytes out.new ≡ string_bytes out.old ++ refused at refusal) }
{
    writeln!(out, "line {at}: refused, {refusal}")?;
    Ok(())
}

/// How many arrivals a bucket stands for.
///
/// It is no public method of `Entry`: an `Entry` holds any exponent, and no public call may ask for anything.
fn size_of(bucket: Entry) -> u64
    requires { Small bucket }
    ensures { result ≡ size bucket }
{
    1 << bucket.exponent
}

/// The sizes of buckets, which are given newest first, from the oldest to the newest.
#[derive(Clone, Copy)]
pub struct Sizes<'a> {
    pub(crate) buckets: &'a [Entry],
    ghost small: { All Small buckets.now },
}

impl fmt::Display for Sizes<'_> {
    ghost output = { λ sizes. Some (sizes_list sizes.buckets.now) };

    fn fmt<W: fmt::Write>(&self, f: &mut fmt::Formatter<W>) -> fmt::Result {
        let [newer @ .., oldest] = self.buckets else {
            return Ok(());
        };
        write!(f, "{}", size_of(*oldest))?;
        for bucket in newer.iter().rev() {
            write!(f, " {}", size_of(*bucket))?;
        }
        Ok(())
    }
}

/// How many arrivals stand in how many buckets.
#[derive(Clone, Copy, Debug, Default, PartialEq, Eq)]
pub struct Summary {
    pub arrivals: u64,
    pub buckets: usize,
}

impl fmt::Display for Summary {
    ghost output = { λ summary. Some (summary_words summary.arrivals summary.buckets) };

    fn fmt<W: fmt::Write>(&self, f: &mut fmt::Formatter<W>) -> fmt::Result {
        let Summary { arrivals, buckets } = *self;
        write!(f, "{arrivals} arrivals stand in {buckets} buckets")
    }
}
