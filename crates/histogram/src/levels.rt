//! The buckets of a stretch, exponent by exponent.
ghost use Rattle.std.specs.Prelude.{◌≡◌, ◌≤◌, length};
ghost use Rattle.theory.specs.Sound.{every, is_zero};
ghost use Rattle.histogram.specs.Tails.{level_end, LevelOf, SizesOf};

use super::settings::Settings;
use theory::Entry;

/// Whether all entries are zero.
pub(crate) fn all_zero(part: &[Entry]) -> bool
    ensures value { result ≡ every is_zero part.now }
{
    // No early exit, and stamps and exponents apart: with both in one number a call on 460 entries took 1.2 to 1.4 times as long,
    // and with `all(|entry| *entry == NO_BUCKET)` a line took 6 to 19 % longer than that. One bit that is not 0 stays.
    let (stamps, exponents) = part.iter().fold((0, 0), |(stamps, exponents), entry| {
        (stamps | entry.stamp, exponents | entry.exponent)
    });
    stamps | exponents == 0
}

/// The stamp of the last bucket, `last` without any; none where a bucket has another exponent than `e` or its stamp rises, from
/// `last` on.
fn level_end(part: &[Entry], e: u64, last: u64) -> Option<u64>
    ensures value { result ≡ level_end e last part.now }
{
    let mut before = last;
    for bucket in part {
        if bucket.exponent != e || bucket.stamp > before {
            return None;
        }
        before = bucket.stamp;
    }
    Some(before)
}

/// How many of the buckets at the front are the level of exponent `e`: l or one more, or all that are left.
fn level_length(rest: &[Entry], settings: &Settings, e: u64, last: u64) -> Option<usize>
    requires some { 1 ≤ length rest.now }
    ensures value { LevelOf settings.now.half e last rest.now result }
{
    // l by a cast: `usize` has no `From<u64>`, and the check proves that it loses nothing.
    let sure = rest.len().min(settings.half as usize);
    let (level, older) = rest.split_at(sure);
    let before = level_end(level, e, last)?;
    let [next, ..] = older else {
        return Some(sure);
    };
    if next.stamp > before {
        return None;
    }
    Some(if next.exponent == e { sure + 1 } else { sure })
}

/// The sum of the sizes of buckets that insertion can have left, up to the tick `own`; none where it cannot.
pub(crate) fn formed_sizes(buckets: &[Entry], settings: &Settings, own: u64) -> Option<u64>
    ensures value { SizesOf settings.now.half settings.now.top own buckets.now result }
{
    let mut rest = buckets;
    let mut last = own;
    let mut sizes = 0u64;
    // Not `0..=top`: that was tried, and a line took 2 to 5 % longer.
    for e in 0..settings.top + 1 {
        if rest.is_empty() {
            return Some(sizes);
        }
        let n = level_length(rest, settings, e, last)?;
        last = rest[n - 1].stamp;
        // A cast: `u64` has no `From<usize>`, and the check proves that it loses nothing.
        sizes += (n as u64) << e;
        rest = &rest[n..];
    }
    rest.is_empty().then_some(sizes)
}
