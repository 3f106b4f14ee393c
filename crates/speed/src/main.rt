//! How long a line takes: the soundness test and the insertion of its characters, in a stretch of 200 entries.
//!
//! What was done goes to standard output, the times to standard error, so that the output is the same on every machine.
#![tactic(auto)]

use histogram::{Entry, Histogram, NO_BUCKET, Settings};
use std::io;

/// How many lines are timed.
const LINES: u64 = 100_000;

/// Enters lines of one weight at the ticks 0, 1, 2 and so on. Answers how many lines were refused.
fn enter_lines(stretch: &mut [Entry], histogram: &mut Histogram, weight: u64) -> u64 {
    let mut refused = 0u64;
    for tick in 0..LINES {
        if histogram.enter(stretch, tick, weight).is_err() {
            refused += 1;
        }
    }
    refused
}

fn run(rt: &HostRuntime, k: u64, window: u64, cap: u64, weight: u64) -> io::Result<()> {
    let Ok(settings) = Settings::new(k, window, cap) else {
        return println!(rt; "no such settings");
    };
    let mut histogram = Histogram::new(settings, 0);
    let mut stretch = [NO_BUCKET; 200];
    let start = std::time::Instant::now(rt)?;
    let refused = enter_lines(&mut stretch, &mut histogram, weight);
    let spent = start.elapsed(rt)?.as_nanos();
    let each = spent / u128::from(LINES);
    eprintln!(rt; "k {k}, weight {weight}: {each} ns a line")?;
    println!(rt;
        "k {k}, N {window}, R {cap}, weight {weight}: {} buckets, {refused} lines refused",
        histogram.standing.buckets
    )
}

fn main(rt: HostRuntime) -> io::Result<()> {
    run(&rt, 8, 45_000, 64, 1)?;
    run(&rt, 8, 45_000, 64, 25)?;
    run(&rt, 8, 8_000, 1_024, 240)?;
    run(&rt, 8, 2_000, 1_024, 960)
}
