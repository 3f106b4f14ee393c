//! Shows the buckets of an exponential histogram.
//!
//! The first line of standard input is k, each line after it a count of arrivals. After each count the sizes of the buckets
//! are printed, from the oldest to the newest, and at the end how many arrivals stand in how many buckets.
#![tactic(auto)]

mod board;
mod numbers;
mod report;
mod taking;
#[cfg(test)]
mod tests;

use std::alloc::Global;
use std::io;
use std::io::{BufRead, BufReader, Write};
use taking::{sum_up, take_line};

/// Prints what has been gathered, at once.
// `weigh` has its like: a crate of its own for these lines, which both would name, is no plainer.
fn print<W: Write>(output: &mut W, out: &mut String) -> io::Result<()> {
    output.write_all(out.as_bytes())?;
    output.flush()?;
    out.clear();
    Ok(())
}

/// Takes in all lines, and sums up.
fn run<R: BufRead + Drop, W: Write>(heap: Global, input: R, output: &mut W) -> anyhow::Result<()> {
    let mut board = None;
    let mut out = String::new(heap);
    for (at, line) in (1..u64::MAX).zip(input.split(heap, b'\n')) {
        let line = line?;
        take_line(&mut board, &line, at, &mut out)?;
        print(output, &mut out)?;
    }
    sum_up(&board, &mut out)?;
    print(output, &mut out)?;
    Ok(())
}

fn main(rt: HostRuntime) -> anyhow::Result<()> {
    let input = BufReader::new(rt.alloc(), rt.stdin())?;
    let mut output = rt.stdout();
    run(rt.alloc(), input, &mut output)
}
