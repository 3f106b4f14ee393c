//! Weighs the lines of standard input with blanks and without.
//!
//! A line ends at byte 10, and what follows the last one is a line too if it has a byte. The reports of the lines that
//! end in what was read are printed before more is read, in memory that does not grow with the input.
#![tactic(auto)]

ghost use Rattle.std.specs.Prelude.{◌≡◌, ℕ, ◌-◌, ◌^◌, ◌<◌, List, Some, length, OnOk};
ghost use Rattle.std.specs.Io.KnownBytes.{Appends};
ghost use Rattle.weigh.specs.Reports.{no_lines};
ghost use Rattle.weigh.specs.Streams.{printed_of};

mod reports;
#[cfg(test)]
mod tests;
mod weigher;

use std::alloc::Global;
use std::io::{self, Read, Write};
use weigher::Weigher;

/// How much is read at a time.
const CHUNK: usize = 65536;

/// Weighs the lines that `input` has left. Where its bytes are known, so is what is printed of them.
fn weigh<R: Read, W: Write>(
    heap: Global,
    input: &mut R,
    output: &mut W,
    buffer: &mut [u8],
) -> anyhow::Result<()>
    ensures printed { 0 < length buffer.old → (stream : List ℕ) → R.remaining input.old ≡ Some stream → length stream < 2 ^ 64 - 1 →
        OnOk result (Appends (W.contents output.old) (W.contents output.new) (printed_of no_lines stream)) }
{
    let mut weigher = Weigher::new();
    let mut out = String::new(heap);
    // With an end, which no input reaches: a reader may go on forever, and a loop without one may then never return.
    for _ in 0..u64::MAX {
        let count = input.read(buffer)?;
        if count == 0 {
            break;
        }
        weigher.take_in(&buffer[..count], &mut out)?;
        print(output, out.as_str())?;
        out.clear();
    }
    weigher.finish(&mut out)?;
    print(output, out.as_str())?;
    Ok(())
}

/// Writes `text`, and keeps none of it back.
// `buckets` has its like: a crate of its own for these lines, which both would name, is no plainer.
fn print<W: Write>(output: &mut W, text: &str) -> io::Result<()>
    ensures { OnOk result (Appends (W.contents output.old) (W.contents output.new) text.now) }
{
    output.write_all(text.as_bytes())?;
    output.flush()
}

fn main(rt: HostRuntime) -> anyhow::Result<()> {
    let mut input = rt.stdin();
    let mut output = rt.stdout();
    // An array lent to `read`, which says how much of it was filled: a `BufReader` with `fill_buf` and `consume` is no shorter.
    let mut buffer = [0u8; CHUNK];
    weigh(rt.alloc(), &mut input, &mut output, &mut buffer)
}
