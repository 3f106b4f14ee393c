//! Lines that arrive in pieces: each is weighed when its end has come.
//!
//! What prints says in its contract which text it appends. The texts differ, so that no type could say it for all.
ghost use Rattle.std.specs.Prelude.{◌≡◌, ℕ, List, [], ◌++◌, take, string_bytes, OnOk};
ghost use Rattle.lines.specs.Held.{held};
ghost use Rattle.weigh.specs.Reports.{line_weights, no_lines, noted, next_line, report_text};
ghost use Rattle.weigh.specs.Streams.{TakenIn, printed_last, OneStream};

use crate::reports::{Report, Tally, Weights};
use lines::{HeldLine, line_length};
use std::fmt;
use text::MOST_BYTES;

/// How many bytes of a line are kept: one more than a text may have tells that it is too long.
pub const KEPT: usize = MOST_BYTES + 1;

/// Weighs the lines of a stream that arrives in pieces.
///
/// It holds the first bytes of the line that has not ended yet, and the tally of those that have.
#[derive(Drop)]
pub struct Weigher {
    pub line: HeldLine<KEPT>,
    pub tally: Tally,
}

impl Weigher {
    /// A weigher to which nothing has come.
    pub fn new() -> Weigher
        ensures line { held result.line ≡ [] }
        ensures tally { result.tally ≡ no_lines }
    {
        Weigher {
            line: HeldLine::new(),
            tally: Tally::new(),
        }
    }

    /// Takes in the next piece of the stream: the lines that end in it are reported, and what is left of it is held.
    ///
    /// `begun` is what has come of the line that has not ended yet, of which the first bytes are held.
    pub fn take_in(&mut self, piece: &[u8], out: &mut String) -> fmt::Result
        ensures { (begun : List ℕ) → held self.old.line ≡ take 241 begun → OnOk result (TakenIn begun piece.now self.old.tally (string_bytes out.old) self.new.tally (string_bytes out.new) (held self.new.line)) }
    {
        let mut rest = piece;
        loop {
            let (part, after) = rest.split_at(line_length(rest));
            self.line.extend(part);
            let [_, next @ ..] = after else {
                return Ok(());
            };
            self.end_line(out)?;
            rest = next;
        }
    }

    /// Ends the stream: a last line that nothing ended is reported, and then the summary.
    pub fn finish(&mut self, out: &mut String) -> fmt::Result
        ensures { (begun : List ℕ) → held self.old.line ≡ take 241 begun → OnOk result (string_bytes out.new ≡ string_bytes out.old ++ printed_last self.old.tally begun) }
    {
        if !self.line.is_empty() {
            self.end_line(out)?;
        }
        writeln!(out, "{}", self.tally)?;
        Ok(())
    }

    /// Reports the line that is held, notes it, and begins the next.
    fn end_line(&mut self, out: &mut String) -> fmt::Result
        ensures printed { OnOk result (string_bytes out.new ≡ string_bytes out.old ++ report_text (next_line self.old.tally) (line_weights (held self.old.line))) }
        ensures noted { OnOk result (self.new.tally ≡ noted self.old.tally (line_weights (held self.old.line))) }
        ensures cleared { OnOk result (held self.new.line ≡ []) }
    {
        let report = Report {
            number: self.tally.next_line(),
            outcome: Weights::of(self.line.bytes()),
        };
        writeln!(out, "{report}")?;
        self.tally.note(report.outcome);
        self.line.clear();
        Ok(())
    }
}

/// However a stream arrives in pieces, what is printed of it is the same.
pub fn one_stream()
    ensures { OneStream }
{}
