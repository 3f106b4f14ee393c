//! What a line does.
//!
//! What prints says in its contract which text it appends. The texts differ, so that no type could say it for all.
ghost use Rattle.std.specs.Prelude.{◌≡◌, ℕ, List, ◌++◌, string_bytes, OnOk, IsSome};
ghost use Rattle.buckets.specs.Counts.{BoardRead, CountAdded, LineTaken, summed};
ghost use Rattle.buckets.specs.Numbers.{number_up_to};

use crate::board::{Board, MOST_COUNT};
use crate::numbers::read_number;
use crate::report::{Refusal, Summary, refuse};
use histogram::MOST_K;
use std::fmt;

/// The board of the k that a line spells.
fn read_board(line: &[u8]) -> Result<Board, Refusal>
    ensures value { BoardRead result (number_up_to 32 line.now) }
{
    read_number(line, MOST_K)
        .and_then(Board::new)
        .ok_or(Refusal::NotK)
}

/// Adds the count of arrivals that a line spells.
fn add_count(board: &mut Board, line: &[u8]) -> Result<(), Refusal>
    ensures after { CountAdded board.old result board.new (number_up_to 960 line.now) }
{
    let count = read_number(line, MOST_COUNT).ok_or(Refusal::NotACount)?;
    board.add(count)
}

/// Takes in a line: as long as there is no board it is to be k, and then a count of arrivals.
///
/// A board that there was is still there, also where printing fails.
pub fn take_line(board: &mut Option<Board>, line: &[u8], at: u64, out: &mut String) -> fmt::Result
    ensures taken { OnOk result ((text : List ℕ) × (string_bytes out.new ≡ string_bytes out.old ++ text) × LineTaken at board.old board.new text line.now) }
    ensures stays { IsSome board.old → IsSome board.new }
{
    match board {
        None => match read_board(line) {
            Ok(begun) => *board = Some(begun),
            Err(refusal) => refuse(out, at, refusal)?,
        },
        Some(kept) => match add_count(kept, line) {
            Ok(()) => writeln!(out, "{}", kept.sizes())?,
            Err(refusal) => refuse(out, at, refusal)?,
        },
    }
    Ok(())
}

/// Prints how many arrivals stand in how many buckets in the end.
pub fn sum_up(board: &Option<Board>, out: &mut String) -> fmt::Result
    ensures summed { OnOk result (string_bytes out.new ≡ string_bytes out.old ++ summed board.now) }
{
    // A match: `as_ref().map(Board::summary).unwrap_or_default()` was tried, and leaves a goal that the match does not.
    let summary = match board {
        Some(board) => board.summary(),
        None => Summary::default(),
    };
    writeln!(out, "{summary}")?;
    Ok(())
}
