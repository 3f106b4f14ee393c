//! Texts and counting rules.
//!
//! A text is at most 240 bytes of UTF-8. [`read_char`] reads the character that begins one, [`check_text`] says
//! whether a whole text passes, and [`weigh_text`] adds up what a [`CountingRule`] weighs its characters.
#![tactic(auto)]

mod blanks;
mod characters;
mod faults;
mod rows;
mod rules;
mod supplied;
#[cfg(test)]
mod tests;
mod texts;

pub use blanks::{BlankCounting, BlankFree};
pub use characters::{library_agrees, one_character_begins, read_char};
pub use faults::{Refusal, TextFault};
pub use rows::{MOST_ROWS, RowFault, RowTable, last_row_decides};
pub use rules::{CountingRule, LAST_CODE_POINT};
pub use supplied::SuppliedRule;
pub use texts::{MOST_BYTES, check_text, one_reading, weigh_text};
