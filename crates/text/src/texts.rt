//! Checking and weighing a whole text.
ghost use Rattle.std.specs.Prelude.{◌≡◌, ◌≤◌, IfOk};
ghost use Rattle.text.specs.Encoding.{WellFormed};
ghost use Rattle.text.specs.Texts.{Weighs, Answered, weighed, OneReading, OneSpelling};

use crate::blanks::BlankCounting;
use crate::characters::read_char;
use crate::faults::TextFault;
use crate::rules::CountingRule;

/// How many bytes a text has at most.
pub const MOST_BYTES: usize = 240;

/// The weight of a text under a rule: the sum of what the rule weighs its characters.
///
/// A text of more than 240 bytes is refused before it is read, and one that is not well formed with the place where
/// its first character that fails begins.
pub fn weigh_text<R: CountingRule>(rule: &R, text: &[u8]) -> Result<u64, TextFault>
    ensures value { result ≡ weighed (R.weight rule.now) text.now }
    ensures exact { Answered (Weighs (R.weight rule.now) text.now) text.now result }
    ensures small { IfOk result (λ v. v ≤ 960) }
    ensures same { rule.exit.now ≡ rule.entry.now }
{
    if text.len() > MOST_BYTES {
        return Err(TextFault::TooLong);
    }
    let mut rest = text;
    let mut total: u64 = 0;
    while !rest.is_empty() {
        let Ok((code_point, bytes)) = read_char(rest) else {
            let at = text.len() - rest.len();
            return Err(TextFault::Malformed { at });
        };
        total += u64::from(rule.weight_of(code_point));
        rest = &rest[bytes..];
    }
    Ok(total)
}

/// Whether a text passes: it has at most 240 bytes and is the concatenation of the encodings of scalar values.
pub fn check_text(text: &[u8]) -> Result<(), TextFault>
    ensures { Answered (λ _. WellFormed text.now) text.now result }
{
    // Weighing reads the text to its end, under whichever rule.
    weigh_text(&BlankCounting, text)?;
    Ok(())
}

/// A text is read in one way only, well formed or not.
pub fn one_reading()
    ensures reading { OneReading }
    ensures spelling { OneSpelling }
{}
