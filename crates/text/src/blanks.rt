//! The two rules that differ about blanks.
ghost use Rattle.text.specs.Weights.{blank_counting, blank_free};
ghost use Rattle.std.proofs.Common.{rules};

use crate::rules::{CountingRule, LAST_CODE_POINT};

/// The blank U+0020.
const SPACE: u32 = 0x20;

/// The blank U+00A0.
const NO_BREAK_SPACE: u32 = 0xA0;

/// The blank U+0009.
const TAB: u32 = 0x09;

/// Every code point weighs 1, blanks included.
#[derive(Clone, Copy, Debug, Default, PartialEq, Eq)]
pub struct BlankCounting;

impl CountingRule for BlankCounting {
    ghost weight = { λ _ c. blank_counting c };

    ghost small = { Prim.search rules };

    ghost outside = { Prim.search rules };

    fn weight_of(&self, code_point: u32) -> u8 {
        u8::from(code_point <= LAST_CODE_POINT)
    }
}

/// The blanks U+0020, U+00A0 and U+0009 weigh 0, and every other code point weighs 1.
#[derive(Clone, Copy, Debug, Default, PartialEq, Eq)]
pub struct BlankFree;

impl CountingRule for BlankFree {
    ghost weight = { λ _ c. blank_free c };

    ghost small = { Prim.search rules };

    ghost outside = { Prim.search rules };

    fn weight_of(&self, code_point: u32) -> u8 {
        match code_point {
            SPACE | NO_BREAK_SPACE | TAB => 0,
            0..=LAST_CODE_POINT => 1,
            _ => 0,
        }
    }
}
